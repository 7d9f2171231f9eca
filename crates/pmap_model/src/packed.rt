ghost use Rattle.std.specs.Prelude.{◌≡◌, ◌-◌, ◌%◌, ◌<◌, ◌≤◌, ◌^◌};
ghost use Rattle.prefix_keys.specs.Block.{width_of};

use crate::label::LabelId;
use prefix_keys::Version;

/// A mapping of IPv4 addresses, in 12 bytes.
#[derive(Clone, Copy)]
pub struct NarrowStatement {
    pub low: u32,
    pub high: u32,
    pub label: LabelId,
    ghost low_fits: { low < 2 ^ 32 },
    ghost high_fits: { high < 2 ^ 32 },
    ghost ordered: { low ≤ high },
}

/// A mapping of addresses of any version, in 48 bytes.
#[derive(Clone, Copy)]
pub struct WideStatement {
    pub low: u128,
    pub high: u128,
    pub label: LabelId,
    pub version: Version,
    ghost low_fits: { low < 2 ^ width_of version },
    ghost high_fits: { high < 2 ^ width_of version },
    ghost ordered: { low ≤ high },
}

/// An entry for a block of IPv4 addresses, in 12 bytes.
#[derive(Clone, Copy)]
pub struct NarrowEntry {
    pub value: u32,
    pub len: u32,
    pub label: LabelId,
    ghost len_in_range: { len ≤ 32 },
    ghost in_range: { value < 2 ^ 32 },
    ghost no_host_bit: { value % 2 ^ (32 - len) ≡ 0 },
}
