ghost use Rattle.std.specs.Prelude.{◌≡◌, ◌+◌, ◌^◌};
ghost use Rattle.prefix_keys.specs.Block.{width_of};

/// The version of the Internet Protocol to which an address belongs.
#[derive(Clone, Copy, PartialEq, Eq)]
pub enum Version {
    /// IPv4 (RFC 791).
    V4,
    /// IPv6 (RFC 8200).
    V6,
}

impl Version {
    /// Returns the number of bits of an address.
    #[inline(always)]
    pub fn width(self) -> u32
        ensures { result ≡ width_of self }
    {
        match self {
            Version::V4 => 32,
            Version::V6 => 128,
        }
    }

    /// Returns the number of the highest address.
    pub fn last_address(self) -> u128
        ensures { result + 1 ≡ 2 ^ width_of self }
    {
        match self {
            Version::V4 => u128::from(u32::MAX),
            Version::V6 => u128::MAX,
        }
    }
}
