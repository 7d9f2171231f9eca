ghost use Rattle.std.specs.Prelude.{◌≡◌, ◌<◌, length, All};
ghost use Rattle.std.proofs.Props.{props};
ghost use Rattle.pmap_model.specs.ListEntries.{HasDistinctBlocks};

use crate::entries::Entries;
use crate::labels::Labels;
use crate::name::Name;
use prefix_keys::Version;

/// A prefix list as its text states it: the version of its addresses, its name, its entries in order, and its label
/// table. The label of an address is that of the longest block that covers it.
#[derive(Drop)]
pub struct PrefixList {
    pub version: Version,
    pub name: Option<Name>,
    pub entries: Entries,
    pub labels: Labels,
    ghost one_version: { All (λ e. e.block.version ≡ version) entries } by { Prim.hlevel props },
    ghost numbers_known: { All (λ e. e.label.0 < length labels) entries } by { Prim.hlevel props },
    ghost blocks_distinct: { HasDistinctBlocks entries } by { Prim.hlevel props },
}
