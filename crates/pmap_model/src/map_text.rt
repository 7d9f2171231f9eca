ghost use Rattle.std.specs.Prelude.{◌≡◌, ◌<◌, ◌≤◌, length, All};
ghost use Rattle.std.proofs.Props.{props};

use crate::label::LabelId;
use crate::labels::Labels;
use crate::name::Name;
use crate::statements::Statements;
use prefix_keys::Version;

/// A prefix map as its text states it: the version of its addresses, its name, the label of addresses that no statement
/// covers, its statements in order, and its label table.
#[derive(Drop)]
pub struct MapText {
    pub version: Version,
    pub name: Option<Name>,
    pub default: LabelId,
    pub statements: Statements,
    pub labels: Labels,
    ghost one_version: { All (λ s. s.span.low.version ≡ version) statements } by { Prim.hlevel props },
    ghost numbers_known: { All (λ s. s.label.0 < length labels) statements } by { Prim.hlevel props },
    ghost default_known: { default.0 < length labels },
    ghost within_limit: { length statements ≤ 1000000 },
}
