//! The label of a row's address.
ghost use Rattle.std.specs.Prelude.{◌≡◌, IfSome, IsTrue, option_map};
ghost use Rattle.pmap_model.specs.Label.{is_label};
ghost use Rattle.label_lookup.specs.Labelling.{label_by, label_where, labelling_by, labelling_borrowed};

use crate::labeller::Labeller;
use prefix_keys::{Addr, convert};

/// Returns the label of a row's address, converted to the labeller's version. Returns `None` if the address can't be
/// converted, or has no label there.
#[inline(always)]
pub fn label_row<L: Labeller>(labeller: &L, addr: Addr) -> Option<&[u8]>
    ensures value { option_map (λ t. t.now) result
        ≡ label_by (labelling_by L.version_of L.label labeller.now) (addr.version, addr.value) }
    ensures label { IfSome result (λ t. IsTrue (is_label t.now)) }
{
    labeller.label_of(convert(addr, labeller.version())?)
}

/// Returns the label of a row's address like [`label_row`], or `None` if there is no labeller.
#[inline(always)]
pub fn label_row_under<L: Labeller>(labeller: Option<&L>, addr: Addr) -> Option<&[u8]>
    ensures value { option_map (λ t. t.now) result
        ≡ label_where (labelling_borrowed L.version_of L.label labeller.entry) (addr.version, addr.value) }
    ensures label { IfSome result (λ t. IsTrue (is_label t.now)) }
{
    label_row(labeller?, addr)
}
