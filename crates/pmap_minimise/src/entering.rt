//! The own entry of a certificate's node, and the label that the node passes on.
ghost use Rattle.std.specs.Prelude.{◌<◌, IfOk, length};
ghost use Rattle.pmap_minimise.specs.Numbers.{IsOwn};

use pmap_cert::has_label;
use pmap_model::{Entries, Entry, LabelId};
use prefix_keys::Block;
use std::alloc::AllocError;

/// Adds the own entry of a node with these labels, if it has one, and returns the label that the node passes on.
#[inline(always)]
pub fn push_own(
    entries: &mut Entries,
    labels: &[LabelId],
    block: Block,
    inherited: Option<LabelId>,
) -> Result<LabelId, AllocError>
    requires { 0 < length labels.now }
    ensures { IfOk result (IsOwn labels.now block inherited entries.old entries.new) }
{
    if let Some(id) = inherited
        && has_label(labels, id)
    {
        return Ok(id);
    }
    let least = labels[0];
    entries.push(Entry {
        block,
        label: least,
    })?;
    Ok(least)
}
