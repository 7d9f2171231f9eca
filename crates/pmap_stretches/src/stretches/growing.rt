ghost use Rattle.std.specs.Prelude.{◌≡◌, ℕ, ◌+◌, ◌-◌, ◌^◌, ◌<◌, ◌≤◌, Option, List, IfOk, OnOk, max};
ghost use Rattle.std.specs.Option.{ForSome};
ghost use Rattle.prefix_keys.specs.Block.{width_of};
ghost use Rattle.pmap_stretches.specs.Sweep.{AreStretchesTo, IsWinner, last_first, statement_won, top_of};
ghost use Rattle.pmap_stretches.specs.Stretches.{label_seen};
ghost use Rattle.pmap_model.specs.declared.label.LabelId.{LabelId as LabelIdOf};
ghost use Rattle.pmap_model.specs.declared.statement.Statement.{Statement as StatementOf};

use crate::stretches::Stretches;
use pmap_model::LabelId;
use prefix_keys::Version;
use std::alloc::{AllocError, Global};

/// Stretches up to the address `last`. The addresses of the last stretch share the number `top`: that of the mapping
/// that wins or, if neighbours with the same label are joined, that of the label.
#[derive(Drop)]
pub struct Growing {
    pub stretches: Stretches,
    pub top: Option<usize>,
    pub last: u128,
    pub joined: bool,
}

// Returns the number that the addresses of a stretch share.
#[inline(always)]
fn top_of(joined: bool, won: Option<usize>, label: Option<LabelId>) -> Option<usize>
    ensures { result ≡ top_of joined won label }
{
    if joined {
        label.map(|id| id.0 as usize)
    } else {
        won
    }
}

impl Growing {
    /// Returns one stretch up to an address: there one mapping wins, which has this label.
    pub fn new(
        alloc: Global,
        version: Version,
        won: Option<usize>,
        label: Option<LabelId>,
        last: u128,
        most: usize,
        joined: bool,
    ) -> Result<Growing, AllocError>
        requires { ForSome label (λ id. id.0 < 2 ^ 32 - 1) }
        ensures version { IfOk result (λ g. g.stretches.version ≡ version) }
        ensures last { IfOk result (λ g. g.last ≡ last) }
        ensures joined { IfOk result (λ g. g.joined ≡ joined) }
        ensures are { (ss : List StatementOf) (default : Option LabelIdOf)
            → label ≡ label_seen default (statement_won ss won)
            → ((a : ℕ) → 0 ≤ a → a ≤ last → IsWinner ss a won) → IfOk result (AreStretchesTo ss default) }
    {
        Ok(Growing {
            stretches: Stretches::whole(alloc, version, label, most)?,
            top: top_of(joined, won, label),
            last,
            joined,
        })
    }

    /// Extends the stretches to an address if they don't reach it: from there on one mapping wins, which has this
    /// label.
    #[inline(always)]
    pub fn extend(
        &mut self,
        won: Option<usize>,
        label: Option<LabelId>,
        last: u128,
    ) -> Result<(), AllocError>
        requires from { last_first self.old.stretches ≤ self.old.last }
        requires within { last < 2 ^ width_of self.old.stretches.version }
        requires known { ForSome label (λ id. id.0 < 2 ^ 32 - 1) }
        ensures version { OnOk result (self.new.stretches.version ≡ self.old.stretches.version) }
        ensures last { OnOk result (self.new.last ≡ max self.old.last last) }
        ensures joined { OnOk result (self.new.joined ≡ self.old.joined) }
        ensures are { (ss : List StatementOf) (default : Option LabelIdOf) → AreStretchesTo ss default self.old
            → label ≡ label_seen default (statement_won ss won)
            → ((a : ℕ) → self.old.last + 1 ≤ a → a ≤ last → IsWinner ss a won)
            → OnOk result (AreStretchesTo ss default self.new) }
    {
        if last <= self.last {
            return Ok(());
        }
        let top = top_of(self.joined, won, label);
        if top != self.top {
            self.stretches.push(self.last + 1, label)?;
            self.top = top;
        }
        self.last = last;
        Ok(())
    }
}
