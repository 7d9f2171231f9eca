//! The stretches of mappings, built from the first address to the last.
ghost use Rattle.std.specs.Prelude.{◌≡◌, ◌+◌, ◌^◌, ◌<◌, ◌≤◌, [], IfOk, OnOk, length};
ghost use Rattle.std.specs.Option.{ForSome};
ghost use Rattle.prefix_keys.specs.Block.{width_of};
ghost use Rattle.pmap_stretches.specs.Sweep.{AreOpen, AreSwept, BeginAfter, Continues};
ghost use Rattle.pmap_stretches.specs.Sweep.{HaveLabelsWon, HaveNumbers, IsAscent, statement_won};
ghost use Rattle.pmap_stretches.specs.Starting.{IsOrder};
ghost use Rattle.pmap_stretches.specs.Stretches.{label_seen};

use crate::stretches::Stretches;
use crate::stretches::growing::Growing;
use crate::stretches::mappings::Mappings;
use crate::stretches::opened::Opened;
use crate::stretches::starts::Starts;
use pmap_model::LabelId;
use prefix_keys::Version;
use std::alloc::{AllocError, Global};

/// The stretches of mappings up to an address, the label of the addresses that no mapping covers, the order in which
/// mappings begin, the number of those that have begun, and the numbers of those that may go on.
#[derive(Drop)]
pub struct Ascent {
    pub growing: Growing,
    pub default: Option<LabelId>,
    pub starts: Starts,
    pub next: usize,
    pub opened: Opened,
}

// Returns the label where a mapping wins, or the default if none does.
#[inline(always)]
fn label_won<M: Mappings>(
    mappings: &M,
    won: Option<usize>,
    default: Option<LabelId>,
) -> Option<LabelId>
    requires { ForSome won (λ number. number < length (M.all mappings.now)) }
    ensures { result ≡ label_seen default (statement_won (M.all mappings.now) won) }
{
    match won {
        Some(number) => Some(mappings.mapping(number).label),
        None => default,
    }
}

// Opens the mappings that begin at address 0, and returns how many these are.
fn open_at_zero<M: Mappings>(
    opened: &mut Opened,
    mappings: &M,
    starts: &Starts,
) -> Result<usize, AllocError>
    requires order { IsOrder (M.all mappings.now) starts.now }
    requires none { opened.old ≡ [] }
    ensures opened { IfOk result (λ next. AreOpen (M.all mappings.now) starts.now next 0 opened.new) }
    ensures later { IfOk result (λ next. BeginAfter (M.all mappings.now) starts.now next 0) }
{
    for place in 0..mappings.count() {
        let number = starts.number(place);
        if mappings.mapping(number).span.low.value != 0 {
            return Ok(place);
        }
        opened.push(number)?;
    }
    Ok(mappings.count())
}

impl Ascent {
    // Returns the stretches up to address 0.
    fn new<M: Mappings>(
        alloc: Global,
        version: Version,
        default: Option<LabelId>,
        mappings: &M,
        starts: Starts,
        joined: bool,
    ) -> Result<Ascent, AllocError>
        requires known { HaveNumbers (M.all mappings.now) default }
        requires order { IsOrder (M.all mappings.now) starts }
        ensures ascent { IfOk result (IsAscent (M.all mappings.now)) }
        ensures version { IfOk result (λ a. a.growing.stretches.version ≡ version) }
        ensures default { IfOk result (λ a. a.default ≡ default) }
        ensures joined { IfOk result (λ a. a.growing.joined ≡ joined) }
        ensures last { IfOk result (λ a. a.growing.last ≡ 0) }
        ensures later { IfOk result (λ a. BeginAfter (M.all mappings.now) a.starts a.next a.growing.last) }
    {
        let mut opened = Opened::new(alloc);
        let next = open_at_zero(&mut opened, mappings, &starts)?;
        let won = opened.greatest();
        let label = label_won(mappings, won, default);
        // A stretch begins at the first address of a mapping, or after the last one.
        let most = mappings.count().saturating_mul(2).saturating_add(1);
        let growing = Growing::new(alloc, version, won, label, 0, most, joined)?;
        Ok(Ascent {
            growing,
            default,
            starts,
            next,
            opened,
        })
    }

    // Extends the stretches to an address before the next mapping begins, and closes open mappings that end up to
    // there.
    #[inline(always)]
    fn reach<M: Mappings>(&mut self, mappings: &M, last: u128) -> Result<(), AllocError>
        requires known { HaveNumbers (M.all mappings.now) self.old.default }
        requires ascent { IsAscent (M.all mappings.now) self.old }
        requires later { BeginAfter (M.all mappings.now) self.old.starts self.old.next last }
        requires from { self.old.growing.last ≤ last }
        requires within { last < 2 ^ width_of self.old.growing.stretches.version }
        ensures continues { OnOk result (Continues (M.all mappings.now) self.old self.new) }
        ensures last { OnOk result (self.new.growing.last ≡ last) }
    {
        while self.growing.last < last {
            let Some(number) = self.opened.greatest() else {
                self.growing.extend(None, self.default, last)?;
                return Ok(());
            };
            let mapping = mappings.mapping(number);
            let high = mapping.span.high.value;
            if last < high {
                self.growing
                    .extend(Some(number), Some(mapping.label), last)?;
                return Ok(());
            }
            self.growing
                .extend(Some(number), Some(mapping.label), high)?;
            self.opened.remove(number);
        }
        Ok(())
    }

    // Opens the mappings that begin up to `end`, and extends the stretches to the address before the last of them
    // begins.
    fn open_all<M: Mappings>(&mut self, mappings: &M, end: u128) -> Result<(), AllocError>
        requires known { HaveNumbers (M.all mappings.now) self.old.default }
        requires ascent { IsAscent (M.all mappings.now) self.old }
        requires later { BeginAfter (M.all mappings.now) self.old.starts self.old.next self.old.growing.last }
        requires from { self.old.growing.last ≤ end }
        requires within { end < 2 ^ width_of self.old.growing.stretches.version }
        ensures ascent { OnOk result (IsAscent (M.all mappings.now) self.new) }
        ensures version { OnOk result
            (self.new.growing.stretches.version ≡ self.old.growing.stretches.version) }
        ensures default { OnOk result (self.new.default ≡ self.old.default) }
        ensures joined { OnOk result (self.new.growing.joined ≡ self.old.growing.joined) }
        ensures later { OnOk result (BeginAfter (M.all mappings.now) self.new.starts self.new.next end) }
        ensures last { OnOk result (self.new.growing.last ≤ end) }
    {
        while self.next < mappings.count() {
            let number = self.starts.number(self.next);
            let low = mappings.mapping(number).span.low.value;
            if end < low {
                return Ok(());
            }
            self.reach(mappings, low - 1)?;
            self.opened.push(number)?;
            self.next += 1;
        }
        Ok(())
    }
}

/// Returns the stretches of mappings with these starts. `default` is the label of the addresses that no mapping covers.
pub fn of_mappings<M: Mappings>(
    alloc: Global,
    version: Version,
    default: Option<LabelId>,
    mappings: &M,
    starts: Starts,
    joined: bool,
) -> Result<Stretches, AllocError>
    requires known { HaveNumbers (M.all mappings.now) default }
    requires order { IsOrder (M.all mappings.now) starts }
    ensures version { IfOk result (λ s. s.version ≡ version) }
    ensures stretches { IfOk result (AreSwept joined (M.all mappings.now) default) }
    ensures labels { IfOk result (HaveLabelsWon (M.all mappings.now) default) }
{
    let end = version.last_address();
    let mut ascent = Ascent::new(alloc, version, default, mappings, starts, joined)?;
    ascent.open_all(mappings, end)?;
    ascent.reach(mappings, end)?;
    Ok(ascent.growing.stretches)
}
