ghost use Rattle.std.specs.Prelude.{◌≡◌, [], IsTrue, IfOk, map};
ghost use Rattle.std.specs.List.Sorted.{IsNonDecreasingBy};
ghost use Rattle.std.specs.Option.{ForSome};
ghost use Rattle.pmap_stretches.specs.Starting.{IsOrder, number_at, start_of_narrow};

use crate::stretches::start::{NarrowStart, Start};
use pmap_model::Statements;
use std::alloc::{AllocError, Global};
use std::marker::Model;

/// The starts of mappings, in ascending order. There are none if the mappings are in this order as they are.
#[derive(Drop)]
pub struct Starts {
    // Either these or the wide ones are empty.
    narrow: Vec<NarrowStart>,
    wide: Vec<Start>,
}

impl Model for Starts {
    ghost use Rattle.std.specs.Prelude.{List, map, ◌++◌};
    ghost use Rattle.pmap_stretches.specs.Starting.{Start, start_of_narrow};

    ghost Value = { List Start };

    ghost view = { λ s. map start_of_narrow s.narrow.items ++ s.wide.items };
}

// Returns `true` only if no statement begins before an earlier one.
fn are_ascending(statements: &Statements) -> bool
    ensures { IsTrue result → IsNonDecreasingBy (λ s. s.span.low.value) statements.now }
{
    for place in 1..statements.len() {
        if statements.at(place).span.low.value < statements.at(place - 1).span.low.value {
            return false;
        }
    }
    true
}

// Returns the starts of these statements in 8 bytes each, or `None` if one of them doesn't fit.
fn narrow_starts(
    alloc: Global,
    statements: &Statements,
) -> Result<Option<Vec<NarrowStart>>, AllocError>
    ensures { IfOk result (λ starts. ForSome starts (λ s. IsOrder statements.now (map start_of_narrow s.items))) }
{
    let mut starts = Vec::with_capacity(alloc, statements.len())?;
    for number in 0..statements.len() {
        let low = statements.at(number).span.low.value;
        let Some(start) = NarrowStart::new(Start { low, number }) else {
            return Ok(None);
        };
        starts.push(start)?;
    }
    starts.sort_unstable_by_key(|start| start.low);
    Ok(Some(starts))
}

// Returns the starts of these statements.
fn wide_starts(alloc: Global, statements: &Statements) -> Result<Vec<Start>, AllocError>
    ensures { IfOk result (λ starts. IsOrder statements.now starts.items) }
{
    let mut starts = Vec::with_capacity(alloc, statements.len())?;
    for number in 0..statements.len() {
        let low = statements.at(number).span.low.value;
        starts.push(Start { low, number })?;
    }
    starts.sort_unstable_by_key(|start| start.low);
    Ok(starts)
}

impl Starts {
    /// Returns no starts, for mappings in ascending order.
    pub fn none(alloc: Global) -> Starts
        ensures { result ≡ [] }
    {
        Starts {
            narrow: Vec::new(alloc),
            wide: Vec::new(alloc),
        }
    }

    /// Returns the starts of these statements.
    pub fn new(alloc: Global, statements: &Statements) -> Result<Starts, AllocError>
        ensures { IfOk result (IsOrder statements.now) }
    {
        if are_ascending(statements) {
            return Ok(Starts::none(alloc));
        }
        if let Some(narrow) = narrow_starts(alloc, statements)? {
            let wide = Vec::new(alloc);
            return Ok(Starts { narrow, wide });
        }
        let wide = wide_starts(alloc, statements)?;
        let narrow = Vec::new(alloc);
        Ok(Starts { narrow, wide })
    }

    /// Returns the number of the mapping with an index in this order.
    #[inline(always)]
    pub fn number(&self, place: usize) -> usize
        ensures { result ≡ number_at self.now place }
    {
        if place < self.narrow.len() {
            return self.narrow[place].number as usize;
        }
        match self.wide.get(place - self.narrow.len()) {
            Some(start) => start.number,
            None => place,
        }
    }
}
