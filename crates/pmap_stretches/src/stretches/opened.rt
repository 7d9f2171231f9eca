ghost use Rattle.std.specs.Prelude.{◌≡◌, [], OnOk, Some};
ghost use Rattle.pmap_stretches.specs.Sweep.{HasOneMore, IsGreatest};

use std::alloc::{AllocError, Global};
use std::collections::BinaryHeap;
use std::marker::Model;

/// The numbers of the open mappings. The stack has numbers that were added in ascending order, so mappings whose first
/// addresses ascend take no heap.
#[derive(Drop)]
pub struct Opened {
    stack: Vec<usize>,
    others: BinaryHeap<usize>,
}

impl Model for Opened {
    ghost use Rattle.std.specs.Prelude.{List, ℕ, ◌++◌};
    ghost use Rattle.std.specs.BinaryHeap.{IsHeap, heap_items};
    ghost use Rattle.std.specs.List.Sorted.{IsNonDecreasingBy};
    ghost use Rattle.std.specs.Ordering.{nat_cmp};

    ghost Value = { List ℕ };

    ghost view = { λ o. o.stack.items ++ heap_items o.others };

    ghost invariant = { λ o. IsNonDecreasingBy (λ n. n) o.stack.items × IsHeap nat_cmp (heap_items o.others) };
}

impl Opened {
    /// Returns an empty set of numbers.
    pub fn new(alloc: Global) -> Opened
        ensures { result ≡ [] }
    {
        Opened {
            stack: Vec::new(alloc),
            others: BinaryHeap::new(alloc),
        }
    }

    /// Adds a number.
    #[inline(always)]
    pub fn push(&mut self, number: usize) -> Result<(), AllocError>
        ensures { OnOk result (HasOneMore self.old number self.new) }
    {
        if let Some(last) = self.stack.last().copied() {
            if number < last {
                self.others.push(number)?;
                return Ok(());
            }
        }
        self.stack.push(number)?;
        Ok(())
    }

    /// Returns the greatest number.
    #[inline(always)]
    pub fn greatest(&self) -> Option<usize>
        ensures { IsGreatest self.now result }
    {
        let Some(last) = self.stack.last().copied() else {
            return self.others.peek().copied();
        };
        let Some(other) = self.others.peek().copied() else {
            return Some(last);
        };
        Some(last.max(other))
    }

    /// Removes the greatest number, which is this one.
    #[inline(always)]
    pub fn remove(&mut self, number: usize)
        requires { IsGreatest self.old (Some number) }
        ensures { HasOneMore self.new number self.old }
    {
        if self.stack.last().copied() == Some(number) {
            self.stack.pop();
        } else {
            self.others.pop();
        }
    }
}
