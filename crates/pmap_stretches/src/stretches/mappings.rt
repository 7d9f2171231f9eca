ghost use Rattle.std.specs.Prelude.{◌≡◌, ◌<◌, List, Some, length, slice_get};
ghost use Rattle.pmap_model.specs.declared.statement.Statement.{Statement as StatementOf};

use pmap_model::{Entries, Statement, Statements};

/// Mappings in order: at an address the last one that covers it wins.
pub trait Mappings {
    ghost all: { Self → List StatementOf };

    /// Returns the number of mappings.
    fn count(&self) -> usize
        ensures { result ≡ length (all self.now) };

    /// Returns the mapping with a number, from 0.
    fn mapping(&self, number: usize) -> Statement
        requires { number < length (all self.now) }
        ensures { slice_get (all self.now) number ≡ Some result };
}

impl Mappings for Statements {
    ghost all = { λ statements. statements };

    #[inline(always)]
    fn count(&self) -> usize {
        self.len()
    }

    #[inline(always)]
    fn mapping(&self, number: usize) -> Statement {
        self.at(number)
    }
}

impl Mappings for Entries {
    ghost use Rattle.std.specs.Prelude.{map};
    ghost use Rattle.pmap_stretches.specs.Mappings.{statement_of};

    ghost all = { map statement_of };

    #[inline(always)]
    fn count(&self) -> usize {
        self.len()
    }

    #[inline(always)]
    fn mapping(&self, number: usize) -> Statement {
        let entry = self.at(number);
        Statement {
            span: entry.block.span(),
            label: entry.label,
        }
    }
}
