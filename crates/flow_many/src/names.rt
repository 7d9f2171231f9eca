ghost use Rattle.std.specs.Prelude.{◌≡◌, IfOk, map};

use std::alloc::{AllocError, Global};
use std::marker::Model;

/// The names of Files, in the order of the command line.
#[derive(Drop)]
pub struct Names<'a> {
    names: Vec<&'a str>,
}

impl<'a> Model for Names<'a> {
    ghost use Rattle.std.specs.Prelude.{List, ℕ, map};

    ghost Value = { List (List ℕ) };

    ghost view = { λ n. map (λ name. name.now) n.names.items };
}

impl<'a> Names<'a> {
    /// Copies names.
    pub fn copied(alloc: Global, names: &[&'a str]) -> Result<Names<'a>, AllocError>
        ensures { IfOk result (λ copied. copied ≡ map (λ name. name.now) names.now) }
    {
        Ok(Names {
            names: Vec::from_slice(alloc, names)?,
        })
    }

    /// Returns the names.
    pub fn as_slice(&self) -> &[&'a str]
        ensures { map (λ name. name.now) result.now ≡ self.now }
    {
        self.names.as_slice()
    }
}
