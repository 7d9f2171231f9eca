//! A list of bytes that only contracts see.
ghost use Rattle.std.specs.Prelude.{◌≡◌, ◌++◌, [], List, ℕ};
ghost use Rattle.std.specs.Borrow.{ftrue};

use std::marker::{Model, PhantomData};

/// Bytes in order, for contracts alone. It takes no memory, and its methods do nothing at run time.
#[derive(Drop)]
pub struct Record {
    marker: PhantomData<u8>,
    pub ghost bytes: { List ℕ },
}

impl Model for Record {
    ghost also_owns = { λ _. ftrue };
}

impl Record {
    /// Returns a record of no bytes.
    pub fn new() -> Record
        ensures { result.bytes ≡ [] }
    {
        Record {
            marker: PhantomData,
        }
    }

    /// Adds the bytes at the end.
    pub fn note(&mut self, _bytes: &[u8])
        ensures { self.new.bytes ≡ self.old.bytes ++ _bytes.now }
    {}
}
