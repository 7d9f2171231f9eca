ghost use Rattle.std.specs.Prelude.{◌≡◌, IfOk, IsTrue};
ghost use Rattle.pmap_model.specs.Label.{is_label};

use std::alloc::{AllocError, Global};
use std::marker::Model;

/// The name of a prefix map or a prefix list: a text that is well formed as a label.
#[derive(Drop)]
pub struct Name {
    bytes: Vec<u8>,
}

impl Model for Name {
    ghost use Rattle.std.specs.Prelude.{IsTrue, List, ℕ};
    ghost use Rattle.pmap_model.specs.Label.{is_label};

    ghost Value = { List ℕ };

    ghost view = { λ n. n.bytes.items };

    ghost invariant = { λ n. IsTrue (is_label n.bytes.items) };
}

impl Name {
    /// Returns a name with this text.
    pub fn new(alloc: Global, text: &[u8]) -> Result<Name, AllocError>
        requires label { IsTrue (is_label text.now) }
        ensures { IfOk result (λ name. name ≡ text.now) }
    {
        let bytes = Vec::from_slice(alloc, text)?;
        Ok(Name { bytes })
    }

    /// Returns the bytes of the name, which are well formed as a label.
    pub fn as_bytes(&self) -> &[u8]
        ensures value { result.now ≡ self.now }
        ensures label { IsTrue (is_label self.now) }
    {
        self.bytes.as_slice()
    }
}
