ghost use Rattle.std.specs.Prelude.{◌≡◌, ◌↔◌, [], false, option_map, IfSome, IsTrue, OnErr, OnOk};
ghost use Rattle.pmap_text.specs.Declarations.{conflicts, declared_text, label_number as number_of_text};
ghost use Rattle.pmap_text.specs.Declarations.{meant_text, with_declared};
ghost use Rattle.pmap_model.specs.Label.{is_label};

use indexmap::IndexSet;
use pmap_model::KeyHashing;
use prefix_keys::read_decimal;
use std::alloc::{AllocError, Global};
use std::marker::Model;

/// The numbers that a text declares for labels, and their texts: the first text belongs to the first number, and so on.
/// No two numbers are equal, and no two texts are.
pub struct Declarations {
    alloc: Global,
    numbers: IndexSet<u32, KeyHashing>,
    texts: IndexSet<Vec<u8>, KeyHashing>,
}

// A drop is one call, so the proofs of functions that drop this type have one step instead of one for each part.
impl Drop for Declarations {
    fn drop(self) {
        let Declarations {
            alloc: _,
            numbers: _,
            texts: _,
        } = self;
    }
}

impl Model for Declarations {
    ghost use Rattle.std.specs.Prelude.{ℕ, List, map};
    ghost use Rattle.std.specs.List.{zip};
    ghost use Rattle.pmap_text.specs.Declarations.{ArePaired};
    ghost use Rattle.pmap_model.specs.MapModel.{Label};

    ghost Value = { List (ℕ × Label) };

    ghost view = { λ d. zip d.numbers.keys (map (λ text. text.items) d.texts.keys) };

    ghost invariant = { λ d. ArePaired d.numbers.keys (map (λ text. text.items) d.texts.keys) };
}

impl Declarations {
    /// Returns an empty set of declarations. Numbers and texts are hashed with the numbers of `hashing`.
    pub fn new(alloc: Global, hashing: KeyHashing) -> Declarations
        ensures { result ≡ [] }
    {
        Declarations {
            alloc,
            numbers: IndexSet::with_hasher(alloc, hashing),
            texts: IndexSet::with_hasher(alloc, hashing),
        }
    }

    /// Returns the text that was declared for a number. The text is a label.
    // A call keeps this out of the way of texts that declare nothing.
    #[inline(never)]
    pub fn text_of(&self, number: u32) -> Option<&[u8]>
        ensures value { option_map (λ t. t.now) result ≡ declared_text self.now number }
        ensures label { IfSome result (λ t. IsTrue (is_label t.now)) }
    {
        let index = self.numbers.get_index_of(&number)?;
        Some(self.texts.get_index(index)?.as_slice())
    }

    /// Returns `true` if the number has another text, or the text another number. Otherwise both are at the same index,
    /// or neither is declared.
    pub fn conflicts(&self, number: u32, text: &[u8]) -> bool
        ensures { result ≡ conflicts self.now number text.now }
    {
        self.numbers.get_index_of(&number) != self.texts.get_index_of(text)
    }

    /// Declares a text for a number. If the number is declared already, nothing changes. If an allocation fails,
    /// nothing changes either.
    pub fn add(&mut self, number: u32, text: &[u8]) -> Result<(), AllocError>
        requires label { IsTrue (is_label text.now) }
        requires agrees { conflicts self.old number text.now ≡ false }
        ensures ok { OnOk result (self.new ≡ with_declared self.old (number, text.now)) }
        ensures err { OnErr result (self.new ≡ self.old) }
    {
        if self.numbers.contains(&number) {
            return Ok(());
        }
        // After this reservation the insertion below allocates nothing, so the two sets grow together.
        self.numbers.reserve(1)?;
        self.texts.insert(Vec::from_slice(self.alloc, text)?)?;
        self.numbers.insert(number)?;
        Ok(())
    }

    /// Returns the text that a label represents: the declared text if the label is a declared number, otherwise the
    /// label itself.
    #[inline(always)]
    pub fn meant<'a>(&'a self, label: &'a [u8]) -> &'a [u8]
        ensures value { result.now ≡ meant_text self.now label.now }
        ensures label { IsTrue (is_label label.now) ↔ IsTrue (is_label result.now) }
    {
        if self.numbers.is_empty() {
            return label;
        }
        let Some(number) = label_number(label) else {
            return label;
        };
        self.text_of(number).unwrap_or(label)
    }
}

/// Returns the number that 1 to 10 digits represent, at most 2147483647.
pub fn label_number(text: &[u8]) -> Option<u32>
    ensures { result ≡ number_of_text text.now }
{
    Some(read_decimal(text, 10, 2147483647)? as u32)
}
