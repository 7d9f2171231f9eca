ghost use Rattle.std.specs.Prelude.{◌≡◌, ◌<◌, ◌≤◌, IsOk, ℕ, [], List, length, Some, IsTrue};
ghost use Rattle.std.specs.Prelude.{IfOk, IfSome, OnErr, OnOk, option_map, slice_get};
ghost use Rattle.pmap_model.specs.Label.{is_label, has_label, number_of, with_label, IsLabelTable};

use crate::hashing::KeyHashing;
use crate::label::LabelId;
use indexmap::{Equivalent, IndexSet};
use smallvec::SmallVec;
use std::alloc::{AllocError, Global};
use std::marker::Model;

// A text of a table. Most texts are short, and are stored inline.
type Text = SmallVec<u8, 16>;

// A text that is looked up.
#[derive(Clone, Copy, PartialEq, Eq, Hash)]
struct Sought<'a> {
    bytes: &'a [u8],
}

impl Equivalent<Text> for Sought<'_> {
    ghost use Rattle.std.specs.Cmp.Lexicographic.{bytes_decides, nat_list_eq_equiv};
    ghost use Rattle.std.specs.Hash.{slice, u8};
    ghost use Rattle.std.specs.Str.{bytes_eq};
    ghost use Rattle.std.proofs.Common.{ap};

    ghost equivalent = { λ q k. bytes_eq q.bytes.now k.items };

    ghost respects_hash = { λ q k h. ap (slice u8) ((bytes_decides q.bytes.now k.items).0 h) };

    ghost respects_eq = { λ q x y. nat_list_eq_equiv.congr q.bytes.now x.items y.items };

    fn equivalent(&self, key: &Text) -> bool {
        self.bytes == key.as_slice()
    }
}

/// A table of distinct label texts. The number of a text is its index, from 0 in the order in which the texts were
/// added.
pub struct Labels {
    alloc: Global,
    texts: IndexSet<Text, KeyHashing>,
}

// A drop is one call, so the proofs of functions that drop this type have one step instead of one for each part.
impl Drop for Labels {
    fn drop(self) {
        let Labels { alloc: _, texts: _ } = self;
    }
}

impl Model for Labels {
    ghost use Rattle.std.specs.Prelude.{ℕ, List, map};
    ghost use Rattle.pmap_model.specs.Label.{IsLabelTable};

    ghost Value = { List (List ℕ) };

    ghost view = { λ l. map (λ text. text.items) l.texts.keys };

    ghost invariant = { λ l. IsLabelTable (map (λ text. text.items) l.texts.keys) };
}

impl Labels {
    /// Returns an empty table, whose texts are hashed with the fixed numbers.
    pub fn new(alloc: Global) -> Labels
        ensures { result ≡ [] }
    {
        Labels::with_hashing(alloc, KeyHashing::known())
    }

    /// Returns an empty table, whose texts are hashed with these numbers.
    pub fn with_hashing(alloc: Global, hashing: KeyHashing) -> Labels
        ensures { result ≡ [] }
    {
        Labels {
            alloc,
            texts: IndexSet::with_hasher(alloc, hashing),
        }
    }

    /// A law: a table has at most 65536 texts, all of them labels and no two equal.
    pub fn laws(&self)
        ensures few { length self.now ≤ 65536 }
        ensures table { IsLabelTable self.now }
    {
        let _texts = &self.texts;
    }

    /// Returns the number of texts.
    pub fn len(&self) -> usize
        ensures { result ≡ length self.now }
    {
        self.texts.len()
    }

    /// Returns the text with a number. The text is a label, and its number is this one.
    #[inline(always)]
    pub fn text(&self, id: LabelId) -> Option<&[u8]>
        ensures value { option_map (λ t. t.now) result ≡ slice_get self.now id.0 }
        ensures number { IfSome result (λ t. number_of self.now t.now ≡ Some id.0) }
        ensures label { IfSome result (λ t. IsTrue (is_label t.now)) }
    {
        Some(self.texts.get_index(id.0 as usize)?.as_slice())
    }

    /// Returns the number of a text. The text with that number is this one, and it is a label.
    // A call keeps this out of the way of the labels that were found recently.
    #[inline(never)]
    pub fn id_of(&self, text: &[u8]) -> Option<LabelId>
        ensures value { option_map (λ id. id.0) result ≡ number_of self.now text.now }
        ensures text { IfSome result (λ id. slice_get self.now id.0 ≡ Some text.now) }
        ensures label { IfSome result (λ id. IsTrue (is_label text.now)) }
    {
        Some(LabelId(self.texts.get_index_of(Sought { bytes: text })? as u32))
    }

    /// Returns `true` if the text is in the table.
    pub fn contains(&self, text: &[u8]) -> bool
        ensures { result ≡ has_label self.now text.now }
    {
        self.id_of(text).is_some()
    }

    /// Returns a table with the same texts and numbers.
    pub fn copy(&self) -> Result<Labels, AllocError>
        ensures { IfOk result (λ copy. copy ≡ self.now) }
    {
        Ok(Labels {
            alloc: self.alloc,
            texts: self.texts.clone()?,
        })
    }

    /// Adds a text, and returns its number. A known text keeps its number, and nothing is allocated for it. A new text
    /// comes last. All other texts keep their numbers. If an allocation fails, the table is unchanged.
    pub fn add(&mut self, text: &[u8]) -> Result<LabelId, AllocError>
        requires label { IsTrue (is_label text.now) }
        requires room { length self.old < 65536 }
        ensures ok { OnOk result (self.new ≡ with_label self.old text.now) }
        ensures number { IfOk result (λ id. number_of self.new text.now ≡ Some id.0) }
        ensures text { IfOk result (λ id. slice_get self.new id.0 ≡ Some text.now) }
        ensures kept { (i : ℕ) (t : List ℕ) → slice_get self.old i ≡ Some t → slice_get self.new i ≡ Some t }
        ensures known { IsTrue (has_label self.old text.now) → IsOk result }
        ensures err { OnErr result (self.new ≡ self.old) }
    {
        match self.id_of(text) {
            Some(id) => Ok(id),
            None => self.add_new(text),
        }
    }

    /// Adds a text like [`add`](Self::add), by one look-up in place of two. Memory may be allocated for a known text
    /// too.
    pub fn add_new(&mut self, text: &[u8]) -> Result<LabelId, AllocError>
        requires label { IsTrue (is_label text.now) }
        requires room { length self.old < 65536 }
        ensures ok { OnOk result (self.new ≡ with_label self.old text.now) }
        ensures number { IfOk result (λ id. number_of self.new text.now ≡ Some id.0) }
        ensures text { IfOk result (λ id. slice_get self.new id.0 ≡ Some text.now) }
        ensures kept { (i : ℕ) (t : List ℕ) → slice_get self.old i ≡ Some t → slice_get self.new i ≡ Some t }
        ensures err { OnErr result (self.new ≡ self.old) }
    {
        let (index, _) = self
            .texts
            .insert_full(SmallVec::from_slice(self.alloc, text)?)?;
        Ok(LabelId(index as u32))
    }
}
