ghost use Rattle.std.specs.Prelude.{◌≡◌, ◌<◌};

use crate::labeller::Labeller;
use label_trie::Trie;
use pmap_model::Labels;
use prefix_keys::{Addr, Version};
use std::marker::Model;

/// The labels of a trie, with their texts from a label table.
#[derive(Drop)]
pub struct TrieLabeller<'a> {
    trie: &'a Trie,
    labels: &'a Labels,
}

impl<'a> Model for TrieLabeller<'a> {
    ghost use Rattle.label_lookup.specs.Labelling.{AreNumbersKnown, TrieLabels};

    ghost Value = { TrieLabels };

    ghost view = { λ l. record { trie = l.trie.now; table = l.labels.now } };

    ghost invariant = { λ l. AreNumbersKnown l.trie.now l.labels.now };
}

impl<'a> TrieLabeller<'a> {
    ghost use Rattle.label_lookup.specs.Labelling.{AreNumbersKnown};

    /// Returns the labels of this trie. All numbers in the trie must have texts in the table.
    pub fn new(trie: &'a Trie, labels: &'a Labels) -> TrieLabeller<'a>
        requires { AreNumbersKnown trie.now labels.now }
        ensures trie { result.trie ≡ trie.now }
        ensures table { result.table ≡ labels.now }
    {
        TrieLabeller { trie, labels }
    }
}

impl<'a> Labeller for TrieLabeller<'a> {
    ghost use Rattle.label_lookup.specs.Labelling.{trie_label};

    ghost version_of = { λ l. l.trie.version };

    ghost label = { trie_label };

    fn version(&self) -> Version {
        self.trie.root().block().version
    }

    fn label_of(&self, addr: Addr) -> Option<&[u8]> {
        self.labels.text(self.trie.label_at(addr)?)
    }
}
