//! Laws about the labels of maps and prefix lists.

ghost use Rattle.std.specs.Prelude.{◌≡◌, ℕ, Some, MatchOption, All};
ghost use Rattle.std.specs.List.{IsDistinct};
ghost use Rattle.std.specs.List.Sorted.{IsPermutation};
ghost use Rattle.prefix_keys.specs.Block.{block_number, width_of};
ghost use Rattle.pmap_model.specs.ListModel.{ListModel, Prefix, list_label, CoversAddress, HasSamePrefixes};
ghost use Rattle.pmap_model.specs.ListModel.{IsLongestMatch, LabelsBlocksOnce, is_same_prefix};
ghost use Rattle.pmap_model.specs.MapModel.{IsSettled, Label, MapModel, map_label};
ghost use Rattle.pmap_model.specs.PrefixList.{list_of, PrefixList};

/// A settled block has its label at each of its addresses.
pub fn settled_block_has_its_label()
    ensures { (m : MapModel) (n q a : ℕ) (x : Label) → block_number (width_of m.version) n a ≡ q →
        IsSettled m n q x → map_label m a ≡ x }
{}

/// The label that a list gives an address is that of the longest entry that covers it. Of entries with equal blocks the
/// first one counts. If no entry covers the address, it has no label.
pub fn longest_match_counts()
    ensures label { (l : ListModel) (a : ℕ) (p : Prefix) → IsLongestMatch (width_of l.version) l.prefixes a p →
        list_label l a ≡ Some p.label }
    ensures cases { (l : ListModel) (a : ℕ) → MatchOption (list_label l a)
        (All (λ p. ¬ CoversAddress (width_of l.version) a p) l.prefixes)
        (λ x. (p : Prefix) × IsLongestMatch (width_of l.version) l.prefixes a p × (p.label ≡ x)) }
{}

/// The order of a list's entries is irrelevant if no two entries have the same block, as in each list that is read from
/// a text, or if entries with the same block have the same label.
pub fn order_of_entries_is_free()
    ensures order { (l r : ListModel) → l.version ≡ r.version →
        IsDistinct (is_same_prefix (width_of l.version)) l.prefixes → IsPermutation l.prefixes r.prefixes → (a : ℕ)
        → list_label l a ≡ list_label r a }
    ensures entries { (l r : ListModel) → l.version ≡ r.version → LabelsBlocksOnce (width_of l.version) l.prefixes →
        HasSamePrefixes l.prefixes r.prefixes → (a : ℕ) → list_label l a ≡ list_label r a }
    ensures distinct { (l : PrefixList) → IsDistinct (is_same_prefix (width_of l.version)) (list_of l).prefixes }
{}
