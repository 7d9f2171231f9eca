//! Laws about the texts of prefix lists.

ghost use Rattle.std.specs.Prelude.{◌≡◌, ◌≤◌, ℕ, List, length, Ok};
ghost use Rattle.std.specs.List.{IsDistinct};
ghost use Rattle.std.specs.List.Sorted.{IsPermutation};
ghost use Rattle.pmap_model.specs.ListModel.{ListModel, Prefix, same_start_and_bits};
ghost use Rattle.pmap_model.specs.MapModel.{MapModel};
ghost use Rattle.pmap_text.specs.Reading.{label_limit, mapping_limit, map_reading, list_reading};
ghost use Rattle.pmap_cert.specs.Acceptance.{IsAccepted, IsInOrder, IsMinimalPair};
ghost use Rattle.pmap_cert.specs.CertificateModel.{CertificateModel};
ghost use Rattle.pmap_cert.specs.ListText.{list_text, entries_in_order, CanBeReadAgain};
ghost use Rattle.pmap_cert.specs.ListText.{IsListAgain, IsMapAgain, IsWellFormed, labels_of};

/// A list is printed in the only order in which each entry precedes all that follow it. A list in that order keeps it.
pub fn printed_order_is_one()
    ensures entries { (ps : List Prefix) → IsPermutation ps (entries_in_order ps) }
    ensures order { (ps : List Prefix) → IsDistinct same_start_and_bits ps → IsInOrder (entries_in_order ps) }
    ensures one { (ps rs : List Prefix) → IsDistinct same_start_and_bits ps → IsPermutation ps rs → IsInOrder rs →
        rs ≡ entries_in_order ps }
    ensures kept { (ps : List Prefix) → IsInOrder ps → entries_in_order ps ≡ ps }
{}

/// The printed text of a list of distinct blocks, with well-formed labels and within the limits of a text, is read
/// back. As a list it has the same name, version and entries, and as a map it has the same label at each address that
/// the list labels.
pub fn printed_list_is_read_back()
    ensures list { (l : ListModel) → CanBeReadAgain l →
        (r : ListModel) × (list_reading (list_text l) ≡ Ok r) × IsListAgain l r }
    ensures map { (l : ListModel) → CanBeReadAgain l →
        (m : MapModel) × (map_reading (list_text l) ≡ Ok m) × IsMapAgain l m }
{}

/// The list of a minimal pair of a map text is well formed: its blocks are distinct, and its labels and its name are
/// well formed. If it has at most 1,000,000 entries with at most 65,535 label texts, it can be printed and read again,
/// and the pair's certificate is accepted for the list that is read. The map text doesn't imply these limits: a range
/// may need several blocks, and a text with 65,535 labels may also use `UNKNOWN` without stating it.
pub fn minimal_list_can_be_read_again()
    ensures form { (text : List ℕ) (m : MapModel) (l : ListModel) (c : CertificateModel) →
        map_reading text ≡ Ok m → IsMinimalPair m l c → IsWellFormed l }
    ensures again { (text : List ℕ) (m : MapModel) (l : ListModel) (c : CertificateModel) →
        map_reading text ≡ Ok m → IsMinimalPair m l c → length l.prefixes ≤ mapping_limit →
        length (labels_of l.prefixes) ≤ label_limit → CanBeReadAgain l
        × ((again : ListModel) → IsListAgain l again → (again.prefixes ≡ l.prefixes) × IsAccepted m again c) }
{}
