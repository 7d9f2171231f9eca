//! Laws about certificates.

ghost use Rattle.std.specs.Prelude.{◌≡◌, ◌+◌, ◌≤◌, ◌&&◌, ◌||◌, ℕ, List, Ok, false, length, IsTrue};
ghost use Rattle.pmap_model.specs.ListModel.{IsEquivalent, ListModel};
ghost use Rattle.pmap_model.specs.MapModel.{Label, MapModel};
ghost use Rattle.pmap_text.specs.Reading.{map_reading};
ghost use Rattle.pmap_cert.specs.Acceptance.{IsAccepted, IsLeast, HasListForm, HasItsLabels, IsMinimalPair};
ghost use Rattle.pmap_cert.specs.CertificateText.{HasTextForm};
ghost use Rattle.pmap_cert.specs.CertificateModel.{CertificateModel, Claim, claim_of};
ghost use Rattle.pmap_cert.specs.CertificateModel.{IsClaimWith, IsSameClaim, exact_claim};
ghost use Rattle.pmap_model.specs.Label.{has_label};

/// An accepted certificate is enough, whoever made it: its list labels every address as the map does, and no list that
/// does so has fewer entries. Each such list has at least as many entries as the root's cost plus one.
pub fn acceptance_is_enough()
    ensures equivalent { (m : MapModel) (l : ListModel) (c : CertificateModel) → IsAccepted m l c →
        IsEquivalent l m }
    ensures least { (m : MapModel) (l : ListModel) (c : CertificateModel) → IsAccepted m l c →
        IsLeast m l }
    ensures bound { (m : MapModel) (l : ListModel) (c : CertificateModel) → IsAccepted m l c →
        (other : ListModel) → IsEquivalent other m →
        (claim_of c.root).cost + 1 ≤ length other.prefixes }
{}

/// Each map has a minimal pair of a list and a certificate: its blocks are halved until each is settled, and a block of
/// one address always is.
pub fn minimal_pair_exists()
    ensures { (m : MapModel) → (l : ListModel) × (c : CertificateModel) × IsMinimalPair m l c }
{}

/// The certificate of a minimal pair is accepted for its list. So the list labels every address as the map does, and no
/// equivalent list has fewer entries. The number of its entries is the root's cost plus one.
pub fn minimal_pair_is_accepted()
    ensures accepted { (m : MapModel) (l : ListModel) (c : CertificateModel) → IsMinimalPair m l c →
        IsAccepted m l c }
    ensures count { (m : MapModel) (l : ListModel) (c : CertificateModel) → IsMinimalPair m l c →
        length l.prefixes ≡ (claim_of c.root).cost + 1 }
    ensures equivalent { (m : MapModel) (l : ListModel) (c : CertificateModel) → IsMinimalPair m l c →
        IsEquivalent l m }
    ensures least { (m : MapModel) (l : ListModel) (c : CertificateModel) → IsMinimalPair m l c →
        IsLeast m l }
{}

/// A map has only one minimal pair.
pub fn minimal_pair_is_unique()
    ensures certificates { (m : MapModel) (l l' : ListModel) (c c' : CertificateModel) →
        IsMinimalPair m l c → IsMinimalPair m l' c' → c ≡ c' }
    ensures lists { (m : MapModel) (l l' : ListModel) (c c' : CertificateModel) →
        IsMinimalPair m l c → IsMinimalPair m l' c' → l ≡ l' }
{}

/// A map read from a text has all its labels in its table.
pub fn map_text_has_its_labels()
    ensures { (text : List ℕ) (m : MapModel) → map_reading text ≡ Ok m → HasItsLabels m }
{}

/// A map read from a text has a minimal pair whose certificate has a text: its labels are in the table, and its costs
/// are below 2 ^ 32, since a map text has at most 1,000,000 mappings.
pub fn map_text_has_a_minimal_pair()
    ensures { (text : List ℕ) (m : MapModel) → map_reading text ≡ Ok m →
        (l : ListModel) × (c : CertificateModel) × IsMinimalPair m l c × HasTextForm c }
{}

/// If the map's table has all its labels, the entries of a minimal pair's list have distinct blocks, ordered by first
/// address and then by length, with labels of its table.
pub fn minimal_list_is_in_order()
    ensures { (m : MapModel) (l : ListModel) (c : CertificateModel) →
        IsMinimalPair m l c → HasItsLabels m → HasListForm l }
{}

/// The exact claim of two claims depends only on their costs and sets, however these are listed: if a label is common,
/// it is the sum of the costs with the common labels, otherwise one more with the labels of either.
pub fn exact_claim_is_of_sets()
    ensures common { (p r : Claim) (x : Label) → IsTrue (has_label p.labels x) → IsTrue (has_label r.labels x) →
        IsClaimWith (exact_claim p r) (p.cost + r.cost) (λ y. has_label p.labels y && has_label r.labels y) }
    ensures apart { (p r : Claim) → ((x : Label) → (has_label p.labels x && has_label r.labels x) ≡ false) →
        IsClaimWith (exact_claim p r) (p.cost + r.cost + 1) (λ y. has_label p.labels y || has_label r.labels y) }
    ensures same { (p r p' r' : Claim) → IsSameClaim p p' → IsSameClaim r r' →
        IsSameClaim (exact_claim p r) (exact_claim p' r') }
{}
