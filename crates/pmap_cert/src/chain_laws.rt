//! Laws about certificates with chains.

ghost use Rattle.std.specs.Prelude.{◌≡◌, ◌≤◌, ◌⊎◌, ◌↔◌, ◌∷◌, ℕ, Bool, List, Err, Ok, length};
ghost use Rattle.std.specs.Str.{bytes_eq};
ghost use Rattle.pmap_model.specs.ListModel.{ListModel};
ghost use Rattle.pmap_model.specs.MapModel.{Label, MapModel};
ghost use Rattle.pmap_cert.specs.Acceptance.{IsAccepted};
ghost use Rattle.pmap_cert.specs.CertificateText.{HasFormatText, HasTextForm, certificate_text};
ghost use Rattle.pmap_cert.specs.CertificateModel.{CertificateModel, InnerNode, LeafNode, Claim, Tree};
ghost use Rattle.pmap_cert.specs.CertificateModel.{claim_of, IsOfFormat, IsPlain, chain_claim, opened_tree};
ghost use Rattle.pmap_cert.specs.CertificateModel.{opened_certificate, claim_by_bits, IsSameClaim};
ghost use Rattle.pmap_cert.specs.Compacting.{HasNoSpine, IsSameShape, IsPath, OpensTo, compact, compacted};
ghost use Rattle.pmap_cert.specs.Compacting.{line_count, side_of, spine_bits, spine_compacted, spine_end};
ghost use Rattle.pmap_cert.specs.FormatReading.{format_reading, CertFault};

/// A chain's exact claim, which `chain_claim` gives in one step, equals the exact claim taken bit by bit from the end
/// up, whether or not the end's set has the side label.
pub fn chain_claim_is_bit_by_bit()
    ensures { (bit : Bool) (bits : List Bool) (side : Label) (end : Claim) →
        IsSameClaim (chain_claim (length (bit ∷ bits)) side end) (claim_by_bits (bit ∷ bits) side end) }
{}

/// An accepted certificate stays accepted when each chain is opened into its inner nodes and leaves. Its root claims
/// the same, and no chain is left, so what holds of certificates without chains carries over.
pub fn opened_is_accepted()
    ensures accepted { (m : MapModel) (l : ListModel) (c : CertificateModel) → IsAccepted m l c →
        IsAccepted m l (opened_certificate c) }
    ensures claim { (m : MapModel) (l : ListModel) (c : CertificateModel) → IsAccepted m l c →
        claim_of (opened_certificate c).root ≡ claim_of c.root }
    ensures plain { (c : CertificateModel) → IsPlain (opened_certificate c).root }
{}

/// An accepted certificate stays accepted for its map and list when it is compacted. The converse is false: a chain
/// drops the claims of the inner nodes below its top, and one of them may be too high.
pub fn compact_keeps_acceptance()
    ensures { (m : MapModel) (l : ListModel) (c : CertificateModel) → IsOfFormat c → IsAccepted m l c →
        IsAccepted m l (compact c) }
{}

/// A compacted certificate has format 2, the version and the label table of the original, and no more node lines.
pub fn compact_has_no_more_lines()
    ensures format { (c : CertificateModel) → IsOfFormat c → (compact c).format ≡ 2 }
    ensures version { (c : CertificateModel) → (compact c).version ≡ c.version }
    ensures table { (c : CertificateModel) → (compact c).table ≡ c.table }
    ensures lines { (c : CertificateModel) → IsOfFormat c → line_count (compact c).root ≤ line_count c.root }
{}

/// If a certificate of format 1 is compacted, opening its chains gives back the same tree with the same labels, and the
/// same claims except at the inner nodes below a chain's top. No spine of two inner nodes is left in the compacted
/// certificate.
pub fn compact_opens_to_the_same()
    ensures shape { (c : CertificateModel) → c.format ≡ 1 → IsPlain c.root →
        IsSameShape (opened_tree (compact c).root) c.root }
    ensures claims { (c : CertificateModel) → c.format ≡ 1 → IsPlain c.root → OpensTo (compact c).root c.root }
    ensures spines { (c : CertificateModel) → c.format ≡ 1 → IsPlain c.root → HasNoSpine (compact c).root }
{}

/// Compacting changes neither a certificate of format 2 nor one that was compacted already.
pub fn compact_gives_back_equal()
    ensures again { (c : CertificateModel) → c.format ≡ 2 → compact c ≡ c }
    ensures twice { (c : CertificateModel) → IsOfFormat c → compact (compact c) ≡ compact c }
{}

/// A tree is compacted from its root down: each inner node by its spine, and a leaf stays as it is. A spine is a path
/// whose side leaves all have the side label, and no such path from the same node is longer.
pub fn compacting_is_by_longest_spines()
    ensures inner { (claim : Claim) (lower upper : Tree) → compacted bytes_eq (InnerNode claim lower upper)
        ≡ spine_compacted bytes_eq (compacted bytes_eq) claim lower upper (side_of lower upper) }
    ensures leaf { (x : Label) → compacted bytes_eq (LeafNode x) ≡ LeafNode x }
    ensures path { (side : Label) (node : Tree) →
        IsPath (λ end. end ≡ spine_end bytes_eq side node) side (spine_bits bytes_eq side node) node }
    ensures longest { (side : Label) (node : Tree) (bits : List Bool) →
        IsPath (λ end. Unit {0}) side bits node → length bits ≤ length (spine_bits bytes_eq side node) }
{}

/// A certificate with a text of its format, compacted, has one. One with a text of format 1 has a text of its format.
pub fn compact_has_a_text()
    ensures text { (c : CertificateModel) → HasFormatText c → HasFormatText (compact c) }
    ensures first { (c : CertificateModel) → HasTextForm c → HasFormatText c }
{}

/// A text is read as a certificate exactly if the certificate is well formed and this is its text. So each text is the
/// text of a well-formed certificate or has a first fault, and never both.
pub fn text_of_format_is_read_or_has_a_fault()
    ensures read { (text : List ℕ) (c : CertificateModel) →
        format_reading text ≡ Ok c ↔ (HasFormatText c × (text ≡ certificate_text c)) }
    ensures either { (text : List ℕ) → ((fault : CertFault) × (format_reading text ≡ Err fault))
        ⊎ ((c : CertificateModel) × HasFormatText c × (text ≡ certificate_text c)) }
    ensures apart { (text : List ℕ) (fault : CertFault) (c : CertificateModel) →
        format_reading text ≡ Err fault → HasFormatText c → ¬ (text ≡ certificate_text c) }
{}
