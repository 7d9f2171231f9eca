//! The law about faults and acceptance.

ghost use Rattle.std.specs.Prelude.{◌≡◌, None};
ghost use Rattle.pmap_model.specs.ListModel.{ListModel};
ghost use Rattle.pmap_model.specs.MapModel.{MapModel};
ghost use Rattle.pmap_cert.specs.Acceptance.{IsAccepted};
ghost use Rattle.pmap_cert.specs.CertificateText.{HasFormatText};
ghost use Rattle.pmap_cert.specs.CertificateModel.{CertificateModel};
ghost use Rattle.cert_check.specs.Checking.{first_fault};

/// A certificate that has a text, of either format, has no fault exactly if it is accepted. Each `Certificate` has a
/// text, and an accepted certificate has no fault even if it has no text.
pub fn no_fault_is_acceptance()
    ensures accepted { (m : MapModel) (l : ListModel) (c : CertificateModel) → HasFormatText c →
        first_fault m l c ≡ None → IsAccepted m l c }
    ensures no_fault { (m : MapModel) (l : ListModel) (c : CertificateModel) → IsAccepted m l c →
        first_fault m l c ≡ None }
{}
