//! The check of a certificate and of its text.
ghost use Rattle.std.specs.Prelude.{◌≡◌, ◌≢◌, ◌&&◌, Some, None, Ok, length, IfErr, IfOk, IsTrue, OnOk};
ghost use Rattle.pmap_model.specs.ListModel.{IsEquivalent};
ghost use Rattle.pmap_model.specs.MapText.{map_of};
ghost use Rattle.pmap_model.specs.PrefixList.{list_of};
ghost use Rattle.pmap_cert.specs.Acceptance.{IsAccepted, IsLeast};
ghost use Rattle.pmap_cert.specs.Certificate.{certificate_of};
ghost use Rattle.pmap_cert.specs.FormatReading.{format_reading};
ghost use Rattle.cert_check.specs.Checking.{IsTextOutcome, first_fault, is_same_version, text_fault, NoMemory};
ghost use Rattle.cert_check.specs.Inner.{AreSources, ForInputs, HasKnownLabels, IsRootChecked, IsUnread, reading_at};
ghost use Rattle.pmap_cert.specs.CertificateModel.{CertificateModel};

use crate::fault::{CheckFault, CheckFaultKind, TextFault};
use crate::laws::no_fault_is_acceptance;
use crate::sources::Sources;
use crate::swept::Swept;
use crate::walk::{Walk, check_node};
use pmap_cert::{
    CertFault, CertFaultKind, Certificate, Head, LineLimits, acceptance_is_enough,
    read_cert_with_hashing, read_head, text_of_format_is_read_or_has_a_fault, write_cert,
};
use pmap_model::{KeyHashing, MapText, PrefixList};
use pmap_stretches::Stretches;
use prefix_keys::Version;
use std::alloc::{AllocError, Global};

// Returns whether the map, the list and a certificate of this version are of one version.
fn are_one_version(map: &Stretches, list: &Stretches, version: Version) -> bool
    ensures value { result ≡ (is_same_version list.now.version map.now.version
        && is_same_version version map.now.version) }
    ensures list { IsTrue result → list.now.version ≡ map.now.version }
    ensures certificate { IsTrue result → version ≡ map.now.version }
{
    list.version() == map.version() && version == map.version()
}

// Checks the nodes of a certificate, and keeps its first fault.
fn check_root(sources: &Sources, walk: &mut Walk) -> Result<(), CertFault>
    requires sources { AreSources sources.now }
    requires number { walk.old.number ≡ 1 }
    requires fault { walk.old.fault ≡ None }
    ensures ok { OnOk result (IsRootChecked sources.now walk.old.nodes walk.new) }
    ensures err { IfErr result (IsUnread (reading_at sources.now 0 walk.old.nodes)) }
{
    let Some(cost) = check_node(sources, walk, 0, sources.version.last_address(), 0) else {
        return walk.outcome;
    };
    if sources.count as u64 > u64::from(cost) + 1 {
        walk.note(Some(CheckFaultKind::BoundNotMet), 0);
    }
    Ok(())
}

/// Checks the text of a certificate like [`check`], while it is read, and stores none of its nodes. `map` and `list`
/// are what a check needs of the map and of the list. A fault of the text comes before any fault of the check.
/// `hashing` is for the labels, and doesn't affect the result.
pub fn check_text(
    alloc: Global,
    map: &Swept,
    list: &Swept,
    text: &[u8],
    hashing: KeyHashing,
) -> Result<u64, TextFault>
    requires map { HasKnownLabels map.now }
    requires list { HasKnownLabels list.now }
    ensures accepted { IfOk result (λ _. ForInputs map.now list.now (λ m l. (c : CertificateModel)
        × (format_reading text.now ≡ Ok c) × IsAccepted m l c)) }
    ensures count { IfOk result (λ n. ForInputs map.now list.now (λ m l. n ≡ length l.prefixes)) }
    // The list labels every address as the map does, and no list that does so has fewer entries.
    ensures equivalent { IfOk result (λ _. ForInputs map.now list.now (λ m l. IsEquivalent l m)) }
    ensures least { IfOk result (λ _. ForInputs map.now list.now IsLeast) }
    ensures fault { ForInputs map.now list.now (λ m l.
        IsTextOutcome (text_fault m l (format_reading text.now)) result) }
{
    let Head {
        format,
        version,
        labels,
        nodes,
    } = read_head(alloc, text, hashing)?;
    let limits = LineLimits {
        format,
        width: version.width(),
        labels: &labels,
    };
    if !are_one_version(&map.stretches, &list.stretches, version) {
        // A fault of the text comes first. A certificate that is read has a text.
        let certificate = read_cert_with_hashing(alloc, text, hashing)?;
        let _root = certificate.root();
        text_of_format_is_read_or_has_a_fault();
        return Err(TextFault::Check(CheckFault {
            kind: CheckFaultKind::VersionDiffers,
            node: 0,
        }));
    }
    let sources = Sources::new(alloc, map, list, limits)?;
    let mut walk = Walk::new(alloc, nodes);
    check_root(&sources, &mut walk)?;
    if !walk.nodes.is_ended() {
        return Err(TextFault::Certificate(walk.nodes.fault(CertFaultKind::NodesLeft)));
    }
    if let Some(fault) = walk.fault {
        return Err(TextFault::Check(fault));
    }
    // Provides these laws: a text that is read is a certificate's, which is accepted if it has no fault, and acceptance
    // is enough.
    text_of_format_is_read_or_has_a_fault();
    no_fault_is_acceptance();
    acceptance_is_enough();
    Ok(list.count as u64)
}

/// Checks that the certificate shows the list to be equivalent to the map and a shortest one, and returns the number of
/// the list's entries. Whoever made them, the list then labels every address as the map does, and no list that does so
/// has fewer entries. Labels are compared by their texts.
///
/// # Errors
///
/// Returns the first fault, with the number of its node in the order of the certificate's node lines, from 1. A fault
/// of no single node has the number 0.
///
/// - `VersionDiffers`: the map, the list and the certificate aren't of one version.
/// - Then the nodes, those of a lower half before those of the upper half and both before their node. `LeafNotUniform`:
///   the map doesn't settle the leaf's block with its label. `ListDiffers`: an entry lies strictly inside the leaf's
///   block, or the longest that covers it is absent or has another label. `CostTooHigh`: the claimed cost is above that
///   of the exact claim of the halves' claims. `SetTooSmall`: the cost is the same, and the set lacks a label of that
///   claim. A chain has one number: its end comes first, then the blocks beside its path from the deepest up, each as a
///   leaf with the side label, then its claim against its exact claim.
/// - `BoundNotMet`: the list has more entries than the root's cost plus one.
/// - `NoMemory`: an allocation failed.
///
/// A fault doesn't say that the list is wrong or not a shortest one, only that this certificate doesn't show it.
pub fn check(
    alloc: Global,
    map: &MapText,
    list: &PrefixList,
    certificate: &Certificate,
) -> Result<u64, CheckFault>
    ensures accepted { IfOk result (λ _. IsAccepted (map_of map.now) (list_of list.now)
        (certificate_of certificate.now)) }
    ensures count { IfOk result (λ n. n ≡ length (list_of list.now).prefixes) }
    // The list labels every address as the map does, and no list that does so has fewer entries.
    ensures equivalent { IfOk result (λ _. IsEquivalent (list_of list.now) (map_of map.now)) }
    ensures least { IfOk result (λ _. IsLeast (map_of map.now) (list_of list.now)) }
    ensures ok { IfOk result (λ _. first_fault (map_of map.now) (list_of list.now) (certificate_of certificate.now)
        ≡ None) }
    ensures fault { IfErr result (λ fault. fault.kind ≢ NoMemory →
        first_fault (map_of map.now) (list_of list.now) (certificate_of certificate.now) ≡ Some fault) }
    ensures memory { IfErr result (λ fault. fault.kind ≡ NoMemory → fault.node ≡ 0) }
{
    let text = write_cert(alloc, certificate)?;
    let swept_map = Swept::copied_from_map(alloc, map)?;
    let swept_list = Swept::copied_from_list(alloc, list)?;
    // Provides these laws: a certificate has a text, and a text is read as the certificate that it is the text of.
    let _root = certificate.root();
    text_of_format_is_read_or_has_a_fault();
    let hashing = KeyHashing::known();
    match check_text(alloc, &swept_map, &swept_list, text.as_slice(), hashing) {
        Ok(count) => Ok(count),
        Err(TextFault::Check(fault)) => Err(fault),
        // The text of a certificate has no fault, so an allocation failed.
        Err(TextFault::Certificate(_)) => Err(CheckFault::from(AllocError)),
    }
}
