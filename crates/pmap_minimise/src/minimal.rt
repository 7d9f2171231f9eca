ghost use Rattle.std.specs.Prelude.{◌≡◌, ◌+◌, ◌<◌, All, IfOk, length, map};
ghost use Rattle.pmap_model.specs.ListEntries.{HasDistinctBlocks};
ghost use Rattle.pmap_model.specs.ListModel.{IsEquivalent, ListModel};
ghost use Rattle.pmap_model.specs.MapText.{map_of};
ghost use Rattle.pmap_model.specs.PrefixList.{list_of, prefix_of};
ghost use Rattle.pmap_cert.specs.Acceptance.{IsAccepted, IsLeast, HasListForm, IsMinimalPair};
ghost use Rattle.pmap_cert.specs.Certificate.{IsOpening, certificate_of};
ghost use Rattle.pmap_cert.specs.CertificateText.{HasTextForm};
ghost use Rattle.pmap_cert.specs.CertificateModel.{CertificateModel, claim_of};
ghost use Rattle.pmap_cert.specs.Compacting.{compact};
ghost use Rattle.label_trie.specs.TrieModel.{IsSettledLeaf, IsUndivided};

use crate::building::built_of;
use crate::claiming::claimed;
use crate::entries::entries_of;
use label_trie::Trie;
use pmap_cert::{Certificate, Format, minimal_pair_is_accepted};
use pmap_model::{Entries, Labels, MapText, Name, PrefixList};
use pmap_stretches::{Runs, Stretches};
use prefix_keys::Version;
use std::alloc::{AllocError, Global};

/// A shortest prefix list for a map, its certificate, and the cost that the certificate's root claims.
#[derive(Drop)]
pub struct Minimal {
    pub list: PrefixList,
    pub root_cost: u64,
    pub certificate: Certificate,
}

/// Returns a shortest prefix list that labels every address as the map does, with its certificate. The list has the
/// map's name, and both have the map's label table. `trie` is the map's trie, as `Trie::build` returns it.
pub fn minimise(alloc: Global, map: &MapText, trie: &Trie) -> Result<Minimal, AllocError>
    requires version { trie.now.version ≡ map.now.version }
    requires settled { All (IsSettledLeaf (map_of map.now)) trie.now.leaves }
    requires undivided { All (IsUndivided (map_of map.now)) trie.now.leaves }
    // The list and the certificate are the map's minimal pair.
    ensures minimal { IfOk result (λ m. IsMinimalPair (map_of map.now) (list_of m.list)
        (certificate_of m.certificate)) }
    ensures cost { IfOk result (λ m. m.root_cost ≡ (claim_of (certificate_of m.certificate).root).cost) }
    // The list labels every address as the map does, and no shorter list does.
    ensures equivalent { IfOk result (λ m. IsEquivalent (list_of m.list) (map_of map.now)) }
    ensures count { IfOk result (λ m. length m.list.entries ≡ m.root_cost + 1) }
    ensures least { IfOk result (λ m. IsLeast (map_of map.now) (list_of m.list)) }
    // The certificate is accepted for the map and the list.
    ensures accepted { IfOk result (λ m. IsAccepted (map_of map.now) (list_of m.list) (certificate_of m.certificate)) }
    // The entries are in order of their first addresses. Of two with the same one, the shorter prefix is first.
    ensures order { IfOk result (λ m. HasListForm (list_of m.list)) }
{
    minimal_pair_is_accepted();
    map.labels.laws();
    let root = claimed(alloc, trie)?;
    let entries = entries_of(alloc, &root, map.version)?;
    let name = copy_name(alloc, &map.name)?;
    let list = list_with(map.version, name, map.labels.copy()?, entries);
    let labels = map.labels.copy()?;
    let certificate = Certificate::new(map.version, labels, root);
    let top = certificate.root();
    let root_cost = u64::from(top.claim().cost);
    Ok(Minimal {
        list,
        root_cost,
        certificate,
    })
}

/// Returns the list of `minimise`, made without a trie: a shortest prefix list that labels every address as the map
/// does, with the map's name and label table. The list depends only on the labels of addresses, so it is built from
/// runs of one label.
pub fn shortest(alloc: Global, map: MapText) -> Result<PrefixList, AllocError>
    // The list and a certificate that has a text are the map's minimal pair.
    ensures minimal { IfOk result (λ list. (c : CertificateModel) × IsMinimalPair (map_of map) (list_of list) c
        × HasTextForm c) }
    // The list labels every address as the map does, and no shorter list does.
    ensures equivalent { IfOk result (λ list. IsEquivalent (list_of list) (map_of map)) }
    ensures least { IfOk result (λ list. IsLeast (map_of map) (list_of list)) }
    // The entries are in order of their first addresses. Of two with the same one, the shorter prefix is first.
    ensures order { IfOk result (λ list. HasListForm (list_of list)) }
{
    minimal_pair_is_accepted();
    map.labels.laws();
    let runs = Runs::of_map(alloc, &map)?;
    // Frees their memory before the certificate is built.
    drop(map.statements);
    let root = built_of(alloc, runs.stretches)?;
    let items = entries_of(alloc, &root, map.version)?;
    Ok(list_with(map.version, map.name, map.labels, items))
}

/// Returns the compacted certificate of `minimise`, made without a trie, without the list and without the nodes of the
/// certificate that isn't compacted. Its `OpenedText` is the text of the certificate of `minimise`.
pub fn compact_certificate(alloc: Global, map: MapText) -> Result<Certificate, AllocError>
    // Opened, it is the certificate of the map's minimal pair. It is that certificate compacted.
    ensures { IfOk result (λ found. (l : ListModel) × (c : CertificateModel) × IsMinimalPair (map_of map) l c
        × HasTextForm c × IsOpening found c × (certificate_of found ≡ compact c)) }
{
    map.labels.laws();
    let stretches = Stretches::of_map(alloc, &map)?;
    // Frees their memory before the certificate is built.
    drop(map.statements);
    let root = built_of(alloc, stretches)?;
    Ok(Certificate::of_format(Format::Two, map.version, map.labels, root))
}

fn list_with(version: Version, name: Option<Name>, labels: Labels, entries: Entries) -> PrefixList
    requires versions { All (λ e. e.block.version ≡ version) entries }
    requires known { All (λ e. e.label.0 < length labels) entries }
    requires distinct { HasDistinctBlocks entries }
    ensures { list_of result ≡ record {
      version = version;
      name = name;
      prefixes = map (prefix_of labels) entries;
      table = labels;
    } }
{
    labels.laws();
    PrefixList {
        version,
        name,
        entries,
        labels,
    }
}

fn copy_name(alloc: Global, name: &Option<Name>) -> Result<Option<Name>, AllocError>
    ensures { IfOk result (λ copy. copy ≡ name.now) }
{
    match name {
        Some(name) => {
            let copy = Name::new(alloc, name.as_bytes())?;
            Ok(Some(copy))
        }
        None => Ok(None),
    }
}
