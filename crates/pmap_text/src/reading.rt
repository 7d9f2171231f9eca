ghost use Rattle.std.specs.Prelude.{◌≡◌, ◌<◌, ◌≤◌, ◌++◌, ◌∷◌, [], Some, true, false, ◌⊎◌, length};
ghost use Rattle.std.specs.Prelude.{slice_get, unwrap_or, IsTrue, IfOk, IfErr, IfSome, OnOk, OnErr};
ghost use Rattle.pmap_model.specs.Label.{has_label, is_label as is_label_text, with_label};
ghost use Rattle.pmap_text.specs.Inner.{HasDistinctKeys, IsFirstRepeat, list_from, map_from};
ghost use Rattle.pmap_model.specs.MapText.{map_of, text_at};
ghost use Rattle.pmap_model.specs.PrefixList.{list_of};
ghost use Rattle.pmap_text.specs.Reading.{Earlier, no_lines, NoMemory, TooMany, has_room, has_prefix as has_prefix_of};
ghost use Rattle.pmap_text.specs.declared.reading.TheConstants.{LABEL_LIMIT, MAPPING_LIMIT};

use crate::fault::MapFaultKind;
use crate::reading::declarations::Declarations;
use crate::reading::recent::Recent;
use crate::reading::repeats::{first_repeat, has_block};
use pmap_model::{
    Entries, Entry, KeyHashing, LabelId, Labels, MapText, Name, PrefixList, Statement, Statements,
};
use prefix_keys::{Block, Span, Version};
use std::alloc::{AllocError, Global};
use std::marker::Model;

pub mod declarations;
pub mod form;
pub mod in_version;
pub mod leading;
mod line;
pub mod lines;
pub mod recent;
pub mod repeats;
pub mod texts;

/// The maximum number of mappings of a map text, and of entries of a list text.
pub const MAPPING_LIMIT: usize = 1_000_000;

/// The maximum number of label texts of a text.
pub const LABEL_LIMIT: usize = 65_535;

// The label of addresses without a mapping if the text has no default.
const UNKNOWN: &[u8] = b"UNKNOWN";

/// The content of the lines so far.
#[derive(Drop)]
pub struct Reading {
    alloc: Global,
    version: Option<Version>,
    name: Option<Name>,
    declared: Declarations,
    default: Option<LabelId>,
    statements: Statements,
    entries: Entries,
    labels: Labels,
    recent: Recent,
}

impl Model for Reading {
    ghost use Rattle.pmap_text.specs.Reading.{Earlier};
    ghost use Rattle.pmap_text.specs.Progress.{IsProgress, progress_of};

    ghost Value = { Earlier };

    ghost view = { λ r. progress_of r.version r.name r.declared r.default r.statements r.entries r.labels };

    ghost invariant = { λ r. IsProgress r.version r.default r.statements r.entries r.labels };
}

// Returns the number of a text in the table. The search starts where the text was last found.
#[inline(always)]
fn known_number(labels: &Labels, recent: &mut Recent, text: &[u8]) -> Option<LabelId>
    ensures label { IfSome result (λ id. IsTrue (is_label_text text.now)) }
    ensures known { IfSome result (λ id. has_label labels.now text.now ≡ true) }
    ensures text { IfSome result (λ id. slice_get labels.now id.0 ≡ Some text.now) }
{
    let guess = recent.guess(text);
    match labels.text(guess) {
        Some(known) if known == text => return Some(guess),
        _ => {}
    }
    let id = labels.id_of(text)?;
    recent.remember(text, id);
    Some(id)
}

// Returns the number of a text, which is added to the table if it isn't there, and remembers it.
#[inline(always)]
fn number_for(
    labels: &mut Labels,
    recent: &mut Recent,
    text: &[u8],
) -> Result<LabelId, MapFaultKind>
    requires label { IsTrue (is_label_text text.now) }
    requires limit { length labels.old ≤ LABEL_LIMIT }
    ensures room { OnOk result (has_room labels.old text.now ≡ true) }
    ensures ok { OnOk result (labels.new ≡ with_label labels.old text.now) }
    ensures text { IfOk result (λ id. slice_get labels.new id.0 ≡ Some text.now) }
    ensures limit { length labels.new ≤ LABEL_LIMIT }
    ensures same { OnErr result (labels.new ≡ labels.old) }
    ensures err { IfErr result (λ kind. ((kind ≡ NoMemory) × (has_room labels.old text.now ≡ true))
        ⊎ ((kind ≡ TooMany) × (has_room labels.old text.now ≡ false))) }
{
    if labels.len() < LABEL_LIMIT || labels.contains(text) {
        let Ok(id) = labels.add_new(text) else {
            return Err(MapFaultKind::NoMemory);
        };
        recent.remember(text, id);
        Ok(id)
    } else {
        Err(MapFaultKind::TooMany)
    }
}

impl Reading {
    /// Returns a reading of no lines. Labels are hashed with the numbers of `hashing`.
    pub fn new(alloc: Global, hashing: KeyHashing) -> Reading
        ensures { result ≡ no_lines }
    {
        Reading {
            alloc,
            version: None,
            name: None,
            declared: Declarations::new(alloc, hashing),
            default: None,
            statements: Statements::new(alloc),
            entries: Entries::new(alloc),
            labels: Labels::with_hashing(alloc, hashing),
            recent: Recent::new(),
        }
    }

    /// Returns the number of entries.
    pub fn entry_count(&self) -> usize
        ensures { result ≡ length self.now.prefixes }
    {
        self.entries.len()
    }

    /// Returns `true` if an entry has this block. The search visits each entry.
    pub fn has_block(&self, block: &Block) -> bool
        ensures { result ≡ has_prefix_of self.now.prefixes block.now.value block.now.len }
    {
        has_block(&self.entries, block)
    }

    /// Returns the index of the first entry with the block of an earlier one.
    pub fn first_repeat(&self) -> Result<Option<usize>, AllocError>
        ensures { IfOk result (IsFirstRepeat self.now.prefixes) }
    {
        first_repeat(self.alloc, &self.entries)
    }

    /// Returns the version of the text at a line whose first address is of the version `own`. That version decides if
    /// nothing decided before.
    pub fn version_at(&self, own: Version) -> Version
        ensures { result ≡ unwrap_or self.now.version own }
    {
        self.version.unwrap_or(own)
    }

    /// Adds a mapping of the text's version. Its version decides that of the text if nothing decided before.
    #[inline(always)]
    pub fn add_statement(&mut self, span: Span, label: LabelId) -> Result<(), MapFaultKind>
        requires version { unwrap_or self.old.version span.low.version ≡ span.low.version }
        requires label { label.0 < length self.old.table }
        requires room { length self.old.mappings < MAPPING_LIMIT }
        ensures ok { OnOk result (self.new ≡ record self.old {
          version = Some span.low.version;
          mappings = self.old.mappings ++ record {
            low = span.low.value;
            high = span.high.value;
            label = text_at self.old.table label.0;
          } ∷ [];
        }) }
        ensures err { IfErr result (λ kind. kind ≡ NoMemory) }
        ensures kept { OnErr result (self.new.prefixes ≡ self.old.prefixes) }
    {
        self.version = Some(span.low.version);
        let Ok(()) = self.statements.push_inline(Statement { span, label }) else {
            return Err(MapFaultKind::NoMemory);
        };
        Ok(())
    }

    /// Adds an entry of the text's version. Its version decides that of the text if nothing decided before. An earlier
    /// entry may have the same block.
    #[inline(always)]
    pub fn add_entry(&mut self, block: Block, label: LabelId) -> Result<(), MapFaultKind>
        requires version { unwrap_or self.old.version block.version ≡ block.version }
        requires label { label.0 < length self.old.table }
        requires room { length self.old.prefixes < MAPPING_LIMIT }
        ensures ok { OnOk result (self.new ≡ record self.old {
          version = Some block.version;
          prefixes = self.old.prefixes ++ record {
            start = block.value;
            bits = block.len;
            label = text_at self.old.table label.0;
          } ∷ [];
        }) }
        ensures err { IfErr result (λ kind. kind ≡ NoMemory) }
        ensures kept { OnErr result (self.new.prefixes ≡ self.old.prefixes) }
    {
        self.version = Some(block.version);
        let Ok(()) = self.entries.push(Entry { block, label }) else {
            return Err(MapFaultKind::NoMemory);
        };
        Ok(())
    }

    /// Returns the map of the lines so far.
    pub fn into_map(self) -> Result<MapText, AllocError>
        ensures { IfOk result (λ map. map_of map ≡ map_from self) }
    {
        let Reading {
            version,
            name,
            default,
            statements,
            mut labels,
            ..
        } = self;
        let default = match default {
            Some(label) => label,
            None => labels.add(UNKNOWN)?,
        };
        Ok(MapText {
            version: version.unwrap_or(Version::V4),
            name,
            default,
            statements,
            labels,
        })
    }

    /// Returns the list of the lines so far. Their entries must have distinct blocks.
    pub fn into_list(self) -> PrefixList
        requires { HasDistinctKeys self.prefixes }
        ensures list { list_of result ≡ list_from self }
        ensures limit { length result.entries ≤ MAPPING_LIMIT }
    {
        let Reading {
            version,
            name,
            entries,
            labels,
            ..
        } = self;
        let count = entries.len();
        prove!(count <= MAPPING_LIMIT);
        PrefixList {
            version: version.unwrap_or(Version::V4),
            name,
            entries,
            labels,
        }
    }
}
