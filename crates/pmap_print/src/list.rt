//! The printed text of a prefix list.
ghost use Rattle.std.specs.Prelude.{◌≡◌, ◌++◌, ◌∷◌, [], IfOk};
ghost use Rattle.flow_io.specs.Sinks.{Pushes};
ghost use Rattle.pmap_cert.proofs.ReadLines.{name_lines};
ghost use Rattle.pmap_cert.specs.CertificateText.{text_of_lines};
ghost use Rattle.pmap_cert.specs.ListText.{entry_line, list_text};
ghost use Rattle.pmap_model.specs.PrefixList.{list_of, prefix_of};

use crate::fields::push_block;
use flow_io::{Printable, Sink, text_of};
use pmap_model::{Entries, Entry, Labels, Name, PrefixList, in_order, sorted_or};
use prefix_keys::Version;
use std::alloc::{AllocError, Global};
use std::marker::Model;

// Prints the line with the name, if there is one.
fn print_name<S: Sink>(out: &mut S, name: &Option<Name>) -> Result<(), S::Fault>
    ensures { Pushes S.sink S.began out.old out.new (text_of_lines (name_lines name.now)) result }
{
    if let Some(name) = name {
        out.push(b"map-name ")?;
        out.push(name.as_bytes())?;
        out.push(b"\n")?;
    }
    Ok(())
}

// Prints the line of an entry: its block and its label.
fn print_entry<S: Sink>(out: &mut S, entry: &Entry, labels: &Labels) -> Result<(), S::Fault>
    ensures { Pushes S.sink S.began out.old out.new
        (entry_line entry.now.block.version (prefix_of labels.now entry.now) ++ 10 ∷ []) result }
{
    push_block(out, &entry.block)?;
    out.push(b" ")?;
    out.push(labels.text(entry.label).unwrap_or(b""))?;
    out.push(b"\n")
}

/// The text of a prefix list, to be printed: a line with its name, if it has one, a line with its version, and the
/// entries in order of their first addresses. Of two entries with the same one, the shorter prefix is first.
#[derive(Drop)]
pub struct ListText<'a> {
    list: &'a PrefixList,
    // The entries in order, if they aren't in order in the list.
    sorted: Option<Entries>,
}

impl<'a> Model for ListText<'a> {
    ghost use Rattle.std.specs.Prelude.{List, ℕ, unwrap_or};
    ghost use Rattle.std.specs.List.Sorted.{IsNonDecreasingBy, IsPermutation};
    ghost use Rattle.pmap_cert.specs.ListText.{list_text};
    ghost use Rattle.pmap_model.specs.ListEntries.{rank_of};
    ghost use Rattle.pmap_model.specs.PrefixList.{list_of};

    ghost Value = { List ℕ };

    ghost view = { λ t. list_text (list_of t.list.now) };

    ghost invariant = { λ t. IsPermutation t.list.now.entries (unwrap_or t.sorted t.list.now.entries)
        × IsNonDecreasingBy (λ e. rank_of e.block) (unwrap_or t.sorted t.list.now.entries) };
}

impl<'a> ListText<'a> {
    /// Returns the text of a list, whose entries are sorted.
    ///
    /// # Errors
    /// If an allocation fails.
    pub fn new(alloc: Global, list: &'a PrefixList) -> Result<ListText<'a>, AllocError>
        ensures { IfOk result (λ t. t ≡ list_text (list_of list.now)) }
    {
        let sorted = in_order(alloc, &list.entries)?;
        Ok(ListText { list, sorted })
    }
}

impl Printable for ListText<'_> {
    ghost use Rattle.std.specs.Prelude.{◌≡◌, ⊤};

    ghost is_whole = { λ _. ⊤ };

    ghost is_text = { λ t text. text ≡ t };

    fn print<S: Sink>(&self, out: &mut S) -> Result<(), S::Fault> {
        let list = self.list;
        print_name(out, &list.name)?;
        out.push(match list.version {
            Version::V4 => b"mode ipv4\n",
            Version::V6 => b"mode ipv6\n",
        })?;
        let entries = sorted_or(&self.sorted, &list.entries);
        for index in 0..entries.len() {
            print_entry(out, &entries.at(index), &list.labels)?;
        }
        Ok(())
    }
}

/// Returns the text of a prefix list, as [`ListText`] prints it.
pub fn print_list(alloc: Global, list: &PrefixList) -> Result<Vec<u8>, AllocError>
    ensures { IfOk result (λ out. out.items ≡ list_text (list_of list.now)) }
{
    let text = ListText::new(alloc, list)?;
    text_of(alloc, &text)
}
