ghost use Rattle.std.specs.Prelude.{◌≡◌, ◌++◌, ◌∷◌, [], IfErr, IfOk, Ok, OnOk, Some, false, length, true};
ghost use Rattle.std.specs.Option.{option_eq};
ghost use Rattle.std.specs.Str.{bytes_eq};
ghost use Rattle.label_lookup.specs.Labelling.{label_where, labelling_borrowed};
ghost use Rattle.flow_filter.specs.Condition.{filter_among, filter_of, is_malformed, meets_option};
ghost use Rattle.flow_filter.specs.Condition.{condition_needs_labels, row_passes};
ghost use Rattle.flow_filter.specs.Filters.{IsFault, IsRefused, option_texts, tested_number, texts_given};
ghost use Rattle.flow_filter.specs.Options.{is_on_labels};
ghost use Rattle.flow_filter.specs.declared.option.TheConstants.{ALL_OPTIONS};

use crate::fault::{FilterFault, FilterFaultKind};
use crate::items::{mapped_number, read_ranges};
use crate::option::{ALL_OPTIONS, FilterOption};
use crate::ranges::{Range, covers};
use flow_rows::Row;
use label_lookup::{Labeller, label_row_under};
use prefix_keys::Addr;
use std::alloc::Global;
use std::marker::Model;

/// The text of each option given.
#[derive(Clone, Copy)]
pub struct FilterWords<'a> {
    /// The texts of `ALL_OPTIONS`, in this order.
    pub texts: [Option<&'a str>; 10],
}

/// Conditions on flow rows, one for each option given. A row passes if it meets all of them.
#[derive(Drop)]
pub struct Filter<'a> {
    parts: Vec<Part<'a>>,
}

impl<'a> Model for Filter<'a> {
    ghost use Rattle.flow_filter.specs.Condition.{Condition};

    ghost Value = { Condition };

    ghost view = { λ f. f.parts.items };
}

// A part of a filter: an option with its text, which is well formed.
#[derive(Drop)]
struct Part<'a> {
    option: FilterOption,
    text: &'a str,
    // The numbers of the items of the text, unless it is a label.
    ranges: Vec<Range>,
}

impl<'a> Model for Part<'a> {
    ghost use Rattle.flow_filter.specs.Condition.{Part as Given};
    ghost use Rattle.flow_filter.specs.Filters.{HasRanges};

    ghost Value = { Given };

    ghost view = { λ p. (p.option, p.text.now) };

    ghost invariant = { λ p. HasRanges (p.option, p.text.now) p.ranges.items };
}

// Returns the number that an option compares. That of an address is its number as an IPv6 address.
fn number_of(option: FilterOption, row: &Row<'_>) -> u128
    ensures { result ≡ tested_number option row.now }
{
    match option {
        FilterOption::Number(number) => u128::from(row.number(number)),
        FilterOption::SourceAddress => mapped_number(row.src()),
        FilterOption::DestinationAddress => mapped_number(row.dst()),
        FilterOption::Packets => u128::from(row.packets()),
        FilterOption::Bytes => u128::from(row.octets()),
        _ => 0,
    }
}

// Returns `true` if the address has this label.
fn has_label<L: Labeller>(label: &str, labeller: Option<&L>, addr: Addr) -> bool
    ensures { result ≡ option_eq bytes_eq
        (label_where (labelling_borrowed L.version_of L.label labeller.entry) (addr.version, addr.value))
        (Some label.now) }
{
    label_row_under(labeller, addr) == Some(label.as_bytes())
}

// Reads the text of an option, and appends the part.
fn add_part<'a>(
    alloc: Global,
    option: FilterOption,
    text: &'a str,
    parts: &mut Vec<Part<'a>>,
) -> Result<(), FilterFaultKind>
    ensures ok { OnOk result ((parts.new.items ≡ parts.old.items ++ (option, text.entry.now) ∷ [])
        × (is_malformed (option, text.entry.now) ≡ false)) }
    ensures err { IfErr result (IsRefused (option, text.entry.now)) }
{
    let ranges = read_ranges(alloc, option, text.as_bytes())?;
    let part = Part {
        option,
        text,
        ranges,
    };
    parts.push(part).map_err(|_| FilterFaultKind::NoMemory)
}

impl<'a> Part<'a> {
    // Whether the row meets the condition that the option states. Without a labeller no address has a label.
    #[inline(never)]
    fn meets<L: Labeller>(&self, row: &Row<'_>, labeller: Option<&L>) -> bool
        ensures { result
            ≡ meets_option (label_where (labelling_borrowed L.version_of L.label labeller.entry)) row.now self.now }
    {
        if self.option.is_on_labels() {
            return self.meets_label(row, labeller);
        }
        let number = number_of(self.option, row);
        covers(self.ranges.as_slice(), number)
    }

    // Whether an address of the row has the label. Out of line, so that `meets` needs little of the stack.
    #[inline(never)]
    fn meets_label<L: Labeller>(&self, row: &Row<'_>, labeller: Option<&L>) -> bool
        requires { is_on_labels self.now.0 ≡ true }
        ensures { result
            ≡ meets_option (label_where (labelling_borrowed L.version_of L.label labeller.entry)) row.now self.now }
    {
        match self.option {
            FilterOption::SourceLabel => has_label(self.text, labeller, row.src()),
            FilterOption::DestinationLabel => has_label(self.text, labeller, row.dst()),
            _ => {
                has_label(self.text, labeller, row.src())
                    || has_label(self.text, labeller, row.dst())
            }
        }
    }
}

impl<'a> Filter<'a> {
    /// Reads the conditions from the texts of the options.
    ///
    /// # Errors
    ///
    /// Returns the fault of the first option, in their order, whose text is malformed. If an allocation fails, returns
    /// `NoMemory` with the option that was being read.
    pub fn read(alloc: Global, words: &FilterWords<'a>) -> Result<Filter<'a>, FilterFault>
        ensures ok { IfOk result (λ filter. filter_of (option_texts words.now) ≡ Ok filter) }
        ensures err { IfErr result (IsFault ALL_OPTIONS (option_texts words.now)) }
    {
        Filter::read_among(alloc, &ALL_OPTIONS, &words.texts)
    }

    /// Reads the conditions from the texts of these options, such as those of `MANY_OPTIONS`.
    ///
    /// # Errors
    ///
    /// As [`Filter::read`].
    pub fn read_among(
        alloc: Global,
        options: &[FilterOption],
        texts: &[Option<&'a str>],
    ) -> Result<Filter<'a>, FilterFault>
        requires { length options.now ≡ length texts.now }
        ensures ok { IfOk result (λ filter. filter_among options.now (texts_given texts.now) ≡ Ok filter) }
        ensures err { IfErr result (IsFault options.now (texts_given texts.now)) }
    {
        let mut parts = Vec::new(alloc);
        for (at, option) in options.iter().enumerate() {
            let Some(text) = texts[at] else {
                continue;
            };
            if let Err(kind) = add_part(alloc, *option, text, &mut parts) {
                let option = *option;
                return Err(FilterFault { option, kind });
            }
        }
        Ok(Filter { parts })
    }

    /// Returns `true` if the row meets each condition given. Without a labeller no address has a label. Inlined, so
    /// that a filter without conditions costs no call.
    #[inline(always)]
    pub fn passes<L: Labeller>(&self, row: &Row<'_>, labeller: Option<&L>) -> bool
        ensures { result ≡ row_passes self.now
            (label_where (labelling_borrowed L.version_of L.label labeller.entry)) row.now }
    {
        self.parts.iter().all(|part| part.meets(row, labeller))
    }

    /// Whether a condition on labels is given, which needs a map or a list.
    pub fn needs_map(&self) -> bool
        ensures { result ≡ condition_needs_labels self.now }
    {
        self.parts.iter().any(|part| part.option.is_on_labels())
    }
}
