ghost use Rattle.std.specs.Prelude.{◌≡◌};

use flow_rows::Number;

/// An option that states a condition on rows.
#[derive(Clone, Copy, Debug, PartialEq, Eq)]
pub enum FilterOption {
    /// `--protocol`, or the name of another number: numbers and ranges, separated by commas, up to its maximum.
    Number(Number),
    /// `--saddress`: addresses and blocks, separated by commas.
    SourceAddress,
    /// `--daddress`: like `--saddress`.
    DestinationAddress,
    /// `--packets`: a number, a range, or a number followed by `-` for all numbers from it on, below 2^64.
    Packets,
    /// `--bytes`: like `--packets`.
    Bytes,
    /// `--src-label`: a label.
    SourceLabel,
    /// `--dst-label`: a label.
    DestinationLabel,
    /// `--any-label`: a label.
    AnyLabel,
}

/// The options of `flowlabel`, in the order in which their texts are read.
pub const ALL_OPTIONS: [FilterOption; 10] = [
    FilterOption::Number(Number::Protocol),
    FilterOption::Number(Number::SourcePort),
    FilterOption::Number(Number::DestinationPort),
    FilterOption::SourceAddress,
    FilterOption::DestinationAddress,
    FilterOption::Packets,
    FilterOption::Bytes,
    FilterOption::SourceLabel,
    FilterOption::DestinationLabel,
    FilterOption::AnyLabel,
];

/// All options: `ALL_OPTIONS`, and the numbers that are no columns of rows.
pub const MANY_OPTIONS: [FilterOption; 15] = [
    FilterOption::Number(Number::Protocol),
    FilterOption::Number(Number::SourcePort),
    FilterOption::Number(Number::DestinationPort),
    FilterOption::SourceAddress,
    FilterOption::DestinationAddress,
    FilterOption::Packets,
    FilterOption::Bytes,
    FilterOption::SourceLabel,
    FilterOption::DestinationLabel,
    FilterOption::AnyLabel,
    FilterOption::Number(Number::InputInterface),
    FilterOption::Number(Number::OutputInterface),
    FilterOption::Number(Number::Vlan),
    FilterOption::Number(Number::SourceAs),
    FilterOption::Number(Number::DestinationAs),
];

impl FilterOption {
    ghost use Rattle.flow_filter.specs.Options.{is_list, is_on_labels, name_of};

    /// Returns the name of the option.
    pub fn name(self) -> &'static str
        ensures { result.now ≡ name_of self }
    {
        match self {
            FilterOption::Number(Number::Protocol) => "protocol",
            FilterOption::Number(number) => number.name(),
            FilterOption::SourceAddress => "saddress",
            FilterOption::DestinationAddress => "daddress",
            FilterOption::Packets => "packets",
            FilterOption::Bytes => "bytes",
            FilterOption::SourceLabel => "src-label",
            FilterOption::DestinationLabel => "dst-label",
            FilterOption::AnyLabel => "any-label",
        }
    }

    /// Whether the text is a label.
    pub(crate) fn is_on_labels(self) -> bool
        ensures { result ≡ is_on_labels self }
    {
        matches!(
            self,
            FilterOption::SourceLabel | FilterOption::DestinationLabel | FilterOption::AnyLabel
        )
    }

    /// Whether the text is a list of items.
    pub(crate) fn is_list(self) -> bool
        ensures { result ≡ is_list self }
    {
        !self.is_on_labels() && !matches!(self, FilterOption::Packets | FilterOption::Bytes)
    }
}
