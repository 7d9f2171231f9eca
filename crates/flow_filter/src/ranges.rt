ghost use Rattle.std.specs.Prelude.{◌≡◌};
ghost use Rattle.flow_filter.specs.Filters.{AreAscending, in_ranges};

/// The numbers from `low` to `high`, both included.
#[derive(Clone, Copy)]
pub struct Range {
    pub low: u128,
    pub high: u128,
}

/// Sorts the ranges by their lower ends, and extends each to the highest end of the ranges up to it. The same numbers
/// are in one of them as before.
pub fn sort_ranges(ranges: &mut Vec<Range>)
    ensures same { in_ranges ranges.new.items ≡ in_ranges ranges.old.items }
    ensures ascending { AreAscending ranges.new.items }
{
    ranges.sort_unstable_by_key(|range| range.low);
    for at in 1..ranges.len() {
        ranges[at].high = ranges[at].high.max(ranges[at - 1].high);
    }
}

/// Returns `true` if the number is in one of the ranges.
pub fn covers(ranges: &[Range], number: u128) -> bool
    requires { AreAscending ranges.now }
    ensures { result ≡ in_ranges ranges.now number }
{
    let begun = ranges.partition_point(|range| range.low <= number);
    begun > 0 && number <= ranges[begun - 1].high
}
