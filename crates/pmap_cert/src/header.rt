//! The header of a certificate.
ghost use Rattle.std.specs.Prelude.{◌≡◌, ◌≢◌, ◌++◌, List, MatchOption, option_map, ℕ};
ghost use Rattle.prefix_keys.specs.declared.version.Version.{Version};
ghost use Rattle.pmap_cert.specs.Format.{Format, format_number, header_of};
ghost use Rattle.pmap_cert.specs.Inner.{BeginsWithHeader, Finds, header_name};

use crate::format::Format;
use crate::node_line::last_number;
use prefix_keys::Version;

// The most labels that a table can have.
const MOST_LABELS: u64 = 65_536;

// Reads the part of a header before the number of labels, and returns the text after it.
fn name(text: &[u8]) -> Option<(Format, Version, &[u8])>
    ensures { MatchOption result
        ((format : Format) (version : Version) (rest : List ℕ) →
        text.now ≢ header_name (format_number format) version ++ rest)
        (λ x. text.now ≡ header_name (format_number x.0) x.1 ++ x.2.now) }
{
    if let Some(rest) = text.strip_prefix(b"flowlabel-cert 1 ipv4") {
        Some((Format::One, Version::V4, rest))
    } else if let Some(rest) = text.strip_prefix(b"flowlabel-cert 1 ipv6") {
        Some((Format::One, Version::V6, rest))
    } else if let Some(rest) = text.strip_prefix(b"flowlabel-cert 2 ipv4") {
        Some((Format::Two, Version::V4, rest))
    } else if let Some(rest) = text.strip_prefix(b"flowlabel-cert 2 ipv6") {
        Some((Format::Two, Version::V6, rest))
    } else {
        None
    }
}

/// Reads the header at the beginning of a text, and returns its format, its version and its number of labels, and the
/// text after its line.
pub fn read_header(text: &[u8]) -> Option<((Format, Version, u32), &[u8])>
    ensures { Finds (BeginsWithHeader text.now) (option_map (λ x. (header_of x.0, x.1.now)) result) }
{
    let (format, version, rest) = name(text)?;
    let (count, rest) = last_number(rest, MOST_LABELS + 1)?;
    Some(((format, version, count), rest))
}
