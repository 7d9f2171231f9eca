//! The lines of nodes, each read in one pass over its bytes.
ghost use Rattle.std.specs.Prelude.{◌≡◌, ◌^◌, ◌<◌, ◌≤◌, IfOk, map, option_map};
ghost use Rattle.pmap_cert.specs.Format.{format_number};
ghost use Rattle.pmap_cert.specs.Inner.{BeginsWithBits, BeginsWithChain, BeginsWithClaim};
ghost use Rattle.pmap_cert.specs.Inner.{BeginsWithLast, BeginsWithLine, BeginsWithNumber};
ghost use Rattle.pmap_cert.specs.Inner.{BeginsWithSet, Finds, after_byte as after_byte_of};
ghost use Rattle.pmap_cert.specs.Packed.{bits_in, line_of};

use crate::format::Format;
use crate::node::{Claim, Node};
use crate::path::Path;
use pmap_model::{LabelId, Labels};
use std::alloc::{AllocError, Global};

// The number of costs that a node can claim: a cost has 32 bits.
const COSTS: u64 = 1 << 32;

/// The limits of node lines: the format, the number of bits of an address, and the label table.
#[derive(Clone, Copy)]
pub struct LineLimits<'a> {
    pub format: Format,
    pub width: u32,
    pub labels: &'a Labels,
    ghost narrow: { width ≤ 128 },
}

/// The memory for the set and the bits of the node that was read last.
#[derive(Drop)]
pub struct NodeBuffer {
    set: Vec<LabelId>,
    path: Path,
}

impl NodeBuffer {
    /// Constructs the set and the bits before the first line, which are empty.
    pub fn new(alloc: Global) -> NodeBuffer {
        NodeBuffer {
            set: Vec::new(alloc),
            path: Path { value: 0, count: 0 },
        }
    }
}

// Returns what follows this byte, if the text begins with it.
#[inline(always)]
fn after_byte(text: &[u8], byte: u8) -> Option<&[u8]>
    ensures { option_map (λ rest. rest.now) result ≡ after_byte_of byte text.now }
{
    match text {
        [first, rest @ ..] if *first == byte => Some(rest),
        _ => None,
    }
}

// Reads a space and a number below the bound, and returns the number and the text after it.
#[inline(always)]
fn number_word(text: &[u8], bound: u64) -> Option<(u32, &[u8])>
    requires { bound ≤ 2 ^ 32 }
    ensures { Finds (BeginsWithNumber bound text.now) (option_map (λ x. (x.0, x.1.now)) result) }
{
    let digits = after_byte(text, b' ')?;
    let mut number = 0u64;
    for (at, byte) in digits.iter().enumerate() {
        if number >= bound {
            return None;
        }
        if !byte.is_ascii_digit() {
            // A number has a digit, and no zero before others.
            return if at == 0 || (at > 1 && digits[0] == b'0') {
                None
            } else {
                Some((number as u32, &digits[at..]))
            };
        }
        number = number * 10 + u64::from(*byte - b'0');
    }
    None
}

// Reads a space and 1 to `most` bits, and returns the bits and the text after them.
fn bits_word(text: &[u8], most: u32) -> Option<(Path, &[u8])>
    requires { most ≤ 128 }
    ensures { Finds (BeginsWithBits most text.now) (option_map (λ x. (bits_in x.0, x.1.now)) result) }
{
    let digits = after_byte(text, b' ')?;
    let mut path = Path { value: 0, count: 0 };
    for (at, byte) in digits.iter().enumerate() {
        if *byte != b'0' && *byte != b'1' {
            return if at == 0 {
                None
            } else {
                Some((path, &digits[at..]))
            };
        }
        if at >= most as usize {
            return None;
        }
        path = path.with(*byte == b'1');
    }
    None
}

// Reads a set of ascending numbers to the end of the line, stores it, and returns the text after the line.
#[inline(always)]
fn set_to_end<'a>(
    set: &mut Vec<LabelId>,
    text: &'a [u8],
    count: u64,
) -> Result<Option<&'a [u8]>, AllocError>
    requires { count ≤ 2 ^ 32 }
    ensures { IfOk result (λ found. Finds (BeginsWithSet count 0 text.entry.now)
        (option_map (λ rest. (map (λ id. id.0) set.new.items, rest.now)) found)) }
{
    set.clear();
    let mut rest = text;
    let mut low = 0u64;
    loop {
        if let Some(after) = after_byte(rest, b'\n') {
            return Ok(Some(after));
        }
        let Some((number, after)) = number_word(rest, count) else {
            return Ok(None);
        };
        if u64::from(number) < low {
            return Ok(None);
        }
        set.push(LabelId(number))?;
        low = u64::from(number) + 1;
        rest = after;
    }
}

/// Reads a space, a number below the bound and a line feed, and returns the number and the text after the line.
#[inline(always)]
pub fn last_number(text: &[u8], bound: u64) -> Option<(u32, &[u8])>
    requires { bound ≤ 2 ^ 32 }
    ensures { Finds (BeginsWithLast bound text.now) (option_map (λ x. (x.0, x.1.now)) result) }
{
    let (number, rest) = number_word(text, bound)?;
    let rest = after_byte(rest, b'\n')?;
    Some((number, rest))
}

// Reads a number below the bound and a set, stores the set, and returns the number and the text after the line.
#[inline(always)]
fn claim<'a>(
    set: &mut Vec<LabelId>,
    text: &'a [u8],
    bound: u64,
    count: u64,
) -> Result<Option<(u32, &'a [u8])>, AllocError>
    requires bound { bound ≤ 2 ^ 32 }
    requires count { count ≤ 2 ^ 32 }
    ensures { IfOk result (λ found. Finds (BeginsWithClaim bound count text.entry.now)
        (option_map (λ x. ((x.0, map (λ id. id.0) set.new.items), x.1.now)) found)) }
{
    let Some((number, rest)) = number_word(text, bound) else {
        return Ok(None);
    };
    match set_to_end(set, rest, count)? {
        Some(rest) => Ok(Some((number, rest))),
        None => Ok(None),
    }
}

// Reads a chain's line after its letter, stores bits and set, and returns cost, side label and the text after the line.
fn chain<'a>(
    buffer: &mut NodeBuffer,
    text: &'a [u8],
    most: u32,
    count: u64,
) -> Result<Option<((u32, LabelId), &'a [u8])>, AllocError>
    requires few { most ≤ 128 }
    requires count { count ≤ 2 ^ 32 }
    ensures { IfOk result (λ found. Finds (BeginsWithChain most count text.entry.now)
        (option_map
        (λ x. ((x.0.0, (bits_in buffer.new.path, (x.0.1.0, map (λ id. id.0) buffer.new.set.items))), x.1.now))
        found)) }
{
    let Some((cost, rest)) = number_word(text, COSTS) else {
        return Ok(None);
    };
    let Some((path, rest)) = bits_word(rest, most) else {
        return Ok(None);
    };
    buffer.path = path;
    match claim(&mut buffer.set, rest, count, count)? {
        Some((side, rest)) => Ok(Some(((cost, LabelId(side)), rest))),
        None => Ok(None),
    }
}

/// Reads the node line at the beginning of a text, and returns its node with the text after it, or `None` if it is
/// malformed for `count` labels. `buffer` gets the node's set and bits.
#[inline(always)]
pub fn node_line<'a, 's>(
    buffer: &'s mut NodeBuffer,
    limits: &LineLimits,
    text: &'a [u8],
    count: u64,
) -> Result<Option<(Node<'s>, &'a [u8])>, AllocError>
    requires { count ≤ 2 ^ 32 }
    ensures { IfOk result (λ found. Finds
        (BeginsWithLine (format_number limits.now.format) limits.now.width count text.entry.now)
        (option_map (λ x. (line_of x.0, x.1.now)) found)) }
{
    if let Some(rest) = after_byte(text, b'l') {
        match last_number(rest, count) {
            Some((number, rest)) => Ok(Some((Node::Leaf(LabelId(number)), rest))),
            None => Ok(None),
        }
    } else if let Some(rest) = after_byte(text, b'n') {
        match claim(&mut buffer.set, rest, COSTS, count)? {
            Some((cost, rest)) => {
                let set = buffer.set.as_slice();
                Ok(Some((Node::Inner(Claim { cost, set }), rest)))
            }
            None => Ok(None),
        }
    } else if let (Format::Two, Some(rest)) = (limits.format, after_byte(text, b'c')) {
        match chain(buffer, rest, limits.width, count)? {
            Some(((cost, side), rest)) => {
                let set = buffer.set.as_slice();
                let node = Node::Chain {
                    claim: Claim { cost, set },
                    path: &buffer.path,
                    side,
                };
                Ok(Some((node, rest)))
            }
            None => Ok(None),
        }
    } else {
        Ok(None)
    }
}
