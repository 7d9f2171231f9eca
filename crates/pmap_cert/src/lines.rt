ghost use Rattle.std.specs.Prelude.{◌≡◌, Err, IfErr, IfOk, Ok, option_map};
ghost use Rattle.pmap_cert.specs.Format.{header_of};
ghost use Rattle.pmap_cert.specs.FormatReading.{fault_at, format_header_at, is_ended, line_from, start_of};
ghost use Rattle.pmap_cert.specs.NextNode.{IsNextNode};

use crate::fault::{CertFault, CertFaultKind};
use crate::format::Format;
use crate::header::read_header;
use crate::node::Node;
use crate::node_line::{LineLimits, NodeBuffer, node_line};
use prefix_keys::{Version, find_byte};
use std::marker::Model;

/// The rest of a text, and the number of lines read so far.
#[derive(Drop)]
pub struct Lines<'a> {
    rest: &'a [u8],
    number: u64,
}

impl<'a> Model for Lines<'a> {
    ghost use Rattle.std.specs.Prelude.{◌+◌, ◌^◌, ◌≤◌, length};
    ghost use Rattle.pmap_cert.specs.FormatReading.{Place, pieces_of};

    ghost Value = { Place };

    ghost view = { λ l. record { number = l.number; pieces = pieces_of l.rest.now } };

    ghost invariant = { λ l. l.number + length l.rest.now ≤ 2 ^ 63 };
}

impl<'a> Lines<'a> {
    /// Starts at the first line of a text.
    pub fn new(text: &'a [u8]) -> Lines<'a>
        ensures { result ≡ start_of text.now }
    {
        Lines {
            rest: text,
            number: 0,
        }
    }

    /// Returns the next line without its line feed, and the lines that follow, or `None` if no line feed is left.
    pub fn next(&self) -> Option<(&'a [u8], Lines<'a>)>
        ensures { option_map (λ x. (x.0.now, x.1)) result ≡ line_from self.now.number self.now.pieces }
    {
        let end = find_byte(self.rest, b'\n')?;
        let after = Lines {
            rest: &self.rest[end + 1..],
            number: self.number + 1,
        };
        Some((&self.rest[..end], after))
    }

    /// Reads the header, and returns its format, its version and its number of labels with the lines that follow, or a
    /// `BadHeader` fault.
    pub fn header(&self) -> Result<((Format, Version, u32), Lines<'a>), CertFault>
        ensures ok { IfOk result (λ x. format_header_at self.now ≡ Ok (header_of x.0, x.1)) }
        ensures err { IfErr result (λ fault. format_header_at self.now ≡ Err fault) }
    {
        match read_header(self.rest) {
            Some((header, rest)) => {
                let after = Lines {
                    rest,
                    number: self.number + 1,
                };
                Ok((header, after))
            }
            None => Err(self.fault(CertFaultKind::BadHeader)),
        }
    }

    /// Reads the next line of a node and moves past it. `buffer` gets the node's set and bits.
    #[inline(always)]
    pub fn next_node<'s>(
        &mut self,
        buffer: &'s mut NodeBuffer,
        limits: &LineLimits,
    ) -> Result<Node<'s>, CertFault>
        ensures { IsNextNode limits.now self.old self.new result }
    {
        limits.labels.laws();
        let count = limits.labels.len() as u64;
        match node_line(buffer, limits, self.rest, count)? {
            Some((node, rest)) => {
                *self = Lines {
                    rest,
                    number: self.number + 1,
                };
                Ok(node)
            }
            None if self.is_ended() => Err(self.fault(CertFaultKind::NodesMissing)),
            None => Err(self.fault(CertFaultKind::BadNode)),
        }
    }

    /// Returns whether the text is at its end.
    pub fn is_ended(&self) -> bool
        ensures { result ≡ is_ended self.now.pieces }
    {
        self.rest.is_empty()
    }

    /// Returns a fault of this kind in the next line.
    pub fn fault(&self, kind: CertFaultKind) -> CertFault
        ensures { result ≡ fault_at self.now kind }
    {
        CertFault {
            kind,
            line: self.number + 1,
        }
    }
}
