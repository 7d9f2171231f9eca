//! Texts in pieces, each of which can be freed as soon as its lines are read.
ghost use Rattle.std.specs.Prelude.{◌≡◌, ◌<◌, ◌^◌, ◌++◌, [], length, IfOk};
ghost use Rattle.pmap_text.specs.Inner.{AreEnded, text_in};

use memchr::memrchr;
use std::alloc::{AllocError, Global};
use std::marker::Model;

// A piece ends at the last line feed of the bytes with which it has this length or more, 64 KB.
const PIECE: usize = 65_536;

// The number of bytes for which a piece has room, 128 KB. It doesn't grow if at most 64 KB are added at a time. glibc's
// `malloc` maps a block of this size, and unmaps it when it is freed. From then on it puts blocks of up to this size
// into its heap, where they grow by copies, so a piece isn't larger.
const ROOM: usize = 131_072;

// The length from which on a text is long, 4 MB. Since each piece takes time to map and to unmap, later pieces are
// larger. A heap that is larger by such a piece is then little beside the text.
const LONG: usize = 4_194_304;

// Like `PIECE`, for pieces that end when the text is long, 256 KB.
const LONG_PIECE: usize = 262_144;

// Like `ROOM`, for pieces that begin when the text is long. These don't grow if 64 KB are added at a time, and if no
// line is longer than 4 KB.
const LONG_ROOM: usize = 266_240;

/// A text in pieces, all of which end with a line feed but for the last.
#[derive(Drop)]
pub struct Pieces {
    alloc: Global,
    len: usize,
    ended: Vec<Vec<u8>>,
    last: Vec<u8>,
}

impl Model for Pieces {
    ghost use Rattle.std.specs.Prelude.{ℕ, List, length, ◌≡◌};
    ghost use Rattle.pmap_text.specs.Inner.{AreEnded, text_in};

    ghost Value = { List ℕ };

    ghost view = { λ p. text_in p.ended.items p.last.items };

    ghost invariant = { λ p. AreEnded p.ended.items × (p.len ≡ length (text_in p.ended.items p.last.items)) };
}

// Returns an empty piece, which follows this number of bytes, with room.
fn new_piece(alloc: Global, before: usize) -> Result<Vec<u8>, AllocError>
    ensures { IfOk result (λ piece. piece.items ≡ []) }
{
    if before < LONG {
        Vec::with_capacity(alloc, ROOM)
    } else {
        Vec::with_capacity(alloc, LONG_ROOM)
    }
}

impl Pieces {
    /// Returns a text without bytes.
    pub fn new(alloc: Global) -> Pieces
        ensures { result ≡ [] }
    {
        Pieces {
            alloc,
            len: 0,
            ended: Vec::new(alloc),
            last: Vec::new(alloc),
        }
    }

    /// Returns the text with these bytes after it.
    pub fn with(self, bytes: &[u8]) -> Result<Pieces, AllocError>
        ensures text { IfOk result (λ text. text ≡ self ++ bytes.now) }
        ensures fits { IfOk result (λ text. length text < 2 ^ 64) }
    {
        let least = if self.len < LONG { PIECE } else { LONG_PIECE };
        if bytes.len() < least && self.last.len() < least - bytes.len() {
            return self.extended(bytes);
        }
        let Some(feed) = memrchr(b'\n', bytes) else {
            return self.extended(bytes);
        };
        let (lines, rest) = bytes.split_at(feed + 1);
        self.extended(lines)?.with_new_piece()?.extended(rest)
    }

    // Returns the text with these bytes at the end of its last piece.
    fn extended(mut self, bytes: &[u8]) -> Result<Pieces, AllocError>
        ensures text { IfOk result (λ text. text ≡ self ++ bytes.now) }
        ensures fits { IfOk result (λ text. length text < 2 ^ 64) }
    {
        let Some(len) = self.len.checked_add(bytes.len()) else {
            return Err(AllocError);
        };
        self.last.extend_from_slice(bytes)?;
        self.len = len;
        Ok(self)
    }

    // Returns the text with a new last piece, if the last one ends with a line feed.
    fn with_new_piece(self) -> Result<Pieces, AllocError>
        ensures { IfOk result (λ text. text ≡ self) }
    {
        let Some((b'\n', _)) = self.last.split_last() else {
            return Ok(self);
        };
        let Pieces {
            alloc,
            len,
            mut ended,
            last,
        } = self;
        ended.push(last)?;
        Ok(Pieces {
            alloc,
            len,
            ended,
            last: new_piece(alloc, len)?,
        })
    }

    // Returns the pieces that end with a line feed, and the last one.
    pub fn into_parts(self) -> (Vec<Vec<u8>>, Vec<u8>)
        ensures text { text_in result.0.items result.1.items ≡ self }
        ensures ended { AreEnded result.0.items }
        ensures fits { length self < 2 ^ 64 }
    {
        let Pieces { ended, last, .. } = self;
        (ended, last)
    }
}
