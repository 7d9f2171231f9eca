//! The groups of recent rows, so that most rows are added without a look-up in the table of all groups.

ghost use Rattle.std.specs.Prelude.{◌<◌};

use std::alloc::{AllocError, Global};

// How many guesses there are.
const PLACES: usize = 4096;

// The index of the group of a recent row, and a mark of the group's key.
#[derive(Clone, Copy)]
struct Guess {
    mark: u32,
    index: u32,
}

/// Guesses of the groups of keys, which the caller must check. Some bytes of a key select its guess. A guess has a mark
/// of its key, so that most wrong ones are found without a look at the group.
#[derive(Drop)]
pub struct Recent {
    guesses: Box<[Guess; PLACES]>,
}

/// Returns a number that depends on the last eight bytes of a key and, if it has ten or more, on the eight bytes after
/// its first two. By this number the key's group is guessed. A key that begins with a time has the time's number there.
#[inline(always)]
pub fn mixed(key: &[u8]) -> u64 {
    outer_bytes(key).wrapping_mul(0x9e37_79b9_7f4a_7c15)
}

// Returns the last eight bytes of a key plus those of `start_bytes`, or its last four or two bytes if it is shorter.
#[inline(always)]
fn outer_bytes(key: &[u8]) -> u64 {
    if let Some(end) = key.last_chunk::<8>() {
        u64::from_le_bytes(*end).wrapping_add(start_bytes(key))
    } else if let Some(end) = key.last_chunk::<4>() {
        u64::from(u32::from_le_bytes(*end))
    } else if let Some(end) = key.last_chunk::<2>() {
        u64::from(u16::from_le_bytes(*end))
    } else {
        0
    }
}

// Returns the eight bytes after the first two of a key, or 0 if it has fewer.
#[inline(always)]
fn start_bytes(key: &[u8]) -> u64 {
    match key.first_chunk::<10>() {
        Some([_, _, a, b, c, d, e, f, g, h]) => {
            u64::from_be_bytes([*a, *b, *c, *d, *e, *f, *g, *h])
        }
        None => 0,
    }
}

// Returns the index of the guess for a key.
#[inline(always)]
fn place_of(mixed: u64) -> usize
    ensures { result < PLACES }
{
    (mixed >> 52) as usize
}

// Returns the mark of a key.
#[inline(always)]
fn mark_of(mixed: u64) -> u32 {
    (mixed >> 20 & 0xffff_ffff) as u32
}

impl Recent {
    /// Returns guesses of the first group.
    pub fn new(alloc: Global) -> Result<Recent, AllocError> {
        let guesses = Box::new(alloc, [Guess { mark: 0, index: 0 }; PLACES])?;
        Ok(Recent { guesses })
    }

    /// Returns the index of the group that a key may have, given the key's number, or `None` if no recent key has the
    /// same mark.
    #[inline(always)]
    pub fn guess(&self, mixed: u64) -> Option<usize> {
        let guess = self.guesses[place_of(mixed)];
        if guess.mark == mark_of(mixed) {
            Some(guess.index as usize)
        } else {
            None
        }
    }

    /// Remembers the index of a key's group, given the key's number.
    #[inline(always)]
    pub fn remember(&mut self, mixed: u64, index: usize) {
        let mark = mark_of(mixed);
        let index = (index & 0xffff_ffff) as u32;
        self.guesses[place_of(mixed)] = Guess { mark, index };
    }
}
