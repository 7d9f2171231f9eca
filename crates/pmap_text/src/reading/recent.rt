ghost use Rattle.std.specs.Prelude.{◌<◌};

use pmap_model::LabelId;

// How many labels are remembered: a prime, so that each of the bytes that select a slot counts.
const PLACES: usize = 4093;

/// The labels that were last found. The end of a label's text selects its slot, so that most labels are found again
/// without a look-up in a table. A slot may have the number of another text, or of no text.
#[derive(Drop)]
pub struct Recent {
    ids: [LabelId; PLACES],
}

impl Recent {
    /// Returns a table of empty slots.
    pub fn new() -> Recent {
        Recent {
            ids: [LabelId(0); PLACES],
        }
    }

    /// Returns the number in the slot of a text. The caller must check that it is the text's.
    #[inline(always)]
    pub fn guess(&self, text: &[u8]) -> LabelId {
        self.ids[place_of(text)]
    }

    /// Remembers the number of a text, replacing the one in its slot.
    #[inline(never)]
    pub fn remember(&mut self, text: &[u8], id: LabelId) {
        self.ids[place_of(text)] = id;
    }
}

// The place of a text, by its last four bytes. Short names have different places, and so have most names that end in
// different numbers.
#[inline(always)]
fn place_of(text: &[u8]) -> usize
    ensures { result < PLACES }
{
    let word = match text.last_chunk::<4>() {
        Some(end) => u32::from_le_bytes(*end),
        None => text
            .iter()
            .fold(0, |word, byte| word << 8 | u32::from(*byte)),
    };
    word as usize % PLACES
}
