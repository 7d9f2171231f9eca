//! Hashing of keys with secret numbers, so that an attacker who chooses the keys cannot make them collide.
ghost use Rattle.std.specs.Prelude.{◌≡◌};
ghost use Rattle.pmap_model.specs.Hashing.{folded};

use std::hash::{BuildHasher, Hasher};
use std::random::RandomSource;

/// The two numbers with which the keys of a hash table are hashed. No output depends on them.
#[derive(Clone, Copy)]
pub struct KeyHashing {
    seed: u64,
    multiplier: u64,
}

/// The hash of a key so far.
#[derive(Clone, Copy)]
pub struct KeyHasher {
    state: u64,
    hashing: KeyHashing,
}

impl KeyHashing {
    /// Returns secret numbers from the system's random source. If the source fails, returns the fixed numbers of
    /// [`known`](Self::known).
    pub fn drawn(source: &impl RandomSource) -> KeyHashing {
        let mut bytes = [0; 16];
        let Ok(()) = source.fill_bytes(&mut bytes) else {
            return KeyHashing::known();
        };
        let drawn = u128::from_le_bytes(bytes);
        KeyHashing {
            seed: (drawn & 0xffff_ffff_ffff_ffff) as u64,
            multiplier: (drawn >> 64) as u64,
        }
    }

    /// Returns fixed numbers, which are public.
    pub fn known() -> KeyHashing {
        KeyHashing {
            seed: 0x243f_6a88_85a3_08d3,
            multiplier: 0x9e37_79b9_7f4a_7c15,
        }
    }
}

impl BuildHasher for KeyHashing {
    type Hasher = KeyHasher;

    ghost build_hasher = { λ hashing. record { state = hashing.seed; hashing = hashing } };

    #[inline(always)]
    fn build_hasher(&self) -> KeyHasher {
        KeyHasher {
            state: self.seed,
            hashing: *self,
        }
    }
}

// Returns the two halves of a product of 128 bits, combined by exclusive or.
#[inline(always)]
fn folded(a: u64, b: u64) -> u64
    ensures { result ≡ folded a b }
{
    let product = u128::from(a) * u128::from(b);
    (product & 0xffff_ffff_ffff_ffff) as u64 ^ (product >> 64) as u64
}

impl Hasher for KeyHasher {
    ghost use Rattle.pmap_model.specs.Hashing.{finished, written};

    ghost write = { written };

    ghost finish = { finished };

    #[inline(always)]
    fn finish(&self) -> u64 {
        folded(self.state, self.hashing.seed)
    }

    // Each word of eight bytes is mixed into the state. The remaining bytes, fewer than eight, form one more word after
    // a leading 1, so that distinct keys have distinct words.
    #[inline(always)]
    fn write(&mut self, bytes: &[u8]) {
        let multiplier = self.hashing.multiplier;
        let (words, rest) = bytes.as_chunks::<8>();
        let last = rest
            .iter()
            .fold(1, |word, byte| word << 8 | u64::from(*byte));
        let state = words.iter().fold(self.state, |state, word| {
            folded(state ^ u64::from_le_bytes(*word), multiplier)
        });
        self.state = folded(state ^ last, multiplier);
    }
}
