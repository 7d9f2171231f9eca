//! The bits of a chain.
ghost use Rattle.std.specs.Prelude.{◌≡◌, ◌+◌, ◌-◌, ◌<◌, ◌≤◌, ◌++◌, ◌∷◌, [], IfSome, MatchOption, length};
ghost use Rattle.prefix_keys.specs.Block.{width_of};
ghost use Rattle.pmap_cert.specs.Paths.{LeadsTo, path_to};

use prefix_keys::Block;

/// The bits of a chain: the last `count` binary digits of `value`. The digits before them don't matter.
#[derive(Clone, Copy)]
pub struct Path {
    pub value: u128,
    pub count: u32,
    ghost few: { count ≤ 128 },
}

impl Path {
    /// Returns the number of bits.
    pub fn len(&self) -> u32
        ensures { result ≡ length (path_to self.now.value self.now.count) }
    {
        self.count
    }

    /// Returns the bits with one more at the end.
    pub fn with(&self, bit: bool) -> Path
        requires { self.now.count < 128 }
        ensures bits { path_to result.value result.count ≡ path_to self.now.value self.now.count ++ bit ∷ [] }
        ensures count { result.count ≡ self.now.count + 1 }
    {
        Path {
            value: (self.value << 1) + u128::from(bit),
            count: self.count + 1,
        }
    }

    /// Returns the first bit and the bits after it.
    pub fn split_first(&self) -> Option<(bool, Path)>
        ensures bits { MatchOption result (path_to self.now.value self.now.count ≡ [])
            (λ x. path_to self.now.value self.now.count ≡ x.0 ∷ path_to x.1.value x.1.count) }
        ensures shorter { IfSome result (λ x. x.1.count < self.now.count) }
    {
        if self.count == 0 {
            return None;
        }
        let count = self.count - 1;
        let rest = Path {
            value: self.value,
            count,
        };
        Some(((self.value >> count) % 2 == 1, rest))
    }

    /// Returns the block to which the bits lead from a block.
    pub fn end(&self, block: &Block) -> Block
        requires { block.now.len + self.now.count ≤ width_of block.now.version }
        ensures { LeadsTo block.now result (path_to self.now.value self.now.count) }
    {
        if self.count == 0 {
            return *block;
        }
        let (version, len) = (block.version, block.len);
        let offset = (self.value << (128 - self.count)) >> (128 - version.width() + len);
        Block {
            version,
            value: block.value + offset,
            len: len + self.count,
        }
    }
}
