//! The line of a node in 8 bytes.
ghost use Rattle.std.specs.Prelude.{◌≡◌, ◌/◌, ◌^◌, ◌<◌};
ghost use Rattle.pmap_cert.specs.Packed.{FitsPacked, of_kind, unpacked};

use pmap_model::LabelId;

/// The line of a node: the label of a leaf; the cost and the label of an inner node whose set is one label; the index
/// of another inner node's cost and set; or that of a chain. The set of a `SideChain` is its side label alone.
#[derive(Clone, Copy)]
pub enum Unpacked {
    Leaf(LabelId),
    Single(u32, LabelId),
    Inner(usize),
    SideChain(usize),
    Chain(usize),
}

/// A line in 8 bytes. The last three bits of `tail` are its kind, and the bits before them a cost or the upper part of
/// an index. `label` is a label, or the lower 32 bits of the index.
#[derive(Clone, Copy)]
pub struct Packed {
    pub label: LabelId,
    pub tail: u32,
}

const LEAF: u32 = 0;

const SINGLE: u32 = 1;

const INNER: u32 = 2;

const SIDE_CHAIN: u32 = 3;

const CHAIN: u32 = 4;

// The number of kinds that three bits can tell apart.
const KINDS: u32 = 8;

/// The number of costs that fit into a tail beside its kind.
pub const SHORT_COSTS: u32 = 1 << 29;

/// The number of values of 32 bits.
pub const HALF: usize = 1 << 32;

// Packs a line of this kind with an index.
#[inline(always)]
fn with_index(kind: u32, index: usize) -> Packed
    requires kind { kind < 8 }
    requires index { index < 2 ^ 61 }
    ensures { unpacked result ≡ of_kind kind result.label (index / 2 ^ 32) index }
{
    Packed {
        label: LabelId((index % HALF) as u32),
        tail: (index / HALF) as u32 * KINDS + kind,
    }
}

impl Packed {
    /// Packs a line.
    #[inline(always)]
    pub fn pack(line: Unpacked) -> Packed
        requires { FitsPacked line }
        ensures { unpacked result ≡ line }
    {
        match line {
            Unpacked::Leaf(id) => Packed {
                label: id,
                tail: LEAF,
            },
            Unpacked::Single(cost, id) => Packed {
                label: id,
                tail: cost * KINDS + SINGLE,
            },
            Unpacked::Inner(index) => with_index(INNER, index),
            Unpacked::SideChain(index) => with_index(SIDE_CHAIN, index),
            Unpacked::Chain(index) => with_index(CHAIN, index),
        }
    }

    /// Returns the line.
    #[inline(always)]
    pub fn unpack(&self) -> Unpacked
        ensures { result ≡ unpacked self.now }
    {
        let rest = self.tail / KINDS;
        let index = rest as usize * HALF + self.label.0 as usize;
        match self.tail % KINDS {
            LEAF => Unpacked::Leaf(self.label),
            SINGLE => Unpacked::Single(rest, self.label),
            INNER => Unpacked::Inner(index),
            SIDE_CHAIN => Unpacked::SideChain(index),
            _ => Unpacked::Chain(index),
        }
    }
}
