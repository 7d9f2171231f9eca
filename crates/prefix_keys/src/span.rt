ghost use Rattle.std.specs.Prelude.{◌≡◌, ◌≤◌, ◌↔◌, IsSome, IfSome, IsTrue};

use crate::addr::Addr;
use crate::block::Block;

/// The addresses of one version from `low` to `high`, both included.
#[derive(Clone, Copy)]
pub struct Span {
    pub low: Addr,
    pub high: Addr,
    ghost one_version: { low.version ≡ high.version },
    ghost ordered: { low.value ≤ high.value },
}

impl Span {
    ghost use Rattle.prefix_keys.specs.Covers.{SpanCovers, SpanCoversBlock, SpanMeetsBlock};

    /// Returns the span between these addresses, or `None` if their versions differ or `low` is above `high`.
    pub fn new(low: Addr, high: Addr) -> Option<Span>
        ensures valid { IsSome result ↔ ((low.version ≡ high.version) × (low.value ≤ high.value)) }
        ensures low { IfSome result (λ span. span.low ≡ low) }
        ensures high { IfSome result (λ span. span.high ≡ high) }
    {
        if low.version == high.version && low.value <= high.value {
            Some(Span { low, high })
        } else {
            None
        }
    }

    /// Returns `true` if the span covers the address.
    pub fn covers(&self, addr: &Addr) -> bool
        ensures { IsTrue result ↔ SpanCovers self.now addr.now }
    {
        self.low.version == addr.version
            && self.low.value <= addr.value
            && addr.value <= self.high.value
    }

    /// Returns `true` if the span covers every address of the block.
    pub fn covers_block(&self, block: &Block) -> bool
        ensures { IsTrue result ↔ SpanCoversBlock self.now block.now }
    {
        if self.low.version != block.version {
            return false;
        }
        self.low.value <= block.low().value && block.high().value <= self.high.value
    }

    /// Returns `true` if the span covers some address of the block.
    pub fn meets(&self, block: &Block) -> bool
        ensures { IsTrue result ↔ SpanMeetsBlock self.now block.now }
    {
        if self.low.version != block.version {
            return false;
        }
        self.low.value <= block.high().value && block.low().value <= self.high.value
    }
}
