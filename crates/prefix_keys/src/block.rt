ghost use Rattle.std.specs.Prelude.{◌≡◌, ◌+◌, ◌-◌, ◌*◌, ◌%◌, ◌^◌, ◌<◌, ◌≤◌, ◌↔◌, IsSome, IsNone, IfSome, IsTrue};
ghost use Rattle.prefix_keys.specs.Block.{block_number, first_of, last_of, width_of};

use crate::addr::Addr;
use crate::span::Span;
use crate::version::Version;

/// A CIDR block (RFC 4632): the addresses of one version whose first `len` bits are those of `value`. The remaining
/// bits of `value`, the host bits, are 0.
#[derive(Clone, Copy, PartialEq, Eq)]
pub struct Block {
    pub version: Version,
    pub len: u32,
    pub value: u128,
    ghost len_in_range: { len ≤ width_of version },
    ghost in_range: { value < 2 ^ width_of version },
    ghost no_host_bit: { value % 2 ^ (width_of version - len) ≡ 0 },
}

// Returns the number whose bits after the first `len` are 1, which is one less than the number of addresses in a block.
#[inline(always)]
fn host_mask(version: Version, len: u32) -> u128
    requires { len ≤ width_of version }
    ensures { result + 1 ≡ 2 ^ (width_of version - len) }
{
    let host_bits = version.width() - len;
    if host_bits < 128 {
        (1 << host_bits) - 1
    } else {
        u128::MAX
    }
}

/// Returns the block of length `len` that covers `addr`: its first `len` bits, with the host bits cleared.
#[inline(always)]
pub fn block_of(addr: Addr, len: u32) -> Block
    requires { len ≤ width_of addr.version }
    ensures version { result.version ≡ addr.version }
    ensures len { result.len ≡ len }
    ensures covering { let W = width_of addr.version in
        block_number W len result.value ≡ block_number W len addr.value }
    ensures first { let W = width_of addr.version in
        result.value ≡ first_of W len (block_number W len addr.value) }
{
    let host = addr.value & host_mask(addr.version, len);
    Block {
        version: addr.version,
        value: addr.value - host,
        len,
    }
}

impl Block {
    ghost use Rattle.prefix_keys.specs.Covers.{BlockCovers};

    /// Returns the block of length 0, which covers every address of the version.
    pub fn whole(version: Version) -> Block
        ensures version { result.version ≡ version }
        ensures value { result.value ≡ 0 }
        ensures len { result.len ≡ 0 }
    {
        Block {
            version,
            value: 0,
            len: 0,
        }
    }

    /// Returns the block with this number and length, or `None` if the length exceeds the width, the number is too
    /// large for the version, or a host bit is 1.
    pub fn new(version: Version, value: u128, len: u32) -> Option<Block>
        ensures valid { IsSome result ↔ ((len ≤ width_of version) × (value < 2 ^ width_of version)
            × (value % 2 ^ (width_of version - len) ≡ 0)) }
        ensures version { IfSome result (λ block. block.version ≡ version) }
        ensures value { IfSome result (λ block. block.value ≡ value) }
        ensures len { IfSome result (λ block. block.len ≡ len) }
    {
        let addr = Addr::new(version, value)?;
        if len > version.width() {
            return None;
        }
        let block = block_of(addr, len);
        if block.value == value {
            Some(block)
        } else {
            None
        }
    }

    /// Returns `true` if the block covers the address.
    pub fn covers(&self, addr: &Addr) -> bool
        ensures { IsTrue result ↔ BlockCovers self.now addr.now }
    {
        self.span().covers(addr)
    }

    /// Returns the lowest address of the block.
    pub fn low(&self) -> Addr
        ensures version { result.version ≡ self.now.version }
        ensures value { result.value ≡ self.now.value }
        ensures first { let W = width_of self.now.version in
            result.value ≡ first_of W self.now.len (block_number W self.now.len self.now.value) }
    {
        Addr {
            version: self.version,
            value: self.value,
        }
    }

    /// Returns the highest address of the block.
    #[inline(always)]
    pub fn high(&self) -> Addr
        ensures version { result.version ≡ self.now.version }
        ensures last { let W = width_of self.now.version in
            result.value ≡ last_of W self.now.len (block_number W self.now.len self.now.value) }
    {
        Addr {
            version: self.version,
            value: self.value + host_mask(self.version, self.len),
        }
    }

    /// Returns the span from the lowest address of the block to its highest.
    pub fn span(&self) -> Span
        ensures version { result.low.version ≡ self.now.version }
        ensures low { result.low.value ≡ self.now.value }
        ensures first { let W = width_of self.now.version in
            result.low.value ≡ first_of W self.now.len (block_number W self.now.len self.now.value) }
        ensures last { let W = width_of self.now.version in
            result.high.value ≡ last_of W self.now.len (block_number W self.now.len self.now.value) }
    {
        Span {
            low: self.low(),
            high: self.high(),
        }
    }

    /// Returns the two halves of the block, which are one bit longer, the lower half first. Returns `None` if the block
    /// is a single address.
    pub fn halves(&self) -> Option<(Block, Block)>
        ensures full { IsNone result ↔ (self.now.len ≡ width_of self.now.version) }
        ensures versions { IfSome result
            (λ halves. (halves.0.version ≡ self.now.version) × (halves.1.version ≡ self.now.version)) }
        ensures lens { IfSome result
            (λ halves. (halves.0.len ≡ self.now.len + 1) × (halves.1.len ≡ self.now.len + 1)) }
        ensures lower { IfSome result (λ halves. halves.0.value ≡ self.now.value) }
        ensures upper { IfSome result
            (λ halves. halves.1.value ≡ self.now.value + 2 ^ (width_of self.now.version - self.now.len - 1)) }
        ensures lower_number { IfSome result (λ halves. let W = width_of self.now.version in
            block_number W (self.now.len + 1) halves.0.value ≡ 2 * block_number W self.now.len self.now.value) }
        ensures upper_number { IfSome result (λ halves. let W = width_of self.now.version in
            block_number W (self.now.len + 1) halves.1.value ≡ 2 * block_number W self.now.len self.now.value + 1) }
    {
        if self.len == self.version.width() {
            return None;
        }
        let len = self.len + 1;
        let half = host_mask(self.version, len) + 1;
        let (version, value) = (self.version, self.value);
        let lower = Block {
            version,
            value,
            len,
        };
        let upper = Block {
            version,
            value: value + half,
            len,
        };
        Some((lower, upper))
    }
}
