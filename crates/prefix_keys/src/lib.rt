//! IP addresses, CIDR blocks and spans of addresses, and their texts.
//!
//! ```rust
//! use prefix_keys::{print_block, read_block};
//!
//! // The host bits are cleared.
//! let block = read_block(b"10.1.2.3/8")?;
//! let mut text = Vec::new(alloc);
//! print_block(&mut text, &block)?;
//! assert!(rt; text.as_slice() == b"10.0.0.0/8".as_slice());
//! ```
//!
//! This crate uses no other crate of the project. An address is a number below 2^32 (IPv4) or 2^128 (IPv6). A block is
//! the addresses that share the leading bits of a prefix (RFC 4632). A span is the addresses from one to another.
//! Callers may rely on this: each call is the quotient and interval arithmetic on those numbers that its contract
//! cites, and each type keeps its own invariants. A text is read if and only if it is a written form, and the laws say
//! that a printed text is a written form of the value that was printed.
#![tactic(auto)]

mod addr;
mod block;
mod conversion;
mod cutting;
mod decimal;
mod laws;
mod print;
mod span;
mod text;
mod version;

pub use addr::Addr;
pub use block::{Block, block_of};
pub use conversion::{MAPPED_PREFIX, convert};
pub use cutting::{cut, find_byte};
pub use decimal::{are_digits, read_decimal};
pub use laws::{
    address_is_displayed, address_is_read_back, block_is_read_back, longest_run_is_longest,
};
pub use print::{print_addr, print_block, write_addr};
pub use span::Span;
pub use text::{BlockFault, leading_colon, read_addr, read_block};
pub use version::Version;
