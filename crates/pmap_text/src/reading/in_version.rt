//! Addresses and blocks of a line, in the version of the text.
ghost use Rattle.std.specs.Prelude.{◌≡◌, ◌+◌, ◌-◌, Ok, Err, IfOk, IfErr};
ghost use Rattle.prefix_keys.specs.Block.{width_of};
ghost use Rattle.pmap_text.specs.Reading.{number_in};

use crate::fault::MapFaultKind;
use prefix_keys::{Addr, Block, Version, block_of, convert};

/// Returns an address as one of a text of this version. In an IPv6 text a dotted address represents its IPv4-mapped
/// address in `::ffff:0:0/96`, and an IPv4 text has no colon addresses.
pub fn addr_in(version: Version, addr: Addr) -> Result<Addr, MapFaultKind>
    ensures version { IfOk result (λ a. a.version ≡ version) }
    ensures ok { IfOk result (λ a. number_in version (addr.version, addr.value) ≡ Ok a.value) }
    ensures err { IfErr result (λ kind. number_in version (addr.version, addr.value) ≡ Err kind) }
{
    if version == Version::V4 && addr.version == Version::V6 {
        return Err(MapFaultKind::WrongVersion);
    }
    convert(addr, version).ok_or(MapFaultKind::WrongVersion)
}

/// Returns a block as one of a text of this version. The length of a dotted block grows with the width of the address.
pub fn block_in(version: Version, block: Block) -> Result<Block, MapFaultKind>
    ensures version { IfOk result (λ b. b.version ≡ version) }
    ensures len { IfOk result (λ b. b.len ≡ block.len + (width_of version - width_of block.version)) }
    ensures ok { IfOk result (λ b. number_in version (block.version, block.value) ≡ Ok b.value) }
    ensures err { IfErr result (λ kind. number_in version (block.version, block.value) ≡ Err kind) }
{
    if block.version == version {
        return Ok(block);
    }
    let low = addr_in(version, block.low())?;
    let len = block.len + (version.width() - block.version.width());
    Ok(block_of(low, len))
}
