//! Conversion of addresses between versions.
ghost use Rattle.std.specs.Prelude.{◌≡◌, IfSome, option_map};
ghost use Rattle.prefix_keys.specs.Conversion.{converted};

use crate::addr::Addr;
use crate::version::Version;

/// The number of `::ffff:0:0`.
pub const MAPPED_PREFIX: u128 = 0xffff_0000_0000;

/// Returns the address in the given version. The IPv6 form of an IPv4 address is its IPv4-mapped address in
/// `::ffff:0:0/96` (RFC 4291, section 2.5.5.2). Returns `None` for an IPv6 address outside that block if the version is
/// IPv4.
pub fn convert(addr: Addr, version: Version) -> Option<Addr>
    ensures version { IfSome result (λ a. a.version ≡ version) }
    ensures value { option_map (λ a. (a.version, a.value)) result ≡ converted version (addr.version, addr.value) }
{
    let value = match (addr.version, version) {
        (Version::V4, Version::V6) => addr.value + MAPPED_PREFIX,
        (Version::V6, Version::V4) => {
            if addr.value >> 32 != MAPPED_PREFIX >> 32 {
                return None;
            }
            addr.value - MAPPED_PREFIX
        }
        _ => addr.value,
    };
    Some(Addr { version, value })
}
