ghost use Rattle.std.specs.Prelude.{◌≡◌, ◌^◌, ◌<◌, ◌↔◌, IsSome, IfSome};
ghost use Rattle.prefix_keys.specs.Block.{width_of};

use crate::version::Version;

/// An IP address: a version, and the number whose bits in network byte order are the address.
#[derive(Clone, Copy, PartialEq, Eq)]
pub struct Addr {
    pub version: Version,
    pub value: u128,
    ghost in_range: { value < 2 ^ width_of version },
}

impl Addr {
    /// Returns the address with this number, or `None` if the number is too large for the version.
    pub fn new(version: Version, value: u128) -> Option<Addr>
        ensures valid { IsSome result ↔ (value < 2 ^ width_of version) }
        ensures version { IfSome result (λ a. a.version ≡ version) }
        ensures value { IfSome result (λ a. a.value ≡ value) }
    {
        let fits = match version {
            Version::V4 => value < 1 << 32,
            Version::V6 => true,
        };
        if fits {
            Some(Addr { version, value })
        } else {
            None
        }
    }
}
