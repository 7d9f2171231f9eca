ghost use Rattle.std.specs.Prelude.{◌≡◌, ℕ, IfSome, IsTrue, List, Option, option_map};
ghost use Rattle.prefix_keys.specs.declared.version.Version.{Version as VersionOf};
ghost use Rattle.pmap_model.specs.Label.{is_label};

use prefix_keys::{Addr, Version};

/// A source of the labels of the addresses of one version.
pub trait Labeller {
    /// The version of the addresses.
    ghost version_of: { Self → VersionOf };

    /// The label text of the address with a number, or none.
    ghost label: { Self → ℕ → Option (List ℕ) };

    /// Returns the version of the addresses.
    fn version(&self) -> Version
        ensures { result ≡ version_of self.now };

    /// Returns the label of an address, which must be of the labeller's version. A label has 1 to 255 bytes, none of
    /// which is 0.
    fn label_of(&self, addr: Addr) -> Option<&[u8]>
        requires { addr.version ≡ version_of self.now }
        ensures value { option_map (λ t. t.now) result ≡ label self.now addr.value }
        ensures label { IfSome result (λ t. IsTrue (is_label t.now)) };
}
