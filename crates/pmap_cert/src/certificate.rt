ghost use Rattle.std.specs.Prelude.{◌≡◌, ◌∷◌, [], length};
ghost use Rattle.prefix_keys.specs.Block.{width_of};
ghost use Rattle.pmap_cert.specs.CertificateText.{HasFormatText, HasTextForm};
ghost use Rattle.pmap_cert.specs.Format.{IsNodeOf, IsNodeOf-prop, One};
ghost use Rattle.pmap_cert.specs.Node.{HasChainForm, HasChainForm-prop, HasNumberForm};

use crate::cursor::Cursor;
use crate::format::Format;
use crate::root::Root;
use pmap_model::Labels;
use prefix_keys::Version;

/// A certificate: its format, the version of its addresses, its label table, and its root, which represents the address
/// space. Labels are in the table, and the numbers of each set ascend. No node is deeper than an address has bits; each
/// bit of a chain counts as one level. A certificate of format 1 has no chain.
#[derive(Drop)]
pub struct Certificate {
    pub format: Format,
    pub version: Version,
    pub labels: Labels,
    pub root: Root,
    ghost form: { HasChainForm (length labels) root (width_of version) } by { HasChainForm-prop (length labels) root
        (width_of version) },
    ghost kind: { IsNodeOf format root } by { IsNodeOf-prop format root },
}

impl Certificate {
    ghost use Rattle.pmap_cert.specs.Certificate.{certificate_of};

    /// Returns the certificate of format 1 with these parts.
    pub fn new(version: Version, labels: Labels, root: Root) -> Certificate
        requires { HasNumberForm (length labels) root (width_of version) }
        ensures format { result.format ≡ One }
        ensures version { result.version ≡ version }
        ensures labels { result.labels ≡ labels }
        ensures root { result.root ≡ root }
    {
        Certificate::of_format(Format::One, version, labels, root)
    }

    /// Returns the certificate of the given format with these parts.
    pub fn of_format(format: Format, version: Version, labels: Labels, root: Root) -> Certificate
        requires form { HasChainForm (length labels) root (width_of version) }
        requires kind { IsNodeOf format root }
        ensures format { result.format ≡ format }
        ensures version { result.version ≡ version }
        ensures labels { result.labels ≡ labels }
        ensures root { result.root ≡ root }
    {
        Certificate {
            format,
            version,
            labels,
            root,
        }
    }

    /// Returns a cursor at the root. The root, the label table, the version and the format determine the text.
    pub fn root(&self) -> Cursor<'_>
        ensures value { result ≡ self.now.root ∷ [] }
        ensures numbers { HasChainForm (length self.now.labels) self.now.root (width_of self.now.version) }
        ensures form { HasFormatText (certificate_of self.now) }
        ensures first { self.now.format ≡ One → HasTextForm (certificate_of self.now) }
    {
        self.labels.laws();
        Cursor::at_root(&self.root)
    }
}
