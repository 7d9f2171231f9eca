ghost use Rattle.std.specs.Prelude.{◌≡◌};
ghost use Rattle.pmap_cert.specs.Format.{format_number};

/// The format of a certificate's text.
#[derive(Clone, Copy)]
pub enum Format {
    /// Format 1: no node is a chain.
    One,
    /// Format 2: nodes may be chains.
    Two,
}

impl Format {
    /// Returns the number of the format, 1 or 2.
    pub fn number(self) -> u32
        ensures { result ≡ format_number self }
    {
        match self {
            Format::One => 1,
            Format::Two => 2,
        }
    }
}
