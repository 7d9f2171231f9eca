ghost use Rattle.std.specs.Prelude.{◌≡◌, ◌≤◌};
ghost use Rattle.pmap_print.specs.Table.{mark_byte};

/// The byte before a field of a table.
#[derive(Clone, Copy)]
pub enum Mark {
    /// This byte, which ends the field or the line before.
    End(u8),
    /// The length of the field, by which it can be moved.
    Length,
}

impl Mark {
    /// Returns the byte before a field of this length.
    #[inline(always)]
    pub fn of(self, len: usize) -> u8
        requires { len ≤ 255 }
        ensures { result ≡ mark_byte self len }
    {
        match self {
            Mark::End(byte) => byte,
            Mark::Length => len as u8,
        }
    }
}
