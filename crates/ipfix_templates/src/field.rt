ghost use Rattle.std.specs.Prelude.{◌≡◌};
ghost use Rattle.ipfix_templates.specs.Field.{is_variable};

use std::marker::Model;

// The length in a field specifier that means a variable length (RFC 7011 section 7).
const VARIABLE_LENGTH: u16 = 65535;

/// A field specifier (RFC 7011 section 3.2). The number of its information element is below 32,768.
#[derive(Clone, Copy)]
pub struct Field {
    /// The enterprise number, if the enterprise bit is 1.
    pub enterprise: Option<u32>,
    /// The number of the information element, without the enterprise bit.
    pub number: u16,
    /// The length of each value in bytes, or 65,535 for a variable length.
    pub length: u16,
}

impl Model for Field {
    ghost use Rattle.std.specs.Prelude.{◌<◌};
    ghost use Rattle.ipfix_templates.specs.Field.{FieldView};

    ghost Value = { FieldView };

    ghost view = { λ f. record { enterprise = f.enterprise; number = f.number; length = f.length } };

    ghost invariant = { λ f. f.number < 32768 };

    ghost inverse = { λ f. record { enterprise = f.enterprise; number = f.number; length = f.length } };
}

impl Field {
    /// Returns `true` if the length is variable.
    pub fn is_variable(self) -> bool
        ensures { result ≡ is_variable self }
    {
        self.length == VARIABLE_LENGTH
    }
}
