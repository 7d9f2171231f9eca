ghost use Rattle.std.specs.Prelude.{◌≡◌};

/// A number of a row of up to 32 bits.
#[derive(Clone, Copy, Debug, PartialEq, Eq)]
pub enum Number {
    /// `sport`: the source port.
    SourcePort,
    /// `dport`: the destination port.
    DestinationPort,
    /// `proto`: the number of the protocol above IP.
    Protocol,
    /// `flags`: the union of the TCP flags of all packets.
    Flags,
    /// `in-if`: the interface by which the packets came in.
    InputInterface,
    /// `out-if`: the interface by which they went out.
    OutputInterface,
    /// `vlan`: the VLAN.
    Vlan,
    /// `src-as`: the AS of the source.
    SourceAs,
    /// `dst-as`: the AS of the destination.
    DestinationAs,
}

/// The numbers that are columns of a row, in their order.
pub const NUMBERS: [Number; 4] = [
    Number::SourcePort,
    Number::DestinationPort,
    Number::Protocol,
    Number::Flags,
];

/// The other numbers, which only keys and filters have.
pub const MORE_NUMBERS: [Number; 5] = [
    Number::InputInterface,
    Number::OutputInterface,
    Number::Vlan,
    Number::SourceAs,
    Number::DestinationAs,
];

impl Number {
    ghost use Rattle.flow_rows.specs.Numbers.{about};

    /// Returns the name of the number.
    pub fn name(self) -> &'static str
        ensures { result.now ≡ (about self).0 }
    {
        match self {
            Number::SourcePort => "sport",
            Number::DestinationPort => "dport",
            Number::Protocol => "proto",
            Number::Flags => "flags",
            Number::InputInterface => "in-if",
            Number::OutputInterface => "out-if",
            Number::Vlan => "vlan",
            Number::SourceAs => "src-as",
            Number::DestinationAs => "dst-as",
        }
    }

    /// Returns the maximum that fits the number.
    pub fn most(self) -> u32
        ensures { result ≡ (about self).1.0 }
    {
        match self {
            Number::Protocol => 255,
            Number::InputInterface
            | Number::OutputInterface
            | Number::SourceAs
            | Number::DestinationAs => u32::MAX,
            _ => 65535,
        }
    }
}
