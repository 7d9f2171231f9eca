ghost use Rattle.std.specs.Prelude.{◌≡◌, if◌then◌else◌, length};
ghost use Rattle.flow_rows.specs.Inner.{AreUsable, IsWithin, number_there, row_at, version_of};
ghost use Rattle.flow_rows.specs.Numbers.{about};

use crate::number::Number;
use crate::place::{bytes_there, u16_there, u32_there, u64_there};
use byteorder::{BigEndian, ByteOrder};
use ipfix_templates::{Place, Places};
use prefix_keys::{Addr, Version};
use std::marker::Model;

/// A flow row: the flow that a data record describes. It borrows the record's bytes, and each number is read when it is
/// requested. A missing number is 0.
#[derive(Drop)]
pub struct Row<'a> {
    places: &'a Places,
    // For each value of variable length, the number of bytes between it and the one before it.
    runs: &'a [u32],
    bytes: &'a [u8],
}

impl<'a> Model for Row<'a> {
    ghost use Rattle.std.specs.Prelude.{length};
    ghost use Rattle.flow_rows.specs.Elements.{RowView};
    ghost use Rattle.flow_rows.specs.Inner.{AreUsable, number_there, row_at};

    ghost Value = { RowView };

    ghost view = { λ row. row_at row.places.now (λ place. number_there place row.runs.now row.bytes.now) };

    ghost invariant = { λ row. AreUsable (length row.bytes.now) row.places.now };
}

// Returns the address at a place in a record.
#[inline(always)]
fn address_there(is_v4: bool, place: &Place, runs: &[u32], bytes: &[u8]) -> Addr
    requires within { IsWithin (if is_v4 then 4 else 16) (length bytes.now) place.now }
    requires size { place.now.length ≡ (if is_v4 then 4 else 16) }
    ensures version { result.version ≡ version_of is_v4 }
    ensures value { result.value ≡ number_there place.now runs.now bytes.now }
{
    let bytes = bytes_there(place, runs, bytes);
    if is_v4 {
        let value = if bytes.len() < 4 {
            0
        } else {
            BigEndian::read_u32(bytes)
        };
        return Addr {
            version: Version::V4,
            value: u128::from(value),
        };
    }
    let value = if bytes.len() < 16 {
        0
    } else {
        BigEndian::read_u128(bytes)
    };
    Addr {
        version: Version::V6,
        value,
    }
}

impl<'a> Row<'a> {
    // Returns the row with the numbers at these places in a record.
    #[inline(always)]
    pub(crate) fn new(places: &'a Places, runs: &'a [u32], bytes: &'a [u8]) -> Row<'a>
        requires { AreUsable (length bytes.now) places.now }
        ensures { result ≡ row_at places.now (λ place. number_there place runs.now bytes.now) }
    {
        Row {
            places,
            runs,
            bytes,
        }
    }

    /// The version of both addresses.
    #[inline(always)]
    pub fn version(&self) -> Version
        ensures { result ≡ self.now.version }
    {
        if self.places.is_v4 {
            Version::V4
        } else {
            Version::V6
        }
    }

    /// The source address.
    #[inline(always)]
    pub fn src(&self) -> Addr
        ensures version { result.version ≡ self.now.version }
        ensures value { result.value ≡ self.now.src }
    {
        address_there(self.places.is_v4, &self.places.src, self.runs, self.bytes)
    }

    /// The destination address.
    #[inline(always)]
    pub fn dst(&self) -> Addr
        ensures version { result.version ≡ self.now.version }
        ensures value { result.value ≡ self.now.dst }
    {
        address_there(self.places.is_v4, &self.places.dst, self.runs, self.bytes)
    }

    /// The source port.
    #[inline(always)]
    pub fn sport(&self) -> u16
        ensures { result ≡ self.now.sport }
    {
        u16_there(&self.places.sport, self.runs, self.bytes)
    }

    /// The destination port.
    #[inline(always)]
    pub fn dport(&self) -> u16
        ensures { result ≡ self.now.dport }
    {
        u16_there(&self.places.dport, self.runs, self.bytes)
    }

    /// The number of the protocol above IP, such as 6 for TCP.
    #[inline(always)]
    pub fn protocol(&self) -> u8
        ensures { result ≡ self.now.protocol }
    {
        bytes_there(&self.places.protocol, self.runs, self.bytes)
            .first()
            .copied()
            .unwrap_or(0)
    }

    /// A number of up to 32 bits.
    #[inline(always)]
    pub fn number(&self, number: Number) -> u32
        ensures { result ≡ (about number).1.1 self.now }
    {
        match number {
            Number::SourcePort => u32::from(self.sport()),
            Number::DestinationPort => u32::from(self.dport()),
            Number::Protocol => u32::from(self.protocol()),
            Number::Flags => u32::from(self.flags()),
            Number::InputInterface => u32_there(&self.places.in_if, self.runs, self.bytes),
            Number::OutputInterface => u32_there(&self.places.out_if, self.runs, self.bytes),
            Number::Vlan => u32::from(u16_there(&self.places.vlan, self.runs, self.bytes)),
            Number::SourceAs => u32_there(&self.places.src_as, self.runs, self.bytes),
            Number::DestinationAs => u32_there(&self.places.dst_as, self.runs, self.bytes),
        }
    }

    /// The union of the TCP flags of all packets.
    #[inline(always)]
    pub fn flags(&self) -> u16
        ensures { result ≡ self.now.flags }
    {
        u16_there(&self.places.flags, self.runs, self.bytes)
    }

    /// The number of packets.
    #[inline(always)]
    pub fn packets(&self) -> u64
        ensures { result ≡ self.now.packets }
    {
        u64_there(&self.places.packets, self.runs, self.bytes)
    }

    /// The number of bytes of the packets, including IP headers.
    #[inline(always)]
    pub fn octets(&self) -> u64
        ensures { result ≡ self.now.octets }
    {
        u64_there(&self.places.octets, self.runs, self.bytes)
    }

    /// The time of the first packet, in milliseconds since 1970.
    #[inline(always)]
    pub fn start_ms(&self) -> u64
        ensures { result ≡ self.now.start_ms }
    {
        u64_there(&self.places.start_ms, self.runs, self.bytes)
    }

    /// The time of the last packet, in milliseconds since 1970.
    #[inline(always)]
    pub fn end_ms(&self) -> u64
        ensures { result ≡ self.now.end_ms }
    {
        u64_there(&self.places.end_ms, self.runs, self.bytes)
    }
}
