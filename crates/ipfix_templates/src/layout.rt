//! The places of the numbers of flow rows in the records of a template, determined once.
ghost use Rattle.std.specs.Prelude.{◌≡◌, ◌≤◌, ◌==◌, find, length};
ghost use Rattle.ipfix_templates.specs.Elements.{back, fits, forward, is_usable};
ghost use Rattle.ipfix_templates.specs.Layout.{first_places, flow_layout, is_there, place_of_element};
ghost use Rattle.ipfix_templates.specs.Layout.{place_or, places_between, second_places};

use crate::field::Field;

/// The information elements of a row (RFC 7012, and IANA's registry of IPFIX elements) by their numbers, each with the
/// minimum and the maximum length of its field. A number may be sent in fewer bytes than its type has (RFC 7011 section
/// 6.2).
pub const ELEMENTS: [(u16, (u16, u16)); 20] = [
    (1, (1, 8)), // octetDeltaCount
    (2, (1, 8)), // packetDeltaCount
    (4, (1, 1)), // protocolIdentifier
    (6, (1, 2)), // tcpControlBits
    (7, (1, 2)), // sourceTransportPort
    (8, (4, 4)), // sourceIPv4Address
    (10, (1, 4)), // ingressInterface
    (11, (1, 2)), // destinationTransportPort
    (12, (4, 4)), // destinationIPv4Address
    (14, (1, 4)), // egressInterface
    (16, (1, 4)), // bgpSourceAsNumber
    (17, (1, 4)), // bgpDestinationAsNumber
    (27, (16, 16)), // sourceIPv6Address
    (28, (16, 16)), // destinationIPv6Address
    (58, (1, 2)), // vlanId
    (85, (1, 8)), // octetTotalCount
    (86, (1, 8)), // packetTotalCount
    (152, (8, 8)), // flowStartMilliseconds
    (153, (8, 8)), // flowEndMilliseconds
    (243, (1, 2)), // dot1qVlanId
];

/// The enterprise number of the elements of the reverse direction (RFC 5103 section 6.1).
pub const REVERSE: u32 = 29305;

/// Where a number is in the records of a template. Values of variable length move it, so its offset counts from the end
/// of the last of them before it.
#[derive(Clone, Copy)]
pub struct Place {
    /// The number of bytes between the last value of variable length before it, or the start of the record, and it.
    pub offset: u32,
    /// The number of values of variable length before it.
    pub skips: u16,
    /// Its length in bytes, or 0 if the records don't have it.
    pub length: u16,
}

/// The places of the numbers of a row.
#[derive(Clone, Copy)]
pub struct Places {
    /// The source address.
    pub src: Place,
    /// The destination address.
    pub dst: Place,
    /// The source port.
    pub sport: Place,
    /// The destination port.
    pub dport: Place,
    /// The protocol.
    pub protocol: Place,
    /// The TCP flags.
    pub flags: Place,
    /// The interface by which the packets came in.
    pub in_if: Place,
    /// The interface by which they went out.
    pub out_if: Place,
    /// The VLAN.
    pub vlan: Place,
    /// The AS of the source.
    pub src_as: Place,
    /// The AS of the destination.
    pub dst_as: Place,
    /// The number of packets.
    pub packets: Place,
    /// The number of bytes of the packets.
    pub octets: Place,
    /// The time of the first packet.
    pub start_ms: Place,
    /// The time of the last packet.
    pub end_ms: Place,
    /// Whether the addresses are IPv4 addresses. Otherwise they are IPv6 addresses.
    pub is_v4: bool,
}

/// The places of the numbers of both rows in the records of a template whose records have rows.
#[derive(Clone, Copy)]
pub struct RowLayout {
    /// The places of the first row.
    pub first: Places,
    /// The places of the second row, that of the reverse direction (RFC 5103).
    pub second: Places,
}

impl Place {
    /// Returns `true` if the records have the number.
    #[inline(always)]
    pub fn is_there(self) -> bool
        ensures { result ≡ is_there self }
    {
        self.length != 0
    }

    // Returns this place, or the other one if the records don't have the number here.
    fn or(self, other: Place) -> Place
        ensures { result ≡ place_or self other }
    {
        if self.is_there() { self } else { other }
    }
}

// Returns the element of a row with this number, and the lengths of its field.
fn element_of(number: u16) -> Option<(u16, (u16, u16))>
    ensures { result ≡ find (λ e. e.0 == number) ELEMENTS }
{
    ELEMENTS.iter().copied().find(|element| element.0 == number)
}

// Returns `true` if the element belongs to a row, and a field of it may have this length.
#[tactic(auto, unfolding(crate::specs::Elements::fits))]
fn fits(number: u16, length: u16) -> bool
    ensures { result ≡ fits number length }
{
    match element_of(number) {
        None => false,
        Some((_, (least, most))) => least <= length && length <= most,
    }
}

// Returns `true` if the field is usable for the element with this number in a direction.
fn is_usable(direction: Option<u32>, number: u16, field: Field) -> bool
    ensures { result ≡ is_usable direction number field }
{
    field.number == number && field.enterprise == direction && fits(number, field.length)
}

// Returns the place of the value of the first field that is usable for an element in a direction.
fn place_of(direction: Option<u32>, number: u16, fields: &[Field]) -> Place
    requires { length fields.now ≤ 65535 }
    ensures { result ≡ place_of_element direction number 0 0 fields.now }
{
    let mut offset = 0u32;
    let mut skips = 0u16;
    for field in fields {
        let length = field.length;
        if is_usable(direction, number, *field) {
            return Place {
                offset,
                skips,
                length,
            };
        }
        if field.is_variable() {
            offset = 0;
            skips += 1;
        } else {
            offset += u32::from(length);
        }
    }
    Place {
        offset: 0,
        skips: 0,
        length: 0,
    }
}

// Returns the places of the first row, given those of its addresses.
fn places_between(is_v4: bool, src: Place, dst: Place, fields: &[Field]) -> Places
    requires { length fields.now ≤ 65535 }
    ensures { result ≡ places_between is_v4 src dst (λ number. place_of_element forward number 0 0 fields.now) }
{
    Places {
        src,
        dst,
        sport: place_of(None, 7, fields),
        dport: place_of(None, 11, fields),
        protocol: place_of(None, 4, fields),
        flags: place_of(None, 6, fields),
        in_if: place_of(None, 10, fields),
        out_if: place_of(None, 14, fields),
        vlan: place_of(None, 58, fields).or(place_of(None, 243, fields)),
        src_as: place_of(None, 16, fields),
        dst_as: place_of(None, 17, fields),
        packets: place_of(None, 2, fields).or(place_of(None, 86, fields)),
        octets: place_of(None, 1, fields).or(place_of(None, 85, fields)),
        start_ms: place_of(None, 152, fields),
        end_ms: place_of(None, 153, fields),
        is_v4,
    }
}

// Returns the places of the first row, if records with these fields have both addresses of a version. Those of IPv4
// take precedence.
fn first_places(fields: &[Field]) -> Option<Places>
    requires { length fields.now ≤ 65535 }
    ensures { result ≡ first_places (λ number. place_of_element forward number 0 0 fields.now) }
{
    let src_v4 = place_of(None, 8, fields);
    let dst_v4 = place_of(None, 12, fields);
    if src_v4.is_there() && dst_v4.is_there() {
        return Some(places_between(true, src_v4, dst_v4, fields));
    }
    let src_v6 = place_of(None, 27, fields);
    let dst_v6 = place_of(None, 28, fields);
    if src_v6.is_there() && dst_v6.is_there() {
        return Some(places_between(false, src_v6, dst_v6, fields));
    }
    None
}

// Returns the places of the second row, given those of the first.
fn second_places(first: &Places, fields: &[Field]) -> Places
    requires { length fields.now ≤ 65535 }
    ensures { result ≡ second_places first.now (λ number. place_of_element back number 0 0 fields.now) }
{
    let direction = Some(REVERSE);
    Places {
        src: first.dst,
        dst: first.src,
        sport: first.dport,
        dport: first.sport,
        protocol: first.protocol,
        flags: place_of(direction, 6, fields),
        in_if: first.out_if,
        out_if: first.in_if,
        vlan: first.vlan,
        src_as: first.dst_as,
        dst_as: first.src_as,
        packets: place_of(direction, 2, fields).or(place_of(direction, 86, fields)),
        octets: place_of(direction, 1, fields).or(place_of(direction, 85, fields)),
        start_ms: place_of(direction, 152, fields).or(first.start_ms),
        end_ms: place_of(direction, 153, fields).or(first.end_ms),
        is_v4: first.is_v4,
    }
}

impl RowLayout {
    // Returns the layout of flow records with these fields, if they have rows.
    #[tactic(auto, unfolding(crate::specs::Layout::flow_layout))]
    pub(crate) fn of_fields(fields: &[Field]) -> Option<RowLayout>
        requires { length fields.now ≤ 65535 }
        ensures { result ≡ flow_layout fields.now }
    {
        let first = first_places(fields)?;
        let second = second_places(&first, fields);
        Some(RowLayout { first, second })
    }
}
