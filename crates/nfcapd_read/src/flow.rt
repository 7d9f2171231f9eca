//! The flows of records.
ghost use Rattle.std.specs.Prelude.{◌≡◌, IfErr, IfOk, OnOk, length};
ghost use Rattle.nfcapd_read.specs.Flow.{flow_of_record, no_elements, with_back, with_counts, with_element};
ghost use Rattle.nfcapd_read.specs.Flow.{with_elements, with_v4, with_v6};

use crate::fault::FlowFileFaultKind;
use byteorder::{ByteOrder, LittleEndian};

/// What the elements of a record say of a flow. A number that no element has is 0.
#[derive(Clone, Copy)]
pub struct Flow {
    /// Whether an element has IPv4 addresses, IPv6 addresses, the counts, and those of the other direction.
    pub has_v4: bool,
    pub has_v6: bool,
    pub has_counts: bool,
    pub has_back: bool,
    /// Whether the record is one of an event.
    pub is_event: bool,
    /// The IPv4 addresses.
    pub src_v4: u32,
    pub dst_v4: u32,
    /// The IPv6 addresses, each as the number of its higher 64 bits and that of the lower ones.
    pub src_high: u64,
    pub src_low: u64,
    pub dst_high: u64,
    pub dst_low: u64,
    /// The times of the first and the last packet, in milliseconds since 1970.
    pub first: u64,
    pub last: u64,
    pub packets: u64,
    pub octets: u64,
    pub sport: u16,
    pub dport: u16,
    pub protocol: u8,
    pub flags: u8,
    /// The counts of the other direction.
    pub packets_back: u64,
    pub octets_back: u64,
}

// The flow of no elements.
pub const NOTHING: Flow = Flow {
    has_v4: false,
    has_v6: false,
    has_counts: false,
    has_back: false,
    is_event: false,
    src_v4: 0,
    dst_v4: 0,
    src_high: 0,
    src_low: 0,
    dst_high: 0,
    dst_low: 0,
    first: 0,
    last: 0,
    packets: 0,
    octets: 0,
    sport: 0,
    dport: 0,
    protocol: 0,
    flags: 0,
    packets_back: 0,
    octets_back: 0,
};

impl Flow {
    // Adds what the element with the counts says.
    #[inline(always)]
    fn add_counts(&mut self, body: &[u8])
        requires { length body.now ≡ 48 }
        ensures { self.new ≡ with_counts self.old body.now }
    {
        self.has_counts = true;
        self.first = LittleEndian::read_u64(body);
        self.last = LittleEndian::read_u64(&body[8..]);
        self.packets = LittleEndian::read_u64(&body[24..]);
        self.octets = LittleEndian::read_u64(&body[32..]);
        self.sport = LittleEndian::read_u16(&body[40..]);
        self.dport = LittleEndian::read_u16(&body[42..]);
        self.protocol = body[44];
        self.flags = body[45];
    }

    // Adds IPv4 addresses.
    #[inline(always)]
    fn add_v4(&mut self, body: &[u8])
        requires { length body.now ≡ 8 }
        ensures { self.new ≡ with_v4 self.old body.now }
    {
        self.has_v4 = true;
        self.src_v4 = LittleEndian::read_u32(body);
        self.dst_v4 = LittleEndian::read_u32(&body[4..]);
    }

    // Adds IPv6 addresses.
    #[inline(always)]
    fn add_v6(&mut self, body: &[u8])
        requires { length body.now ≡ 32 }
        ensures { self.new ≡ with_v6 self.old body.now }
    {
        self.has_v6 = true;
        self.src_high = LittleEndian::read_u64(body);
        self.src_low = LittleEndian::read_u64(&body[8..]);
        self.dst_high = LittleEndian::read_u64(&body[16..]);
        self.dst_low = LittleEndian::read_u64(&body[24..]);
    }

    // Adds the counts of the other direction.
    #[inline(always)]
    fn add_back(&mut self, body: &[u8])
        requires { length body.now ≡ 24 }
        ensures { self.new ≡ with_back self.old body.now }
    {
        self.has_back = true;
        self.packets_back = LittleEndian::read_u64(&body[8..]);
        self.octets_back = LittleEndian::read_u64(&body[16..]);
    }

    // Adds what an element with this number and these bytes says.
    #[inline(always)]
    fn add_element(&mut self, kind: u16, body: &[u8]) -> Result<(), FlowFileFaultKind>
        ensures ok { OnOk result (with_element self.old kind body.now ≡ Ok self.new) }
        ensures err { IfErr result (λ fault. with_element self.old kind body.now ≡ Err fault) }
    {
        match kind {
            1 => {
                if self.has_counts {
                    return Err(FlowFileFaultKind::RepeatedElement);
                }
                if body.len() != 48 {
                    return Err(FlowFileFaultKind::BadRecord);
                }
                self.add_counts(body);
            }
            2 => {
                if self.has_v4 {
                    return Err(FlowFileFaultKind::RepeatedElement);
                }
                if body.len() != 8 {
                    return Err(FlowFileFaultKind::BadRecord);
                }
                self.add_v4(body);
            }
            3 => {
                if self.has_v6 {
                    return Err(FlowFileFaultKind::RepeatedElement);
                }
                if body.len() != 32 {
                    return Err(FlowFileFaultKind::BadRecord);
                }
                self.add_v6(body);
            }
            5 => {
                if self.has_back {
                    return Err(FlowFileFaultKind::RepeatedElement);
                }
                if body.len() != 24 {
                    return Err(FlowFileFaultKind::BadRecord);
                }
                self.add_back(body);
            }
            _ => {}
        }
        Ok(())
    }
}

// Returns the flow of these many elements, which are exactly the bytes.
fn flow_of_elements(count: u16, bytes: &[u8]) -> Result<Flow, FlowFileFaultKind>
    ensures ok { IfOk result (λ flow. with_elements count no_elements bytes.now ≡ Ok flow) }
    ensures err { IfErr result (λ fault. with_elements count no_elements bytes.now ≡ Err fault) }
{
    let mut flow = NOTHING;
    let mut left = count;
    let mut rest = bytes;
    while left > 0 {
        if rest.len() < 4 {
            return Err(FlowFileFaultKind::BadRecord);
        }
        let size = usize::from(LittleEndian::read_u16(&rest[2..]));
        if size < 4 {
            return Err(FlowFileFaultKind::BadRecord);
        }
        if rest.len() < size {
            return Err(FlowFileFaultKind::BadRecord);
        }
        let (element, after) = rest.split_at(size);
        flow.add_element(LittleEndian::read_u16(rest), &element[4..])?;
        rest = after;
        left -= 1;
    }
    if rest.is_empty() {
        Ok(flow)
    } else {
        Err(FlowFileFaultKind::BadRecord)
    }
}

/// Returns the flow of a record, given all its bytes. It may be sampled only if this is allowed.
pub fn flow_of_record(allow_sampled: bool, bytes: &[u8]) -> Result<Flow, FlowFileFaultKind>
    ensures ok { IfOk result (λ flow. flow_of_record allow_sampled bytes.now ≡ Ok flow) }
    ensures err { IfErr result (λ fault. flow_of_record allow_sampled bytes.now ≡ Err fault) }
{
    if bytes.len() < 12 {
        return Err(FlowFileFaultKind::BadRecord);
    }
    if !allow_sampled && bytes[10] / 2 % 2 == 1 {
        return Err(FlowFileFaultKind::Sampled);
    }
    let flow = flow_of_elements(LittleEndian::read_u16(&bytes[4..]), &bytes[12..])?;
    if flow.has_counts && (flow.has_v4 || flow.has_v6) {
        let is_event = bytes[10] % 2 == 1;
        Ok(Flow { is_event, ..flow })
    } else {
        Err(FlowFileFaultKind::BadFlow)
    }
}
