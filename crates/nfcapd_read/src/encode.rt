//! The IPFIX messages of flows.
ghost use Rattle.std.specs.Prelude.{◌≡◌, ◌++◌, ◌+◌, ◌≤◌, length, slice_range, take};
ghost use Rattle.nfcapd_read.specs.Encode.{back_rest, forward_rest, is_icmp, is_no_flow, is_one_way, message};
ghost use Rattle.nfcapd_read.specs.Encode.{message_head, records_v4, records_v6, rest_bytes, wire};

use crate::flow::Flow;
use byteorder::{BigEndian, ByteOrder};

/// The message with the templates of IPv4 records, with the ID 256, and of IPv6 records, with the ID 257.
pub const TEMPLATES: [u8; 108] = [
    0, 10, 0, 108, 0, 0, 0, 0, 0, 0, 0, 0, 0, 0, 0, 1, 0, 2, 0, 92, 1, 0, 0, 10, 0, 8, 0, 4, 0, 12,
    0, 4, 0, 7, 0, 2, 0, 11, 0, 2, 0, 4, 0, 1, 0, 6, 0, 1, 0, 2, 0, 8, 0, 1, 0, 8, 0, 152, 0, 8, 0,
    153, 0, 8, 1, 1, 0, 10, 0, 27, 0, 16, 0, 28, 0, 16, 0, 7, 0, 2, 0, 11, 0, 2, 0, 4, 0, 1, 0, 6,
    0, 1, 0, 2, 0, 8, 0, 1, 0, 8, 0, 152, 0, 8, 0, 153, 0, 8,
];

/// A message is ended once its records have more bytes.
pub const LIMIT: usize = 65_000;

// What a data record has after its addresses.
#[derive(Clone, Copy)]
pub struct Rest {
    pub sport: u16,
    pub dport: u16,
    pub protocol: u8,
    pub flags: u8,
    pub packets: u64,
    pub octets: u64,
    pub first: u64,
    pub last: u64,
}

// Writes a number at a place, and returns the place after it.
#[inline(always)]
fn put_u16(out: &mut [u8], at: usize, number: u16) -> usize
    requires { at + 2 ≤ length out.old }
    ensures end { result ≡ at + 2 }
    ensures put { take result out.new ≡ take at out.old ++ wire 2 number }
{
    BigEndian::write_u16(&mut out[at..], number);
    at + 2
}

#[inline(always)]
fn put_u32(out: &mut [u8], at: usize, number: u32) -> usize
    requires { at + 4 ≤ length out.old }
    ensures end { result ≡ at + 4 }
    ensures put { take result out.new ≡ take at out.old ++ wire 4 number }
{
    BigEndian::write_u32(&mut out[at..], number);
    at + 4
}

#[inline(always)]
fn put_u64(out: &mut [u8], at: usize, number: u64) -> usize
    requires { at + 8 ≤ length out.old }
    ensures end { result ≡ at + 8 }
    ensures put { take result out.new ≡ take at out.old ++ wire 8 number }
{
    BigEndian::write_u64(&mut out[at..], number);
    at + 8
}

#[inline(always)]
fn put_u8(out: &mut [u8], at: usize, number: u8) -> usize
    requires { at + 1 ≤ length out.old }
    ensures end { result ≡ at + 1 }
    ensures put { take result out.new ≡ take at out.old ++ wire 1 number }
{
    out[at] = number;
    at + 1
}

#[inline(always)]
fn put_rest(out: &mut [u8], at: usize, rest: &Rest) -> usize
    requires { at + 38 ≤ length out.old }
    ensures end { result ≡ at + 38 }
    ensures put { take result out.new ≡ take at out.old ++ rest_bytes rest.now }
{
    let at = put_u16(out, at, rest.sport);
    let at = put_u16(out, at, rest.dport);
    let at = put_u8(out, at, rest.protocol);
    let at = put_u8(out, at, rest.flags);
    let at = put_u64(out, at, rest.packets);
    let at = put_u64(out, at, rest.octets);
    let at = put_u64(out, at, rest.first);
    put_u64(out, at, rest.last)
}

fn is_icmp(flow: &Flow) -> bool
    ensures { result ≡ is_icmp flow.now }
{
    flow.protocol == 1 || flow.protocol == 58
}

fn is_one_way(flow: &Flow) -> bool
    ensures { result ≡ is_one_way flow.now }
{
    flow.packets_back == 0 && flow.octets_back == 0
}

fn is_no_flow(flow: &Flow) -> bool
    ensures { result ≡ is_no_flow flow.now }
{
    flow.is_event && flow.packets == 0 && flow.octets == 0 && is_one_way(flow)
}

#[inline(always)]
fn forward_rest(flow: &Flow) -> Rest
    ensures { result ≡ forward_rest flow.now }
{
    let is_icmp = is_icmp(flow);
    Rest {
        sport: if is_icmp { 0 } else { flow.sport },
        dport: flow.dport,
        protocol: flow.protocol,
        flags: if is_icmp { 0 } else { flow.flags },
        packets: flow.packets,
        octets: flow.octets,
        first: flow.first,
        last: flow.last,
    }
}

#[inline(always)]
fn back_rest(flow: &Flow) -> Rest
    ensures { result ≡ back_rest flow.now }
{
    Rest {
        sport: flow.dport,
        dport: if is_icmp(flow) { 0 } else { flow.sport },
        protocol: flow.protocol,
        flags: 0,
        packets: flow.packets_back,
        octets: flow.octets_back,
        first: flow.first,
        last: flow.last,
    }
}

#[inline(always)]
fn put_v4(out: &mut [u8], at: usize, src: u32, dst: u32, rest: &Rest) -> usize
    requires { at + 46 ≤ length out.old }
    ensures end { result ≡ at + 46 }
    ensures put { take result out.new
        ≡ take at out.old ++ (wire 4 src ++ wire 4 dst ++ rest_bytes rest.now) }
{
    let at = put_u32(out, at, src);
    let at = put_u32(out, at, dst);
    put_rest(out, at, rest)
}

// Writes an IPv6 address, given as its higher 64 bits and the lower ones.
#[inline(always)]
fn put_address(out: &mut [u8], at: usize, high: u64, low: u64) -> usize
    requires { at + 16 ≤ length out.old }
    ensures end { result ≡ at + 16 }
    ensures put { take result out.new ≡ take at out.old ++ (wire 8 high ++ wire 8 low) }
{
    let at = put_u64(out, at, high);
    put_u64(out, at, low)
}

#[inline(always)]
fn put_v6(out: &mut [u8], at: usize, src: (u64, u64), dst: (u64, u64), rest: &Rest) -> usize
    requires { at + 70 ≤ length out.old }
    ensures end { result ≡ at + 70 }
    ensures put { take result out.new ≡ take at out.old
        ++ ((wire 8 src.0 ++ wire 8 src.1) ++ (wire 8 dst.0 ++ wire 8 dst.1)
        ++ rest_bytes rest.now) }
{
    let at = put_address(out, at, src.0, src.1);
    let at = put_address(out, at, dst.0, dst.1);
    put_rest(out, at, rest)
}

/// Writes the IPv4 records of a flow at a place, and returns the place after them.
pub fn put_records_v4(out: &mut [u8], at: usize, flow: &Flow) -> usize
    requires { at + 92 ≤ length out.old }
    ensures least { at ≤ result }
    ensures most { result ≤ at + 92 }
    ensures put { take result out.new ≡ take at out.old ++ records_v4 flow.now }
{
    if is_no_flow(flow) {
        return at;
    }
    if !flow.has_v4 {
        return at;
    }
    let at = put_v4(out, at, flow.src_v4, flow.dst_v4, &forward_rest(flow));
    if is_one_way(flow) {
        return at;
    }
    put_v4(out, at, flow.dst_v4, flow.src_v4, &back_rest(flow))
}

/// Writes the IPv6 records of a flow at a place, and returns the place after them.
pub fn put_records_v6(out: &mut [u8], at: usize, flow: &Flow) -> usize
    requires { at + 140 ≤ length out.old }
    ensures least { at ≤ result }
    ensures most { result ≤ at + 140 }
    ensures put { take result out.new ≡ take at out.old ++ records_v6 flow.now }
{
    if is_no_flow(flow) {
        return at;
    }
    if flow.has_v4 {
        return at;
    }
    let src = (flow.src_high, flow.src_low);
    let dst = (flow.dst_high, flow.dst_low);
    let at = put_v6(out, at, src, dst, &forward_rest(flow));
    if is_one_way(flow) {
        return at;
    }
    put_v6(out, at, dst, src, &back_rest(flow))
}

// Writes the header of a message and of its set of IPv4 records.
fn put_head(out: &mut [u8], four: usize, six: usize)
    requires room { 20 ≤ length out.old }
    requires size { 24 + four + six ≤ 65535 }
    ensures { take 20 out.new ≡ message_head four six }
{
    let at = put_u16(out, 0, 10);
    let at = put_u16(out, at, (24 + four + six) as u16);
    let at = put_u64(out, at, 0);
    let at = put_u32(out, at, 1);
    let at = put_u16(out, at, 256);
    put_u16(out, at, (4 + four) as u16);
}

/// Ends the message whose IPv4 records are the bytes from 20 to a place, with these IPv6 records, and returns its
/// length.
pub fn end_message(out: &mut [u8], at: usize, six: &[u8]) -> usize
    requires least { 20 ≤ at }
    requires size { at + 4 + length six.now ≤ 65535 }
    requires room { at + 4 + length six.now ≤ length out.old }
    ensures end { result ≡ at + 4 + length six.now }
    ensures put { take result out.new ≡ message (slice_range out.old 20 at) six.now }
{
    put_head(&mut out[..20], at - 20, six.len());
    let at = put_u16(out, at, 257);
    let at = put_u16(out, at, (4 + six.len()) as u16);
    let end = at + six.len();
    out[at..end].copy_from_slice(six);
    end
}
