//! The message that is being put together.
ghost use Rattle.std.specs.Prelude.{◌≡◌, ◌++◌, ◌+◌, ◌<◌, ◌≤◌, IfOk, length, nat_lt, take, vec_len};
ghost use Rattle.nfcapd_read.specs.Encode.{message, records_v4, records_v6};
ghost use Rattle.nfcapd_read.specs.declared.encode.TheConstants.{LIMIT};

use crate::encode::{LIMIT, end_message, put_records_v4, put_records_v6};
use crate::flow::Flow;
use std::alloc::{AllocError, Global};

// The length of a message's header and that of its first set.
const HEAD: usize = 20;

// The room for a message.
const MESSAGE_ROOM: usize = 65_536;

/// The records of a message: those of IPv4 are `out` from 20 to `at`, where the message is put together, and those of
/// IPv6 the first `count` bytes of `six`.
#[derive(Drop)]
pub struct Pending {
    out: Vec<u8>,
    six: Vec<u8>,
    at: usize,
    count: usize,
    ghost sized: { (vec_len out ≡ 65536) × (vec_len six ≡ 65536) },
    ghost least: { 20 ≤ at },
    ghost few: { at + count ≤ 65252 },
}

impl Pending {
    ghost use Rattle.nfcapd_read.specs.Pending.{four_in, six_in};

    /// Returns a message without records.
    pub fn new(alloc: Global) -> Result<Pending, AllocError>
        ensures none { IfOk result (λ pending. (pending.at ≡ 20) × (pending.count ≡ 0)) }
    {
        Ok(Pending {
            out: vec![in alloc; 0u8; MESSAGE_ROOM]?,
            six: vec![in alloc; 0u8; MESSAGE_ROOM]?,
            at: HEAD,
            count: 0,
        })
    }

    /// Adds the records of a flow, and returns whether the message has so many that it must be ended.
    pub fn add(&mut self, flow: &Flow) -> bool
        requires { length (four_in self.old) + length (six_in self.old) ≤ 65000 }
        ensures four { four_in self.new ≡ four_in self.old ++ records_v4 flow.now }
        ensures six { six_in self.new ≡ six_in self.old ++ records_v6 flow.now }
        ensures full { result ≡ nat_lt LIMIT (length (four_in self.new) + length (six_in self.new)) }
    {
        self.at = put_records_v4(self.out.as_mut_slice(), self.at, flow);
        self.count = put_records_v6(self.six.as_mut_slice(), self.count, flow);
        LIMIT < self.at - HEAD + self.count
    }

    /// Ends the message, which is then the first bytes of `out`, and returns its length. The next message has no
    /// records yet.
    pub fn end(&mut self) -> usize
        ensures within { (0 < result) × (result ≤ vec_len self.new.out) }
        ensures put { take result self.new.out.items ≡ message (four_in self.old) (six_in self.old) }
        ensures none { (self.new.at ≡ 20) × (self.new.count ≡ 0) }
    {
        let end = end_message(self.out.as_mut_slice(), self.at, &self.six[..self.count]);
        self.at = HEAD;
        self.count = 0;
        end
    }

    /// Returns the bytes of the message that was ended last, and other bytes.
    pub fn bytes(&self) -> &[u8]
        ensures { result.now ≡ self.now.out.items }
    {
        self.out.as_slice()
    }
}
