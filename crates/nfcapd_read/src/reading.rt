//! Reading a file, one part after another.
ghost use Rattle.std.specs.Prelude.{◌≡◌, ◌≤◌, ◌<◌, ◌+◌, ◌^◌, IfErr, IfOk, OnOk, length, nat_lt, if◌then◌else◌};
ghost use Rattle.nfcapd_read.specs.Reading.{after_block, after_flow, after_header, after_part, after_record};
ghost use Rattle.nfcapd_read.specs.Reading.{after_stage, closed, compared, counted, counts_left, head_size};
ghost use Rattle.nfcapd_read.specs.Reading.{is_end, is_misplaced, part_size};
ghost use Rattle.nfcapd_read.specs.Reading.{parts_left, passed, started};

use crate::fault::FlowFileFaultKind;
use crate::flow::{Flow, flow_of_record};
use byteorder::{ByteOrder, LittleEndian};

/// What comes next in a file.
#[derive(Clone, Copy, PartialEq, Eq)]
pub enum Stage {
    /// The header of the file.
    Header,
    /// The header of a block.
    Block,
    /// A record of a block.
    Record,
    /// The end of the file.
    End,
}

/// How far a file is read.
#[derive(Clone, Copy)]
pub struct Reading {
    /// Whether sampled flows are allowed.
    pub allow_sampled: bool,
    /// What comes next, and its offset in the file, modulo 2^64.
    pub stage: Stage,
    pub offset: u64,
    /// The number of blocks whose headers come later. The last block is the appendix, which has the totals.
    pub blocks: u64,
    /// The offset of the appendix, by the header of the file.
    pub appendix: u64,
    /// The number of records that the block still has.
    pub records: u32,
    /// The number of bytes that they have.
    pub room: u32,
    /// The flows, packets and bytes so far, each modulo 2^64.
    pub flows: u64,
    pub packets: u64,
    pub octets: u64,
    /// Whether totals were read, which were those of the flows.
    pub agrees: bool,
}

// The first number of a file of nfcapd.
pub const MAGIC: u16 = 0xA50C;

// The size of the record of the totals.
const TOTALS_SIZE: usize = 148;

impl Reading {
    /// Returns that of a file of which nothing was read.
    pub fn start(allow_sampled: bool) -> Reading
        ensures { result ≡ started allow_sampled }
    {
        Reading {
            allow_sampled,
            stage: Stage::Header,
            offset: 0,
            blocks: 0,
            appendix: 0,
            records: 0,
            room: 0,
            flows: 0,
            packets: 0,
            octets: 0,
            agrees: false,
        }
    }

    /// Returns whether the file ends here.
    pub fn is_at_end(&self) -> bool
        ensures { result ≡ is_end self.now.stage }
    {
        matches!(self.stage, Stage::End)
    }

    /// Returns the number of bytes that tell the size of the next part.
    pub fn head_size(&self) -> usize
        ensures value { result ≡ head_size self.now.stage }
        ensures least { 0 < result }
        ensures most { result ≤ 40 }
    {
        match self.stage {
            Stage::Header => 40,
            Stage::Block => 12,
            Stage::Record => 4,
            Stage::End => 1,
        }
    }

    /// Returns the size of the next part, which begins with these bytes.
    pub fn part_size(&self, head: &[u8]) -> Result<usize, FlowFileFaultKind>
        requires { head_size self.now.stage ≤ length head.now }
        ensures ok { IfOk result (λ size. part_size self.now head.now ≡ Ok size) }
        ensures least { IfOk result (λ size. head_size self.now.stage ≤ size) }
        ensures most { IfOk result (λ size. size ≤ 65535) }
        ensures err { IfErr result (λ kind. part_size self.now head.now ≡ Err kind) }
    {
        match self.stage {
            Stage::Header => Ok(40),
            Stage::Block => Ok(12),
            Stage::Record => {
                let size = LittleEndian::read_u16(&head[2..]);
                if size < 4 {
                    return Err(FlowFileFaultKind::BadRecord);
                }
                if self.room < u32::from(size) {
                    return Err(FlowFileFaultKind::BadRecord);
                }
                Ok(usize::from(size))
            }
            Stage::End => Err(FlowFileFaultKind::BytesLeft),
        }
    }

    // Goes on after the header of a block, or a record of it.
    fn close(&mut self) -> Result<(), FlowFileFaultKind>
        ensures ok { OnOk result (closed self.old ≡ Ok self.new) }
        ensures err { IfErr result (λ kind. closed self.old ≡ Err kind) }
        ensures left { OnOk result
            (parts_left self.new ≤ counts_left self.old + (if nat_lt 0 self.old.records then 2 else 1)) }
    {
        if self.records > 0 {
            self.stage = Stage::Record;
            return Ok(());
        }
        if self.room > 0 {
            return Err(FlowFileFaultKind::BadBlock);
        }
        if self.blocks > 0 {
            self.stage = Stage::Block;
            return Ok(());
        }
        if self.agrees {
            self.stage = Stage::End;
            return Ok(());
        }
        Err(FlowFileFaultKind::TotalsDiffer)
    }

    /// Passes over the bytes of the next part.
    pub fn pass(&mut self, size: usize)
        ensures { self.new ≡ passed self.old size }
    {
        self.offset = self.offset.wrapping_add(size as u64);
    }

    /// Goes on after the header of the file.
    pub fn take_header(&mut self, part: &[u8]) -> Result<(), FlowFileFaultKind>
        requires { 40 ≤ length part.now }
        ensures ok { OnOk result (after_header self.old part.now ≡ Ok self.new) }
        ensures err { IfErr result (λ kind. after_header self.old part.now ≡ Err kind) }
        ensures left { OnOk result (parts_left self.new < 2 ^ 70) }
    {
        if LittleEndian::read_u16(part) != MAGIC || LittleEndian::read_u16(&part[2..]) != 2 {
            return Err(FlowFileFaultKind::OtherLayout);
        }
        if part[16] != 0 {
            return Err(FlowFileFaultKind::Compressed);
        }
        if part[17] != 0 {
            return Err(FlowFileFaultKind::Encrypted);
        }
        if LittleEndian::read_u16(&part[18..]) != 1 {
            return Err(FlowFileFaultKind::Unfinished);
        }
        self.stage = Stage::Block;
        self.appendix = LittleEndian::read_u64(&part[24..]);
        self.blocks = u64::from(LittleEndian::read_u32(&part[36..])) + 1;
        Ok(())
    }

    // Returns whether the next block is the appendix, and not at its offset.
    fn is_misplaced(&self) -> bool
        ensures { result ≡ is_misplaced self.now }
    {
        self.blocks == 1 && self.offset != self.appendix
    }

    // Goes on after the header of a block.
    fn take_block(&mut self, part: &[u8]) -> Result<(), FlowFileFaultKind>
        requires { 12 ≤ length part.now }
        ensures ok { OnOk result (after_block self.old part.now ≡ Ok self.new) }
        ensures err { IfErr result (λ kind. after_block self.old part.now ≡ Err kind) }
        ensures left { OnOk result (parts_left self.new < counts_left self.old) }
    {
        if self.blocks == 0 {
            return Err(FlowFileFaultKind::BadBlock);
        }
        if LittleEndian::read_u16(&part[8..]) != 3 {
            return Err(FlowFileFaultKind::BadBlock);
        }
        if self.is_misplaced() {
            return Err(FlowFileFaultKind::BadAppendix);
        }
        self.blocks -= 1;
        self.records = LittleEndian::read_u32(part);
        self.room = LittleEndian::read_u32(&part[4..]);
        self.close()
    }

    // Counts a flow.
    fn count(&mut self, flow: &Flow)
        ensures value { self.new ≡ counted self.old flow.now }
        ensures left { counts_left self.new ≡ counts_left self.old }
    {
        self.flows = self.flows.wrapping_add(1);
        let packets = flow.packets.wrapping_add(flow.packets_back);
        self.packets = self.packets.wrapping_add(packets);
        let octets = flow.octets.wrapping_add(flow.octets_back);
        self.octets = self.octets.wrapping_add(octets);
    }

    // Compares the totals in a record with those of the flows.
    fn compare(&mut self, part: &[u8]) -> Result<(), FlowFileFaultKind>
        ensures ok { OnOk result (compared self.old part.now ≡ Ok self.new) }
        ensures err { IfErr result (λ kind. compared self.old part.now ≡ Err kind) }
        ensures left { OnOk result (counts_left self.new ≡ counts_left self.old) }
    {
        if part.len() != TOTALS_SIZE {
            return Err(FlowFileFaultKind::TotalsDiffer);
        }
        if LittleEndian::read_u64(&part[4..]) != self.flows {
            return Err(FlowFileFaultKind::TotalsDiffer);
        }
        if LittleEndian::read_u64(&part[12..]) != self.octets {
            return Err(FlowFileFaultKind::TotalsDiffer);
        }
        if LittleEndian::read_u64(&part[20..]) != self.packets {
            return Err(FlowFileFaultKind::TotalsDiffer);
        }
        self.agrees = true;
        Ok(())
    }

    // Goes on after the record of a flow.
    fn take_flow(&mut self, part: &[u8]) -> Result<Option<Flow>, FlowFileFaultKind>
        ensures ok { IfOk result (λ flow. after_flow self.old part.now ≡ Ok (self.new, flow)) }
        ensures err { IfErr result (λ kind. after_flow self.old part.now ≡ Err kind) }
        ensures left { IfOk result (λ _. parts_left self.new
            ≤ counts_left self.old + (if nat_lt 0 self.old.records then 2 else 1)) }
    {
        match flow_of_record(self.allow_sampled, part) {
            Ok(flow) => {
                self.count(&flow);
                match self.close() {
                    Ok(()) => Ok(Some(flow)),
                    Err(kind) => Err(kind),
                }
            }
            Err(kind) => Err(kind),
        }
    }

    // Goes on after a record, which may have a flow.
    fn take_record(&mut self, part: &[u8]) -> Result<Option<Flow>, FlowFileFaultKind>
        requires size { 4 ≤ length part.now }
        requires room { length part.now ≤ self.old.room }
        ensures ok { IfOk result (λ flow. after_record self.old part.now ≡ Ok (self.new, flow)) }
        ensures err { IfErr result (λ kind. after_record self.old part.now ≡ Err kind) }
        ensures left { OnOk result (parts_left self.new < counts_left self.old + 2) }
    {
        let kind = LittleEndian::read_u16(part);
        let room = self.room;
        self.room = room - part.len() as u32;
        self.records = self.records.saturating_sub(1);
        if self.blocks == 0 {
            if kind == 0x8002 {
                self.compare(part)?;
            }
            self.close()?;
            return Ok(None);
        }
        if kind == 1 || kind == 2 || kind == 10 {
            return Err(FlowFileFaultKind::OldRecord);
        }
        if kind != 11 {
            self.close()?;
            return Ok(None);
        }
        self.take_flow(part)
    }

    // Goes on after the next part, whatever its size.
    fn take_stage(&mut self, part: &[u8]) -> Result<Option<Flow>, FlowFileFaultKind>
        requires { part_size self.old part.now ≡ Ok (length part.now) }
        ensures ok { IfOk result (λ flow. after_stage self.old.stage self.old part.now ≡ Ok (self.new, flow)) }
        ensures err { IfErr result (λ kind. after_stage self.old.stage self.old part.now ≡ Err kind) }
        ensures left { OnOk result (parts_left self.new < parts_left self.old) }
    {
        match self.stage {
            Stage::Header => {
                self.take_header(part)?;
                Ok(None)
            }
            Stage::Block => {
                self.take_block(part)?;
                Ok(None)
            }
            Stage::Record => self.take_record(part),
            Stage::End => Err(FlowFileFaultKind::BytesLeft),
        }
    }

    /// Goes on after the next part, which is these bytes. It may have a flow.
    pub fn take_part(&mut self, part: &[u8]) -> Result<Option<Flow>, FlowFileFaultKind>
        requires { part_size self.old part.now ≡ Ok (length part.now) }
        ensures ok { IfOk result (λ flow. after_part self.old part.now ≡ Ok (self.new, flow)) }
        ensures err { IfErr result (λ kind. after_part self.old part.now ≡ Err kind) }
        ensures left { OnOk result (parts_left self.new < parts_left self.old) }
    {
        let flow = self.take_stage(part)?;
        self.pass(part.len());
        Ok(flow)
    }
}
