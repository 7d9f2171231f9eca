//! Reading a file of nfcapd as the IPFIX File that it represents.
ghost use Rattle.std.specs.Prelude.{◌≡◌, ◌≤◌, ◌<◌, ◌++◌, length, take, vec_len};
ghost use Rattle.std.specs.Prelude.{IfErr, IfOk, IfSome, MatchResult, OnOk, None, Ok};
ghost use Rattle.std.specs.Result.{result_map_both};
ghost use Rattle.flow_io.specs.Devices.{ReadsInput, has_ended};
ghost use Rattle.nfcapd_read.specs.Gathering.{GathersPart, StopsOf, front_in};
ghost use Rattle.nfcapd_read.specs.Making.{GoesOn, IsEmpty, IsOpen, LeavesLess, Makes};
ghost use Rattle.nfcapd_read.specs.Opening.{Begins, Converts, EndsBy, Opens, StopsAs};
ghost use Rattle.nfcapd_read.specs.declared.encode.TheConstants.{TEMPLATES};
ghost use Rattle.nfcapd_read.specs.declared.file.Stop.TheVariants.{NoMemory};
ghost use Rattle.nfcapd_read.specs.Reading.{after_part, head_size, part_size, parts_left, started};

use crate::encode::TEMPLATES;
use crate::fault::{FlowFileFault, FlowFileFaultKind};
use crate::pending::Pending;
use crate::reading::{MAGIC, Reading};
use byteorder::{ByteOrder, LittleEndian};
use flow_io::{Input, fill};
use std::alloc::{AllocError, Global};

// The most bytes that a part has.
const LONGEST_PART: usize = 65_535;

/// Why a part was not read.
#[derive(Clone, Copy)]
pub enum PartStop {
    /// The reader failed.
    Device,
    /// The part has a fault.
    Fault(FlowFileFault),
}

// Reads the next part to the start of a buffer, and returns its size. Returns `None` at the end of the input.
#[inline(always)]
fn gather<R: Input>(
    reader: &mut R,
    now: &Reading,
    part: &mut [u8],
) -> Result<Option<usize>, PartStop>
    requires { length part.old ≡ 65535 }
    ensures gathers { ReadsInput (R.input reader.old) (R.input reader.new)
        (GathersPart now.now (result_map_both (front_in part.new) (λ stop. stop) result)
        (has_ended (R.input reader.new))) }
    ensures within { IfOk result (λ next. IfSome next (λ size. size ≤ length part.new)) }
    ensures device { MatchResult result (λ _. (R.input reader.new).failed ≡ (R.input reader.old).failed)
        (λ stop. StopsOf (R.input reader.old).failed (R.input reader.new).failed stop) }
{
    let head = now.head_size();
    let Ok(count) = fill(reader, &mut part[..head]) else {
        return Err(PartStop::Device);
    };
    if count == 0 {
        return Ok(None);
    }
    if count < head {
        let (kind, offset) = (FlowFileFaultKind::Truncated, now.offset);
        return Err(PartStop::Fault(FlowFileFault { kind, offset }));
    }
    let size = match now.part_size(&part[..head]) {
        Ok(size) => size,
        Err(kind) => {
            let offset = now.offset;
            return Err(PartStop::Fault(FlowFileFault { kind, offset }));
        }
    };
    let Ok(count) = fill(reader, &mut part[head..size]) else {
        return Err(PartStop::Device);
    };
    if count < size - head {
        let (kind, offset) = (FlowFileFaultKind::Truncated, now.offset);
        return Err(PartStop::Fault(FlowFileFault { kind, offset }));
    }
    Ok(Some(size))
}

/// A message that was made, with its length.
#[derive(Clone, Copy)]
pub enum Made {
    /// Others may follow.
    Message(usize),
    /// It is the last one.
    Last(usize),
}

// Goes on after a part, and adds its flow, if it has one, to the message. Returns the length of the message if the flow
// ends it.
fn go_on(
    reading: &mut Reading,
    pending: &mut Pending,
    part: &[u8],
) -> Result<Option<usize>, FlowFileFault>
    requires head { head_size reading.old.stage ≤ length part.now }
    requires some { 0 < length part.now }
    requires whole { part_size reading.old part.now ≡ Ok (length part.now) }
    requires few { IsOpen pending.old }
    ensures goes { GoesOn reading.old pending.old part.now result reading.new pending.new }
    ensures left { OnOk result (parts_left reading.new < parts_left reading.old) }
{
    let offset = reading.offset;
    match reading.take_part(part) {
        Ok(None) => Ok(None),
        Ok(Some(flow)) => {
            if pending.add(&flow) {
                return Ok(Some(pending.end()));
            }
            Ok(None)
        }
        Err(kind) => Err(FlowFileFault { kind, offset }),
    }
}

// Reads parts, and makes the next message of their flows.
fn make_message<R: Input>(
    reader: &mut R,
    reading: &mut Reading,
    pending: &mut Pending,
    part: &mut [u8],
) -> Result<Made, PartStop>
    requires part { length part.old ≡ 65535 }
    requires few { IsOpen pending.old }
    ensures makes { ReadsInput (R.input reader.old) (R.input reader.new)
        (Makes reading.old pending.old result reading.new pending.new (has_ended (R.input reader.new))) }
    ensures left { LeavesLess reading.old result reading.new }
    ensures device { MatchResult result (λ _. (R.input reader.new).failed ≡ (R.input reader.old).failed)
        (λ stop. StopsOf (R.input reader.old).failed (R.input reader.new).failed stop) }
{
    loop {
        let size = match gather(reader, reading, part) {
            Ok(Some(size)) => size,
            Ok(None) => break,
            Err(stop) => return Err(stop),
        };
        match go_on(reading, pending, &part[..size]) {
            Ok(None) => {}
            Ok(Some(size)) => return Ok(Made::Message(size)),
            Err(fault) => return Err(PartStop::Fault(fault)),
        }
    }
    if reading.is_at_end() {
        return Ok(Made::Last(pending.end()));
    }
    let (kind, offset) = (FlowFileFaultKind::Truncated, reading.offset);
    Err(PartStop::Fault(FlowFileFault { kind, offset }))
}

/// How a text begins.
#[derive(Clone, Copy)]
pub enum Begun {
    /// It has fewer than two bytes.
    Short(usize),
    /// It is no file of nfcapd.
    Other,
    /// It is a file of nfcapd, whose header was read.
    Flows(Reading),
}

// Reads the header of a file, which is the first bytes.
fn read_header(allow_sampled: bool, part: &[u8]) -> Result<Reading, FlowFileFaultKind>
    requires { 40 ≤ length part.now }
    ensures ok { IfOk result (λ next. after_part (started allow_sampled) (take 40 part.now) ≡ Ok (next, None)) }
    ensures err { IfErr result (λ kind. after_part (started allow_sampled) (take 40 part.now) ≡ Err kind) }
{
    let header = &part[..40];
    let mut reading = Reading::start(allow_sampled);
    match reading.take_header(header) {
        Ok(()) => {
            reading.pass(header.len());
            Ok(reading)
        }
        Err(kind) => Err(kind),
    }
}

// Reads the first bytes of a text to the start of a buffer.
fn begin<R: Input>(reader: &mut R, allow_sampled: bool, part: &mut [u8]) -> Result<Begun, PartStop>
    requires { length part.old ≡ 40 }
    ensures begins { ReadsInput (R.input reader.old) (R.input reader.new)
        (Begins allow_sampled part.new result (has_ended (R.input reader.new))) }
    ensures device { MatchResult result (λ _. (R.input reader.new).failed ≡ (R.input reader.old).failed)
        (λ stop. StopsOf (R.input reader.old).failed (R.input reader.new).failed stop) }
{
    let Ok(count) = fill(reader, &mut part[..2]) else {
        return Err(PartStop::Device);
    };
    if count < 2 {
        return Ok(Begun::Short(count));
    }
    if LittleEndian::read_u16(part) != MAGIC {
        return Ok(Begun::Other);
    }
    let Ok(count) = fill(reader, &mut part[2..40]) else {
        return Err(PartStop::Device);
    };
    if count < 38 {
        let kind = FlowFileFaultKind::Truncated;
        return Err(PartStop::Fault(FlowFileFault { kind, offset: 0 }));
    }
    match read_header(allow_sampled, part) {
        Ok(next) => Ok(Begun::Flows(next)),
        Err(kind) => Err(PartStop::Fault(FlowFileFault { kind, offset: 0 })),
    }
}

/// Why a text was not read.
#[derive(Clone, Copy)]
pub enum Stop {
    /// The reader failed.
    Device,
    /// An allocation failed.
    NoMemory,
    /// The text has a fault.
    Fault(FlowFileFault),
}

// Returns why a text was not read, if a part of it was not.
fn stop_of(stop: PartStop) -> Stop
    ensures { StopsAs stop result }
{
    match stop {
        PartStop::Device => Stop::Device,
        PartStop::Fault(fault) => Stop::Fault(fault),
    }
}

// Adds a message, which is the first bytes of `pending`, to others.
fn append(made: &mut Vec<u8>, pending: &Pending, size: usize) -> Result<(), Stop>
    requires { size ≤ vec_len pending.now.out }
    ensures ok { OnOk result (made.new.items ≡ made.old.items ++ take size pending.now.out.items) }
    ensures err { IfErr result (λ stop. stop ≡ NoMemory) }
{
    made.extend_from_slice(&pending.bytes()[..size])
        .map_err(|_| Stop::NoMemory)
}

// Room for a part, for a message, and for a File, which begins with the templates.
#[derive(Drop)]
struct Room {
    part: Vec<u8>,
    pending: Pending,
    made: Vec<u8>,
}

// Returns room for reading a file.
fn make_room(alloc: Global) -> Result<Room, AllocError>
    ensures part { IfOk result (λ room. vec_len room.part ≡ 65535) }
    ensures none { IfOk result (λ room. IsEmpty room.pending) }
    ensures made { IfOk result (λ room. room.made.items ≡ TEMPLATES) }
{
    Ok(Room {
        part: vec![in alloc; 0u8; LONGEST_PART]?,
        pending: Pending::new(alloc)?,
        made: Vec::from_slice(alloc, &TEMPLATES)?,
    })
}

// Reads a file after its header, and returns the IPFIX File that it represents.
fn convert<R: Input>(alloc: Global, reader: &mut R, header: Reading) -> Result<Vec<u8>, Stop>
    ensures converts { ReadsInput (R.input reader.old) (R.input reader.new)
        (Converts header (result_map_both (λ made. made.items) (λ stop. stop) result)
        (has_ended (R.input reader.new))) }
    ensures device { MatchResult result (λ _. (R.input reader.new).failed ≡ (R.input reader.old).failed)
        (λ stop. EndsBy (R.input reader.old).failed (R.input reader.new).failed stop) }
{
    let Ok(room) = make_room(alloc) else {
        return Err(Stop::NoMemory);
    };
    let Room {
        mut part,
        mut pending,
        mut made,
    } = room;
    let mut reading = header;
    'making: loop {
        match make_message(reader, &mut reading, &mut pending, part.as_mut_slice()) {
            Ok(Made::Message(size)) => match append(&mut made, &pending, size) {
                Ok(()) => {}
                Err(stop) => return Err(stop),
            },
            Ok(Made::Last(size)) => match append(&mut made, &pending, size) {
                Ok(()) => return Ok(made),
                Err(stop) => return Err(stop),
            },
            Err(stop) => return Err(stop_of(stop)),
        }
    }
}

/// What a text is.
#[derive(Drop)]
pub enum Found {
    /// The IPFIX File that it represents. It was read to its end: a file of nfcapd, or fewer than two bytes.
    Made(Vec<u8>),
    /// It begins with these two bytes, which were read, so it is no file of nfcapd.
    Other([u8; 2]),
}

// Returns a copy of bytes.
fn copied(alloc: Global, bytes: &[u8]) -> Result<Vec<u8>, Stop>
    ensures ok { IfOk result (λ copy. copy.items ≡ bytes.now) }
    ensures err { IfErr result (λ stop. stop ≡ NoMemory) }
{
    Vec::from_slice(alloc, bytes).map_err(|_| Stop::NoMemory)
}

/// Reads a text whole if it is a file of nfcapd, and otherwise at most two bytes of it.
///
/// # Errors
///
/// The first fault of a file of nfcapd, a reader that fails, or out of memory.
pub fn open_text<R: Input>(
    alloc: Global,
    reader: &mut R,
    allow_sampled: bool,
) -> Result<Found, Stop>
    ensures opens { ReadsInput (R.input reader.old) (R.input reader.new)
        (Opens allow_sampled result (has_ended (R.input reader.new))) }
    ensures device { MatchResult result (λ _. (R.input reader.new).failed ≡ (R.input reader.old).failed)
        (λ stop. EndsBy (R.input reader.old).failed (R.input reader.new).failed stop) }
{
    let mut head = [0u8; 40];
    match begin(reader, allow_sampled, &mut head) {
        Ok(Begun::Short(count)) => match copied(alloc, &head[..count]) {
            Ok(made) => Ok(Found::Made(made)),
            Err(stop) => Err(stop),
        },
        Ok(Begun::Other) => Ok(Found::Other([head[0], head[1]])),
        Ok(Begun::Flows(reading)) => match convert(alloc, reader, reading) {
            Ok(made) => Ok(Found::Made(made)),
            Err(stop) => Err(stop),
        },
        Err(stop) => Err(stop_of(stop)),
    }
}
