//! Keys as bytes, which are in the order of the keys. The bytes that are written for the key of a row are read back as
//! this key, part by part.
ghost use Rattle.std.specs.Prelude.{bytes_eq, ◌≡◌, ◌++◌, ◌∷◌, [], IfNone, IfOk};
ghost use Rattle.std.specs.Prelude.{IfSome, IsTrue, OnOk, option_copied, option_map};
ghost use Rattle.std.specs.Cmp.Lexicographic.{slice_cmp};
ghost use Rattle.label_lookup.specs.Labelling.{label_where, labelling_borrowed};
ghost use Rattle.flow_rows.specs.Numbers.{about};
ghost use Rattle.flow_uniq.specs.Key.{AddressPart, NumberPart, compare_parts, key_of, key_part};
ghost use Rattle.flow_uniq.specs.Times.{precision_number};
ghost use Rattle.flow_uniq.specs.Codes.{IsCode, IsCode-prop, IsSmall, first_part, front_label};
ghost use Rattle.flow_uniq.specs.Codes.{key_code, key_in, part_code, part_model, precision_at};

use crate::field::{KeyField, Precision};
use flow_rows::{Number, Row};
use label_lookup::{Labeller, label_row_under};
use prefix_keys::{Addr, Version, find_byte};
use smallvec::SmallVec;
use std::alloc::{AllocError, Global};
use std::cmp::Ordering;
use std::hash::{Hash, Hasher};
use std::marker::Model;

/// A part of a key: the value of one field of a row.
#[derive(Clone, Copy)]
pub enum KeyPart<'a> {
    /// An address.
    Address(Addr),
    /// A number of 16 bits, such as a port.
    Number(u16),
    /// A number of 32 bits, such as an AS number.
    LargeNumber(u32),
    /// The label of an address, or none.
    Label(Option<&'a [u8]>),
    /// The number of a UTC day, hour or minute, where the first of 1970 has the number 0, or none, and which of the
    /// three it is. The precision comes last: a byte next to the kind of the part would make every part slower to read.
    Time(Option<u64>, Precision),
}

/// The key of a group, borrowed: its parts in the order of the fields. Each part is read from the key's bytes when
/// requested.
#[derive(Clone, Copy)]
pub struct Key<'a> {
    code: &'a [u8],
    ghost is_code: { IsCode code.now } by { IsCode-prop code.now },
}

// The kinds of parts, which are the first bytes of their codes.
const IPV4: u8 = 0;

const IPV6: u8 = 1;

const NUMBER: u8 = 2;

const LARGE_NUMBER: u8 = 3;

const LABEL: u8 = 4;

const TIME: u8 = 5;

/// A key as bytes, which are hashed and compared in one piece. Most keys have few bytes, which are stored inline.
#[derive(Drop)]
pub struct Code {
    bytes: SmallVec<u8, 24>,
}

impl Model for Code {
    ghost use Rattle.flow_uniq.specs.Key.{Key};

    ghost Value = { Key };

    ghost use Rattle.flow_uniq.specs.Codes.{IsCode, key_in};

    ghost view = { λ c. key_in c.bytes.items };

    ghost invariant = { λ c. IsCode c.bytes.items };
}

impl PartialEq for Code {
    ghost use Rattle.std.specs.Cmp.Lexicographic.{nat_list_eq_equiv};
    ghost use Rattle.std.specs.Cmp.{partial_equiv_from_equiv};
    ghost use Rattle.std.proofs.lemmas.Cmp.{on_equiv};
    ghost use Rattle.flow_uniq.specs.Codes.{key_code, same_code};

    ghost eq = { same_code };

    ghost laws = { partial_equiv_from_equiv (on_equiv key_code nat_list_eq_equiv) };

    fn eq(&self, other: &Code) -> bool {
        self.bytes.as_slice() == other.bytes.as_slice()
    }
}

impl Eq for Code {
    ghost use Rattle.std.specs.Cmp.Lexicographic.{nat_list_eq_equiv};
    ghost use Rattle.std.proofs.lemmas.Cmp.{on_equiv};
    ghost use Rattle.flow_uniq.specs.Codes.{key_code};

    ghost laws = { on_equiv key_code nat_list_eq_equiv };
}

impl Hash for Code {
    ghost use Rattle.std.specs.Prelude.{ℕ, List, ◌∷◌, []};
    ghost use Rattle.std.proofs.Common.{ap};
    ghost use Rattle.std.specs.Cmp.Lexicographic.{bytes_decides};
    ghost use Rattle.flow_uniq.specs.Codes.{key_code};

    ghost hash_input = { λ key. key_code key ∷ [] };

    ghost respects_eq = { λ a b h. ap (λ (code : List ℕ). code ∷ []) ((bytes_decides (key_code a) (key_code b)).0 h) };

    fn hash<H: Hasher>(&self, state: &mut H) {
        state.write(self.bytes.as_slice());
    }
}

// Returns the part for a number of the row.
#[inline(always)]
fn number_part<'a>(number: Number, row: &Row<'_>) -> KeyPart<'a>
    ensures value { part_model result ≡ NumberPart ((about number).1.1 row.now) }
    ensures small { IsSmall (part_model result) }
{
    match number {
        Number::SourcePort => KeyPart::Number(row.sport()),
        Number::DestinationPort => KeyPart::Number(row.dport()),
        Number::Protocol => KeyPart::Number(u16::from(row.protocol())),
        Number::Flags => KeyPart::Number(row.flags()),
        _ => KeyPart::LargeNumber(row.number(number)),
    }
}

// Returns the part for this field of the row. The field is borrowed: a copy would read a unit of time at each field.
fn part_of<'a, L: Labeller>(field: &KeyField, row: &Row<'_>, labeller: Option<&'a L>) -> KeyPart<'a>
    ensures value { let label = label_where (labelling_borrowed L.version_of L.label labeller.entry) in
        part_model result ≡ key_part label row.now field.now }
    ensures small { IsSmall (part_model result) }
{
    match field {
        KeyField::SourceAddress => KeyPart::Address(row.src()),
        KeyField::DestinationAddress => KeyPart::Address(row.dst()),
        KeyField::Number(number) => number_part(*number, row),
        KeyField::SourceLabel => KeyPart::Label(label_row_under(labeller, row.src())),
        KeyField::DestinationLabel => KeyPart::Label(label_row_under(labeller, row.dst())),
        KeyField::Start(unit) => KeyPart::Time(unit.start_of(row.start_ms()), unit.precision),
    }
}

// Appends the bytes of an address. If an allocation fails, some of them may have been appended.
fn append_address(out: &mut Vec<u8>, addr: Addr) -> Result<(), AllocError>
    ensures { OnOk result (out.new.items ≡ out.old.items ++ part_code (AddressPart (addr.version, addr.value))) }
{
    match addr.version {
        Version::V4 => {
            let [a, b, c, d] = (addr.value as u32).to_be_bytes();
            out.extend_from_slice(&[IPV4, a, b, c, d])?;
        }
        Version::V6 => {
            out.push(IPV6)?;
            let (high, low) = (addr.value >> 64, addr.value % (1 << 64));
            out.extend_from_slice(&(high as u64).to_be_bytes())?;
            out.extend_from_slice(&(low as u64).to_be_bytes())?;
        }
    }
    Ok(())
}

// Appends the bytes of a number of 16 bits. If an allocation fails, some of them may have been appended.
#[inline(always)]
fn append_number(out: &mut Vec<u8>, number: u16) -> Result<(), AllocError>
    ensures { OnOk result (out.new.items ≡ out.old.items ++ part_code (NumberPart number)) }
{
    let [high, low] = number.to_be_bytes();
    out.extend_from_slice(&[NUMBER, high, low])
}

// Like `append_number`, but of 32 bits. Out of line, since few keys have such a number.
#[inline(never)]
fn append_large_number(out: &mut Vec<u8>, number: u32) -> Result<(), AllocError>
    ensures { OnOk result (out.new.items ≡ out.old.items ++ part_code (NumberPart number)) }
{
    if number < 65536 {
        return append_number(out, number as u16);
    }
    let [a, b, c, d] = number.to_be_bytes();
    out.extend_from_slice(&[LARGE_NUMBER, a, b, c, d])
}

// Returns the byte for how exact a time is.
#[inline(always)]
fn precision_byte(precision: Precision) -> u8
    ensures { result ≡ precision_number precision }
{
    match precision {
        Precision::Day => 0,
        Precision::Hour => 1,
        Precision::Minute => 2,
    }
}

// Returns how exact a time with this byte is.
fn precision_at(byte: u8) -> Precision
    ensures { result ≡ precision_at byte }
{
    match byte {
        0 => Precision::Day,
        1 => Precision::Hour,
        _ => Precision::Minute,
    }
}

// Appends the bytes of a part. If an allocation fails, some of them may have been appended. Inlined into its one
// caller, so that no part is copied.
#[inline(always)]
fn append_part(out: &mut Vec<u8>, part: KeyPart<'_>) -> Result<(), AllocError>
    requires { IsSmall (part_model part) }
    ensures { OnOk result (out.new.items ≡ out.old.items ++ part_code (part_model part.entry)) }
{
    match part {
        KeyPart::Address(addr) => append_address(out, addr)?,
        KeyPart::Number(number) => append_number(out, number)?,
        KeyPart::LargeNumber(number) => append_large_number(out, number)?,
        KeyPart::Label(label) => {
            out.push(LABEL)?;
            out.extend_from_slice(label.unwrap_or(b""))?;
            out.push(0)?;
        }
        KeyPart::Time(number, precision) => {
            out.extend_from_slice(&[TIME, precision_byte(precision)])?;
            let number = match number {
                Some(number) => number + 1,
                None => 0,
            };
            out.extend_from_slice(&number.to_be_bytes())?;
        }
    }
    Ok(())
}

/// Replaces the bytes by those of the key of a row. If an allocation fails, they may be any bytes.
pub fn write_key<L: Labeller>(
    out: &mut Vec<u8>,
    fields: &[KeyField],
    row: &Row<'_>,
    labeller: Option<&L>,
) -> Result<(), AllocError>
    ensures code { OnOk result (IsCode out.new.items) }
    ensures key { let label = label_where (labelling_borrowed L.version_of L.label labeller.entry) in
        OnOk result (key_in out.new.items ≡ key_of label fields.now row.now) }
{
    out.clear();
    // Faster than a loop by index, which multiplies each index by the size of a field.
    let mut rest = fields;
    while let Some((field, others)) = rest.split_first() {
        append_part(out, part_of(field, row, labeller))?;
        rest = others;
    }
    Ok(())
}

impl Code {
    /// Returns the key with these bytes.
    pub fn new(alloc: Global, bytes: &[u8]) -> Result<Code, AllocError>
        requires { IsCode bytes.now }
        ensures { IfOk result (λ code. code ≡ key_in bytes.now) }
    {
        Ok(Code {
            bytes: SmallVec::from_slice(alloc, bytes)?,
        })
    }

    /// Returns `true` if the key has these bytes.
    #[inline(always)]
    pub fn has_bytes(&self, bytes: &[u8]) -> bool
        ensures known { IsTrue result → self.now ≡ key_in bytes.now }
        ensures exact { result ≡ bytes_eq (key_code self.now) bytes.now }
    {
        self.bytes.as_slice() == bytes
    }
}

// Returns the label at the front, which ends before the first 0 and may be missing, and the bytes after that 0. Returns
// `None` if there is no 0.
fn front_label(code: &[u8]) -> Option<(Option<&[u8]>, &[u8])>
    ensures { option_map (λ r. (option_copied r.0, r.1.now)) result ≡ front_label code.now }
{
    let count = find_byte(code, 0)?;
    let label = if count == 0 {
        None
    } else {
        Some(&code[..count])
    };
    Some((label, &code[count + 1..]))
}

// Returns the part at the start of the bytes, and the bytes after it, or `None` if there are too few.
#[inline(always)]
fn first_part(code: &[u8]) -> Option<(KeyPart<'_>, &[u8])>
    ensures { option_map (λ r. (part_model r.0, r.1.now)) result ≡ first_part code.now }
{
    let (kind, code) = code.split_first()?;
    match *kind {
        IPV4 => {
            let (value, rest) = code.split_first_chunk()?;
            let (version, value) = (Version::V4, u128::from(u32::from_be_bytes(*value)));
            Some((KeyPart::Address(Addr { version, value }), rest))
        }
        IPV6 => {
            let (high, code) = code.split_first_chunk()?;
            let (low, rest) = code.split_first_chunk()?;
            let (high, low) = (u64::from_be_bytes(*high), u64::from_be_bytes(*low));
            let (version, value) = (Version::V6, (u128::from(high) << 64) + u128::from(low));
            Some((KeyPart::Address(Addr { version, value }), rest))
        }
        NUMBER => {
            let (number, rest) = code.split_first_chunk()?;
            Some((KeyPart::Number(u16::from_be_bytes(*number)), rest))
        }
        LARGE_NUMBER => {
            let (number, rest) = code.split_first_chunk()?;
            Some((KeyPart::LargeNumber(u32::from_be_bytes(*number)), rest))
        }
        TIME => {
            let (precision, code) = code.split_first()?;
            let (number, rest) = code.split_first_chunk()?;
            let number = u64::from_be_bytes(*number).checked_sub(1);
            Some((KeyPart::Time(number, precision_at(*precision)), rest))
        }
        _ => {
            let (label, rest) = front_label(code)?;
            Some((KeyPart::Label(label), rest))
        }
    }
}

impl<'a> Key<'a> {
    ghost use Rattle.flow_uniq.specs.Inner.{key_model};

    /// Returns the key with this code.
    pub(crate) fn of_code(code: &'a Code) -> Key<'a>
        ensures { key_model result ≡ code.now }
    {
        Key {
            code: code.bytes.as_slice(),
        }
    }

    /// Returns the first part and the key of the other parts, or `None` if there is no part. A label in the part has 1
    /// to 255 bytes.
    #[inline(always)]
    pub fn split_first(self) -> Option<(KeyPart<'a>, Key<'a>)>
        ensures some { IfSome result (λ r. key_model self.entry ≡ part_model r.0 ∷ key_model r.1) }
        ensures small { IfSome result (λ r. IsSmall (part_model r.0)) }
        ensures none { IfNone result (key_model self.entry ≡ []) }
    {
        let (part, code) = first_part(self.code)?;
        Some((part, Key { code }))
    }
}

/// Compares two keys by their parts from the left. Addresses are before numbers, numbers before labels, and labels
/// before times. IPv4 addresses are before those of IPv6, no label is before any label, and no time before any time.
/// Otherwise addresses, numbers and times compare by value, and labels by their bytes. The codes of keys compare in the
/// same way.
pub fn compare_keys(a: Key<'_>, b: Key<'_>) -> Ordering
    ensures { result
        ≡ slice_cmp compare_parts (key_in a.entry.code.now) (key_in b.entry.code.now) }
{
    a.code.cmp(b.code)
}
