//! Data sets and their records.
ghost use Rattle.std.specs.Prelude.{◌≡◌, ◌^◌, ◌+◌, ◌<◌, ◌≤◌, All, Err, IfErr, IfOk, false, length, map};
ghost use Rattle.std.specs.Iterator.{YieldsFirst, item_count};
ghost use Rattle.ipfix_read.specs.Fault.{Reads, is_of_calls};
ghost use Rattle.ipfix_read.specs.Record.{data_set_reading};
ghost use Rattle.ipfix_read.specs.WholeRecords.{AreInBytes, ArePacked};

use crate::fault::{ReadFault, ReadFaultKind};
use crate::value::{FieldValues, skip_values};
use ipfix_templates::{Fields, Kind, Template};
use std::marker::Model;

/// A data record (RFC 7011 section 3.4.3): its kind, and a value for each field of its template.
#[derive(Drop)]
pub struct Record<'f, 'a> {
    /// Whether it is a flow record or an options record.
    pub kind: Kind,
    /// The values, in the order of the template's fields.
    pub fields: FieldValues<'f, 'a>,
}

/// The data records of a data set. The list borrows the set's bytes and shares the template's fields. Each record is
/// cut out of the bytes when it is requested.
#[derive(Drop)]
pub struct RecordList<'a> {
    kind: Kind,
    specifiers: Fields,
    bytes: &'a [u8],
    count: usize,
}

impl<'a> Model for RecordList<'a> {
    ghost use Rattle.std.specs.Prelude.{◌≡◌, List, length};
    ghost use Rattle.ipfix_read.specs.WholeRecords.{whole_records};
    ghost use Rattle.ipfix_read.specs.declared.record.Record.{Record};

    ghost Value = { List Record };

    ghost view = { λ a. whole_records a.kind a.specifiers a.count a.bytes.now };

    ghost invariant = { λ a. length (whole_records a.kind a.specifiers a.count a.bytes.now) ≡ a.count };
}

impl<'a> RecordList<'a> {
    /// Returns the number of data records.
    pub fn len(&self) -> usize
        ensures { result ≡ length self.now }
    {
        self.count
    }

    /// Returns the kind of the records: flow records or options records.
    pub fn kind(&self) -> Kind
        ensures { All (λ r. r.kind ≡ result) self.now }
    {
        self.kind
    }

    /// Returns the fields of each record's values in order.
    pub fn fields(&self) -> &Fields
        ensures { All (λ r. map (λ v. v.field) r.fields ≡ result.now) self.now }
    {
        &self.specifiers
    }

    /// Returns the bytes of the data records, one after the other, and all that follow them in the data set.
    pub fn bytes(&self) -> &'a [u8]
        ensures { AreInBytes self.now result.now }
    {
        self.bytes
    }

    /// Returns an iterator over the data records in order.
    pub fn iter(&self) -> Records<'_, 'a>
        ensures { result ≡ self.now }
    {
        Records {
            kind: self.kind,
            specifiers: &self.specifiers,
            bytes: self.bytes,
            count: self.count,
        }
    }
}

/// An iterator over the data records of a data set, in order.
#[derive(Drop)]
pub struct Records<'f, 'a> {
    kind: Kind,
    specifiers: &'f Fields,
    bytes: &'a [u8],
    count: usize,
}

impl<'f, 'a> Model for Records<'f, 'a> {
    ghost use Rattle.std.specs.Prelude.{List};
    ghost use Rattle.ipfix_read.specs.WholeRecords.{whole_records};
    ghost use Rattle.ipfix_read.specs.declared.record.Record.{Record};

    ghost Value = { List Record };

    ghost view = { λ a. whole_records a.kind a.specifiers.now a.count a.bytes.now };
}

impl<'f, 'a> Iterator for Records<'f, 'a> {
    type Item = Record<'f, 'a>;

    ghost next_gives = { YieldsFirst (λ records. records) };

    ghost remaining = { item_count (λ records. records) };

    #[tactic(auto, unfolding(crate::specs::WholeRecords::whole_records))]
    fn next(&mut self) -> Option<Record<'f, 'a>> {
        if self.count == 0 {
            return None;
        }
        let rest = skip_values(self.specifiers, self.bytes)?;
        let fields = FieldValues {
            specifiers: self.specifiers,
            bytes: self.bytes,
        };
        self.bytes = rest;
        self.count -= 1;
        Some(Record {
            kind: self.kind,
            fields,
        })
    }
}

// Returns the number of consecutive records. `base` is the offset of the bytes in the File.
fn count_records(template: &Template, bytes: &[u8], base: u64) -> Result<usize, ReadFault>
    requires { base + length bytes.now < 2 ^ 64 }
    ensures ok { IfOk result (ArePacked template.now base bytes.now) }
    ensures few { IfOk result (λ count. count ≤ length bytes.now) }
    ensures bytes { IfErr result (λ fault. is_of_calls fault.kind ≡ false) }
    ensures fault { IfErr result (λ fault. data_set_reading template.now base bytes.now ≡ Err fault) }
{
    let least = template.least_length() as usize;
    if least == 0 {
        return Ok(0);
    }
    let fields = &template.fields;
    if fields.runs().is_empty() {
        return Ok(bytes.len() / least);
    }
    let mut count = 0;
    let mut rest = bytes;
    while rest.len() >= least {
        let Some(after) = skip_values(fields, rest) else {
            let offset = base + (bytes.len() - rest.len()) as u64;
            return Err(ReadFaultKind::BadRecord.at(offset));
        };
        count += 1;
        rest = after;
    }
    Ok(count)
}

/// Returns the records of a data set under its template, given the bytes after the set's header. `base` is the offset
/// of these bytes in the File. Trailing bytes that are too few for a record are padding.
///
/// # Errors
///
/// Returns `BadRecord` with the offset of the first record that extends beyond the end of the bytes, or `NoMemory` if
/// an allocation fails.
pub fn read_data_set<'a>(
    template: &Template,
    bytes: &'a [u8],
    base: u64,
) -> Result<RecordList<'a>, ReadFault>
    requires { base + length bytes.now < 2 ^ 64 }
    ensures read { Reads (data_set_reading template.now base bytes.now) result }
    ensures few { IfOk result (λ records. length records ≤ length bytes.now) }
{
    let count = count_records(template, bytes, base)?;
    Ok(RecordList {
        kind: template.kind,
        specifiers: template.fields.clone()?,
        bytes,
        count,
    })
}
