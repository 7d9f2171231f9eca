ghost use Rattle.std.specs.Prelude.{◌≡◌, ℕ, List, Some, map, option_map};
ghost use Rattle.std.specs.Iterator.{YieldsFirst, item_count};
ghost use Rattle.ipfix_read.specs.Value.{after_runs, values_at, variable_at, whole_values};

use byteorder::{BigEndian, ByteOrder};
use ipfix_templates::{Field, Fields};
use std::marker::Model;

/// The value of a field in a data record: the field's specifier, and the bytes of the value in the File. The value of a
/// field of fixed length has that length.
#[derive(Drop)]
pub struct FieldValue<'a> {
    /// The specifier in the template.
    pub field: Field,
    /// The bytes of the value. For a variable length, the length at the start is not included.
    pub value: &'a [u8],
}

impl<'a> Model for FieldValue<'a> {
    ghost use Rattle.ipfix_read.specs.Value.{FieldValueView, IsValueOf};

    ghost Value = { FieldValueView };

    ghost view = { λ v. record { field = v.field; value = v.value.now } };

    ghost invariant = { λ v. IsValueOf v.field v.value.now };
}

/// The values of a data record, one for each field of its template. The list holds the bytes from the record on, and
/// borrows the template's fields. Each value is cut out of the bytes when it is requested.
#[derive(Drop)]
pub struct FieldValues<'f, 'a> {
    pub(crate) specifiers: &'f Fields,
    pub(crate) bytes: &'a [u8],
}

impl<'f, 'a> Model for FieldValues<'f, 'a> {
    ghost use Rattle.std.specs.Prelude.{◌≡◌, ℕ, List, Some};
    ghost use Rattle.ipfix_read.specs.Value.{FieldValueView, values_at, whole_values};

    ghost Value = { List FieldValueView };

    ghost view = { λ a. whole_values a.specifiers.now a.bytes.now };

    ghost invariant = { λ a. (rest : List ℕ)
        × (values_at a.specifiers.now a.bytes.now ≡ Some (whole_values a.specifiers.now a.bytes.now, rest)) };
}

impl<'f, 'a> FieldValues<'f, 'a> {
    /// Returns the fields of the values, in order.
    pub fn specifiers(&self) -> &'f Fields
        ensures { result.now ≡ map (λ v. v.field) self.now }
    {
        self.specifiers
    }

    /// Returns the bytes of the values, and all that follow them in the data set.
    pub fn bytes(&self) -> &'a [u8]
        ensures { (rest : List ℕ) × (values_at (map (λ v. v.field) self.now) result.now ≡ Some (self.now, rest)) }
    {
        self.bytes
    }

    /// Returns an iterator over the values in order.
    pub fn iter(&self) -> Values<'f, 'a>
        ensures { result ≡ self.now }
    {
        Values {
            specifiers: self.specifiers.as_slice(),
            bytes: self.bytes,
        }
    }
}

/// An iterator over the values of a data record, in order.
#[derive(Drop)]
pub struct Values<'f, 'a> {
    specifiers: &'f [Field],
    bytes: &'a [u8],
}

impl<'f, 'a> Model for Values<'f, 'a> {
    ghost use Rattle.std.specs.Prelude.{List};
    ghost use Rattle.ipfix_read.specs.Value.{FieldValueView, whole_values};

    ghost Value = { List FieldValueView };

    ghost view = { λ a. whole_values a.specifiers.now a.bytes.now };
}

impl<'f, 'a> Iterator for Values<'f, 'a> {
    type Item = FieldValue<'a>;

    ghost next_gives = { YieldsFirst (λ values. values) };

    ghost remaining = { item_count (λ values. values) };

    #[tactic(auto, unfolding(crate::specs::Value::whole_values, crate::specs::Value::value_at))]
    fn next(&mut self) -> Option<FieldValue<'a>> {
        let (field, specifiers) = self.specifiers.split_first()?;
        let (value, bytes) = if field.is_variable() {
            read_variable(self.bytes)?
        } else {
            self.bytes.split_at_checked(usize::from(field.length))?
        };
        self.specifiers = specifiers;
        self.bytes = bytes;
        let field = *field;
        Some(FieldValue { field, value })
    }
}

/// Reads the value of a variable length at the start of the bytes, and returns it with the bytes after it. Returns
/// `None` if the input is too short.
fn read_variable(bytes: &[u8]) -> Option<(&[u8], &[u8])>
    ensures { option_map (λ x. (x.0.now, x.1.now)) result ≡ variable_at bytes.now }
{
    let (first, rest) = bytes.split_first()?;
    if *first < 255 {
        return rest.split_at_checked(usize::from(*first));
    }
    if rest.len() < 2 {
        return None;
    }
    rest[2..].split_at_checked(usize::from(BigEndian::read_u16(rest)))
}

/// Skips runs of bytes, each with the value of variable length after it, and a last run. Returns the bytes after them,
/// or `None` if the input is too short.
pub fn skip_runs<'a>(runs: &[u32], last: u32, bytes: &'a [u8]) -> Option<&'a [u8]>
    ensures { option_map (λ rest. rest.now) result ≡ after_runs runs.now last bytes.now }
{
    let mut rest = bytes;
    for run in runs {
        let (_fixed, following) = rest.split_at_checked(*run as usize)?;
        let (_value, after) = read_variable(following)?;
        rest = after;
    }
    let (_fixed, after) = rest.split_at_checked(last as usize)?;
    Some(after)
}

/// Skips the values of these fields at the start of the bytes, and returns the bytes after them. Returns `None` if the
/// values are not complete. The fixed lengths between variable fields are skipped together, so each step but the last
/// takes at least one byte.
pub fn skip_values<'a>(fields: &Fields, bytes: &'a [u8]) -> Option<&'a [u8]>
    ensures { option_map (λ rest. (whole_values fields.now bytes.now, rest.now)) result
        ≡ values_at fields.now bytes.now }
{
    skip_runs(fields.runs(), fields.last_run(), bytes)
}
