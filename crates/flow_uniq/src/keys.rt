ghost use Rattle.std.specs.Prelude.{◌≡◌, ◌++◌, ◌∷◌, [], if◌then◌else◌, not};
ghost use Rattle.std.specs.List.{list_any};
ghost use Rattle.flow_uniq.specs.Key.{field_named, fields_need_labels, keys_among, keys_reading, same_field, with_unit};

use crate::fault::KeyFault;
use crate::field::{ALL_FIELDS, KeyField, TimeUnit};
use arrayvec::ArrayVec;
use std::marker::Model;

/// The fields of keys, each once.
#[derive(Drop)]
pub struct Keys {
    fields: ArrayVec<KeyField, 16>,
}

impl Model for Keys {
    ghost use Rattle.std.specs.Prelude.{List};
    ghost use Rattle.std.specs.List.{IsDistinct};
    ghost use Rattle.flow_uniq.specs.Key.{KeyField, same_field};

    ghost Value = { List KeyField };

    ghost view = { λ k. k.fields.items };

    ghost invariant = { λ k. IsDistinct same_field k.fields.items };
}

// Returns the known field with this name.
fn field_named(known: &[KeyField], text: &str) -> Option<KeyField>
    ensures { result ≡ field_named known.now text.now }
{
    known.iter().copied().find(|field| field.name() == text)
}

impl Keys {
    // Appends a field, or returns `false` if it is there already.
    fn add(&mut self, field: KeyField) -> bool
        ensures new { result ≡ not (list_any (same_field field) self.old) }
        ensures fields { self.new ≡ (if result then self.old ++ field ∷ [] else self.old) }
    {
        if self
            .fields()
            .iter()
            .any(|other| field.name() == other.name())
        {
            return false;
        }
        self.fields.push(field);
        true
    }

    /// Reads the fields of `ALL_FIELDS` that the items of a text name, in order. Items are separated by commas. Nothing
    /// is allocated.
    ///
    /// # Errors
    ///
    /// Returns `BadField` if an item is not the name of a field, otherwise `FieldRepeated` if a field occurs twice.
    pub fn read(text: &str) -> Result<Keys, KeyFault>
        ensures { result ≡ keys_reading text.now }
    {
        Keys::read_among(&ALL_FIELDS, text)
    }

    /// Like [`Keys::read`], but the items name known fields, such as those of `MANY_FIELDS`.
    pub fn read_among(known: &[KeyField], text: &str) -> Result<Keys, KeyFault>
        ensures { result ≡ keys_among known.now text.now }
    {
        let mut keys = Keys {
            fields: ArrayVec::new(),
        };
        let mut repeated = false;
        for name in text.split(',') {
            let field = field_named(known, name).ok_or(KeyFault::BadField)?;
            if !keys.add(field) {
                repeated = true;
            }
        }
        if repeated {
            return Err(KeyFault::FieldRepeated);
        }
        Ok(keys)
    }

    /// Returns the keys whose first field is the start of the unit of time in which a row starts, followed by these
    /// fields. Returns `None` if a field occurs twice.
    pub fn by_time(unit: TimeUnit, fields: &[KeyField]) -> Option<Keys>
        ensures { result ≡ with_unit unit fields.now }
    {
        let mut keys = Keys {
            fields: ArrayVec::new(),
        };
        keys.add(KeyField::Start(unit));
        for field in fields {
            if !keys.add(*field) {
                return None;
            }
        }
        Some(keys)
    }

    /// Returns `true` if a field is a label, so that rows have no keys without a map or a list.
    pub fn needs_map(&self) -> bool
        ensures { result ≡ fields_need_labels self.now }
    {
        self.fields().iter().any(|field| field.is_label())
    }

    /// Returns the fields.
    pub fn fields(&self) -> &[KeyField]
        ensures { result.now ≡ self.now }
    {
        self.fields.as_slice()
    }
}
