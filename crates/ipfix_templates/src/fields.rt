ghost use Rattle.std.specs.Prelude.{◌≡◌, ◌≤◌, IfOk, length, option_map};
ghost use Rattle.ipfix_templates.specs.Field.{least_length};
ghost use Rattle.ipfix_templates.specs.Runs.{runs_from, last_run_from};
ghost use Rattle.ipfix_templates.specs.Layout.{layout_of};

use crate::field::Field;
use crate::kind::Kind;
use crate::layout::RowLayout;
use std::alloc::AllocError;
use std::marker::Model;
use std::rc::Rc;

// A list of fields, and numbers computed once that reading a record needs.
#[derive(Drop)]
struct Layout {
    items: Vec<Field>,
    runs: Vec<u32>,
    last_run: u32,
    least: u32,
    rows: Option<RowLayout>,
}

/// A list of at most 65,535 field specifiers. Its clones share it, so cloning copies no fields.
#[derive(Clone, Drop)]
pub struct Fields {
    shared: Rc<Layout>,
}

impl Model for Fields {
    ghost use Rattle.std.specs.Prelude.{◌≡◌, ◌≤◌, List, length};
    ghost use Rattle.std.specs.Rc.{rc_value};
    ghost use Rattle.ipfix_templates.specs.Field.{FieldView, least_length};
    ghost use Rattle.ipfix_templates.specs.Runs.{runs_from, last_run_from};
    ghost use Rattle.ipfix_templates.specs.Layout.{flow_layout};

    ghost Value = { List FieldView };

    ghost view = { λ a. (rc_value a.shared).items.items };

    ghost invariant = { λ a. let l = rc_value a.shared in
        (length l.items.items ≤ 65535) × (l.runs.items ≡ runs_from 0 l.items.items)
        × (l.last_run ≡ last_run_from 0 l.items.items) × (l.least ≡ least_length l.items.items)
        × (l.rows ≡ flow_layout l.items.items) };
}

impl Fields {
    /// Returns the list of these fields, in order.
    pub fn from_vec(items: Vec<Field>) -> Result<Fields, AllocError>
        requires { length items.items ≤ 65535 }
        ensures { IfOk result (λ fields. fields ≡ items.items) }
    {
        let alloc = *items.allocator();
        let mut runs = Vec::new(alloc);
        let mut last_run = 0u32;
        let mut least = 0u32;
        for field in items.as_slice() {
            let length = u32::from(field.length);
            if field.is_variable() {
                runs.push(last_run)?;
                last_run = 0;
                least += 1;
            } else {
                last_run += length;
                least += length;
            }
        }
        let rows = RowLayout::of_fields(items.as_slice());
        let layout = Layout {
            items,
            runs,
            last_run,
            least,
            rows,
        };
        Ok(Fields {
            shared: Rc::new(alloc, layout)?,
        })
    }

    /// Returns the fields in order.
    pub fn as_slice(&self) -> &[Field]
        ensures value { result.now ≡ self.now }
        ensures bound { length result.now ≤ 65535 }
    {
        self.shared.items.as_slice()
    }

    /// Returns for each variable field the sum of the fixed lengths since the variable field before it. A reader skips
    /// this number of bytes before each value of variable length.
    pub fn runs(&self) -> &[u32]
        ensures { result.now ≡ runs_from 0 self.now }
    {
        self.shared.runs.as_slice()
    }

    /// Returns the sum of the fixed lengths after the last variable field.
    pub fn last_run(&self) -> u32
        ensures { result ≡ last_run_from 0 self.now }
    {
        self.shared.last_run
    }

    /// Returns the minimum number of bytes of a record: the sum of the fixed lengths, and 1 for each variable length.
    pub fn least_length(&self) -> u32
        ensures { result ≡ least_length self.now }
    {
        self.shared.least
    }

    /// Returns where the numbers of rows are in records of a kind with these fields, or `None` if the records have no
    /// rows.
    #[inline(always)]
    pub fn row_layout(&self, kind: Kind) -> Option<&RowLayout>
        ensures { option_map (λ layout. layout.now) result ≡ layout_of kind self.now }
    {
        match kind {
            Kind::Flow => self.shared.rows.as_ref(),
            Kind::Options => None,
        }
    }
}
