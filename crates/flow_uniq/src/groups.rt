ghost use Rattle.std.specs.Prelude.{All, ◌≡◌, ◌++◌, ℕ, ◌∷◌, [], ◌+◌, ◌-◌, ◌^◌, ◌<◌, ◌≤◌, false, IsTrue};
ghost use Rattle.std.specs.Prelude.{List, IfOk, OnOk, OnErr, length, map, option_map, slice_get};
ghost use Rattle.pmap_model.specs.Sorting.{in_order};
ghost use Rattle.label_lookup.specs.Labelling.{label_where, labelling_borrowed};
ghost use Rattle.flow_rows.specs.Elements.{RowView};
ghost use Rattle.flow_uniq.specs.Groups.{AreOfNoRows, groups_of_keyed, is_before, record_count};
ghost use Rattle.flow_uniq.specs.Key.{Key as Parts, key_of};
ghost use Rattle.flow_uniq.specs.Codes.{IsCode, key_in};
ghost use Rattle.flow_uniq.specs.Inner.{HasRow, IsKept, group_model, kept_groups};

use crate::codec::{Code, Key, compare_keys, write_key};
use crate::field::KeyField;
use crate::keys::Keys;
use crate::recent::{Recent, mixed};
use flow_rows::Row;
use indexmap::IndexMap;
use label_lookup::Labeller;
use pmap_model::KeyHashing;
use std::alloc::{AllocError, Global};
use std::marker::Model;

// The totals of groups by their keys.
type Entries = IndexMap<Code, Totals, KeyHashing>;

/// The totals of the rows of a group.
#[derive(Clone, Copy, Default)]
pub struct Totals {
    /// The number of rows.
    pub records: u64,
    /// The number of packets of all rows.
    pub packets: u128,
    /// The number of bytes of these packets, including IP headers.
    pub octets: u128,
}

impl Totals {
    ghost use Rattle.flow_uniq.specs.Inner.{IsBounded, with_row};

    /// Adds a row to the totals.
    #[inline(always)]
    pub fn add(&mut self, row: &Row<'_>)
        requires bounded { IsBounded self.old }
        requires few { self.old.records < 2 ^ 64 - 1 }
        ensures value { self.new ≡ with_row self.old row.now }
        ensures packets { row.now.packets ≤ 2 ^ 64 - 1 }
        ensures octets { row.now.octets ≤ 2 ^ 64 - 1 }
    {
        self.records += 1;
        self.packets += u128::from(row.packets());
        self.octets += u128::from(row.octets());
    }
}

/// A group of rows with one key, and their totals.
#[derive(Clone, Copy)]
pub struct Group<'a> {
    /// The parts of the key, in the order of the fields.
    pub key: Key<'a>,
    /// The totals of its rows.
    pub totals: Totals,
}

/// The groups of rows by their keys, in the order of the first rows, with their totals.
#[derive(Drop)]
pub struct Groups {
    alloc: Global,
    fields: Vec<KeyField>,
    totals: Entries,
    // The bytes of the key of the last row.
    key: Vec<u8>,
    recent: Recent,
}

impl Model for Groups {
    ghost use Rattle.std.specs.Prelude.{All, length};
    ghost use Rattle.flow_uniq.specs.Groups.{GroupsModel};

    ghost Value = { GroupsModel };

    ghost use Rattle.flow_uniq.specs.Inner.{IsKept, kept_groups};

    ghost view = { λ g. record { fields = g.fields.items; groups = kept_groups g.totals.entries } };

    ghost invariant = { λ g. All (IsKept (length g.fields.items)) g.totals.entries };
}

// Adds a row to the group at a guessed index if the group's key has these bytes. Returns whether it has.
#[inline(always)]
fn add_at(totals: &mut Entries, guess: Option<usize>, key: &[u8], row: &Row<'_>) -> bool
    requires { (count : ℕ) × All (IsKept count) totals.old.entries
        × (record_count (kept_groups totals.old.entries) < 2 ^ 64 - 1) }
    ensures added { IsTrue result → HasRow (key_in key.now) row.now totals.old.entries totals.new.entries }
    ensures other { result ≡ false → totals.new ≡ totals.old }
{
    let Some(index) = guess else {
        return false;
    };
    let Some((code, _)) = totals.get_index(index) else {
        return false;
    };
    if !code.has_bytes(key) {
        return false;
    }
    let Some(found) = totals.get_index_mut(index) else {
        return false;
    };
    found.add(row);
    true
}

// Adds a row to the group whose key has these bytes, or to a new group, which comes last. If an allocation fails, the
// groups are unchanged.
fn add_row(
    totals: &mut Entries,
    recent: &mut Recent,
    alloc: Global,
    key: &[u8],
    row: &Row<'_>,
) -> Result<(), AllocError>
    requires code { IsCode key.now }
    requires kept { (count : ℕ) × All (IsKept count) totals.old.entries
        × (record_count (kept_groups totals.old.entries) < 2 ^ 64 - 1) }
    ensures ok { OnOk result (HasRow (key_in key.now) row.now totals.old.entries totals.new.entries) }
    ensures err { OnErr result (totals.new.entries ≡ totals.old.entries) }
{
    let mixed = mixed(key);
    if add_at(totals, recent.guess(mixed), key, row) {
        return Ok(());
    }
    let code = Code::new(alloc, key)?;
    let entry = totals.entry(code)?;
    recent.remember(mixed, entry.index());
    entry.or_insert(Totals::default()).add(row);
    Ok(())
}

// Returns the groups in the order of their first rows. Memory for all groups is allocated once: if that fails,
// `collect` would try a smaller allocation.
fn listed(alloc: Global, groups: &Groups) -> Result<Vec<Group<'_>>, AllocError>
    ensures { IfOk result (λ listed. map group_model listed.items ≡ groups.now.groups) }
{
    let mut listed = Vec::with_capacity(alloc, groups.group_count())?;
    for index in 0..groups.group_count() {
        if let Some(group) = groups.group(index) {
            listed.push(group)?;
        }
    }
    Ok(listed)
}

impl Groups {
    /// Returns an empty set of groups by the fields of `keys`, whose keys are hashed with fixed numbers.
    pub fn new(alloc: Global, keys: &Keys) -> Result<Groups, AllocError>
        ensures { IfOk result (AreOfNoRows keys.now) }
    {
        Groups::with_hashing(alloc, keys, KeyHashing::known())
    }

    /// Returns an empty set of groups by the fields of `keys`, whose keys are hashed with these numbers.
    pub fn with_hashing(
        alloc: Global,
        keys: &Keys,
        hashing: KeyHashing,
    ) -> Result<Groups, AllocError>
        ensures { IfOk result (AreOfNoRows keys.now) }
    {
        Ok(Groups {
            alloc,
            fields: Vec::from_slice(alloc, keys.fields())?,
            totals: IndexMap::with_hasher(alloc, hashing),
            key: Vec::new(alloc),
            recent: Recent::new(alloc)?,
        })
    }

    /// Adds a row to the group with its key, or to a new group, which comes last. The labels of its addresses are those
    /// of the labeller. Without a labeller no address has a label. If an allocation fails, the groups are unchanged.
    pub fn add<L: Labeller>(
        &mut self,
        row: &Row<'_>,
        labeller: Option<&L>,
    ) -> Result<(), AllocError>
        requires { record_count self.old.groups < 2 ^ 64 - 1 }
        ensures fields { self.new.fields ≡ self.old.fields }
        // If these were the groups of some rows with their keys, they are now those of the rows followed by this one.
        ensures ok { let label = label_where (labelling_borrowed L.version_of L.label labeller.entry) in
            let added = row.now in
            OnOk result ((rows : List (Parts × RowView)) → self.old.groups ≡ groups_of_keyed rows → self.new.groups
            ≡ groups_of_keyed (rows ++ (key_of label self.old.fields added, added) ∷ [])) }
        ensures count { OnOk result (record_count self.new.groups ≡ record_count self.old.groups + 1) }
        ensures err { OnErr result (self.new ≡ self.old) }
    {
        write_key(&mut self.key, self.fields.as_slice(), row, labeller)?;
        let key = self.key.as_slice();
        add_row(&mut self.totals, &mut self.recent, self.alloc, key, row)?;
        Ok(())
    }

    /// Returns the fields of the keys. Each key has a part for each field.
    pub fn fields(&self) -> &[KeyField]
        ensures value { result.now ≡ self.now.fields }
        ensures parts { All (λ g. length g.key ≡ length self.now.fields) self.now.groups }
    {
        self.fields.as_slice()
    }

    /// Returns the number of groups.
    pub fn group_count(&self) -> usize
        ensures { result ≡ length self.now.groups }
    {
        self.totals.len()
    }

    /// Returns the group at an index, in the order of the first rows.
    pub fn group(&self, index: usize) -> Option<Group<'_>>
        ensures { option_map group_model result ≡ slice_get self.now.groups index }
    {
        let (code, totals) = self.totals.get_index(index)?;
        Some(Group {
            key: Key::of_code(code),
            totals: *totals,
        })
    }

    /// Returns the groups in the order of their keys.
    pub fn sorted(&self) -> Result<Vec<Group<'_>>, AllocError>
        ensures { IfOk result (λ groups. map group_model groups.items ≡ in_order is_before self.now.groups) }
    {
        let mut groups = listed(self.alloc, self)?;
        groups.sort_by(|a, b| compare_keys(a.key, b.key))?;
        Ok(groups)
    }
}
