//! Laws about groups.
ghost use Rattle.std.specs.Prelude.{◌≡◌, ◌∷◌, Bool, List, Option, map};
ghost use Rattle.std.specs.List.Sorted.{IsPermutation, IsSortedBy};
ghost use Rattle.prefix_keys.specs.Text.{AddressOf};
ghost use Rattle.pmap_model.specs.MapModel.{Label};
ghost use Rattle.pmap_model.specs.Sorting.{in_order};
ghost use Rattle.flow_rows.specs.Elements.{RowView};
ghost use Rattle.flow_uniq.specs.Key.{KeyField, key_of};
ghost use Rattle.flow_uniq.specs.Groups.{GroupModel, groups_of, is_before, shown_groups};
ghost use Rattle.flow_uniq.specs.Grouped.{AreGrouped, group_with, row_groups};
ghost use Rattle.flow_uniq.specs.Laws.{DivideRows, MergedAreAll, MergedDivide};

/// The groups of rows have distinct keys, and each sums exactly the rows that have its key. Their records, packets and
/// bytes add up to those of the rows.
pub fn groups_divide_the_rows()
    ensures { (fields : List KeyField) (label : AddressOf → Option Label) (sorted : Bool) (rows : List RowView) →
        DivideRows (key_of label fields) rows (shown_groups sorted (groups_of fields label rows)) }
{}

/// Sorted groups are the same groups, and no key is before the key of the previous group.
pub fn sorted_groups_are_in_order()
    ensures same { (groups : List GroupModel) → IsPermutation groups (in_order is_before groups) }
    ensures ascends { (groups : List GroupModel) → IsSortedBy is_before (in_order is_before groups) }
{}

/// If groups divide each part of the rows, then these groups, merged by key with their totals added, divide all rows.
/// The groups of all rows are the groups of the parts, merged: in the order of their first rows, or sorted.
pub fn merged_groups_divide_the_rows()
    ensures divide { MergedDivide }
    ensures all { MergedAreAll }
{}

/// `row_groups` divides the rows by what they have in the fields. The groups by keys are the same groups: each has the
/// key of its first row, and sums its rows.
pub fn rows_are_grouped_by_fields()
    ensures grouped { (fields : List KeyField) (label : AddressOf → Option Label) (sorted : Bool) (rows : List RowView)
        → AreGrouped label fields sorted rows (map (λ g. g.0 ∷ g.1) (row_groups label fields sorted rows)) }
    ensures keys { (fields : List KeyField) (label : AddressOf → Option Label) (sorted : Bool) (rows : List RowView) →
        shown_groups sorted (groups_of fields label rows)
        ≡ map (group_with label fields) (row_groups label fields sorted rows) }
{}
