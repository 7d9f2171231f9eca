//! Laws about conditions.
ghost use Rattle.std.specs.Prelude.{◌≡◌, ◌↔◌, ◌++◌, All, IsTrue, List, Option};
ghost use Rattle.label_lookup.specs.Labelling.{Labelling, label_where};
ghost use Rattle.flow_rows.specs.Elements.{RowView};
ghost use Rattle.flow_filter.specs.Condition.{Condition, meets_option, passing, row_passes};

/// A row passes if and only if it meets each option given. The rows that pass the options of two filters together are
/// those that pass one filter and then the other.
pub fn options_hold_together()
    ensures each { (condition : Condition) (labels : Option Labelling) (row : RowView) →
        IsTrue (row_passes condition (label_where labels) row)
        ↔ All (λ part. IsTrue (meets_option (label_where labels) row part)) condition }
    ensures together { (one other : Condition) (labels : Option Labelling) (rows : List RowView) →
        passing (one ++ other) labels rows ≡ passing other labels (passing one labels rows) }
{}
