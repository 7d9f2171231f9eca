ghost use Rattle.std.specs.Prelude.{◌≡◌, ◌≤◌, ◌↔◌, ℕ, Bool, List, Ok, Some, length};
ghost use Rattle.std.specs.Borrow.{Bor};
ghost use Rattle.prefix_keys.specs.declared.addr.Addr.{Addr};
ghost use Rattle.pmap_model.specs.ListModel.{IsEquivalent, ListModel};
ghost use Rattle.pmap_model.specs.MapModel.{MapModel};
ghost use Rattle.pmap_text.specs.Reading.{label_limit, list_reading, map_reading, mapping_limit};
ghost use Rattle.pmap_cert.specs.CertificateModel.{CertificateModel};
ghost use Rattle.pmap_cert.specs.ListText.{labels_of, list_text};
ghost use Rattle.label_lookup.specs.Labelling.{labelling_of_map};
ghost use Rattle.ipfix_read.specs.Message.{MessageView};
ghost use Rattle.ipfix_read.specs.Messages.{file_reading};
ghost use Rattle.flow_rows.specs.Counts.{rows_of_messages};
ghost use Rattle.flow_filter.specs.Condition.{Condition, passing};
ghost use Rattle.flow_uniq.specs.declared.field.KeyField.{KeyField};
ghost use Rattle.flowlabel.specs.Headline.{AreShrunk, IsHeadline, PrintsRows};
ghost use Rattle.flow_files.specs.Groups.{PrintsGroups};
ghost use Rattle.flowlabel.specs.Output.{IsOutput};
ghost use Rattle.flow_files.specs.Outcomes.{Outcome};
ghost use Rattle.flow_files.specs.declared.by_file.ByFile.{ByFile};
ghost use Rattle.flowlabel.specs.Request.{Cat, Command, Label, Rows, Shrink, Uniq};
ghost use Rattle.flow_files.specs.Sources.{Text};
ghost use Rattle.flow_files.specs.declared.label_file.LabelFile.{LabelFile};
ghost use Rattle.flow_files.specs.declared.label_file.LabelFile.TheVariants.{List as Prefixes, Map};
ghost use Rattle.flowlabel.specs.declared.command.Shrunk.TheVariants as shrunk;

use cert_check::no_fault_is_acceptance;
use flow_files::uniq_prints_groups;
use flow_rows::counts_add_up;
use pmap_cert::{
    acceptance_is_enough, compact_gives_back_equal, compact_has_a_text, compact_has_no_more_lines,
    compact_keeps_acceptance, map_text_has_a_minimal_pair, map_text_has_its_labels,
    minimal_list_can_be_read_again, minimal_list_is_in_order, minimal_pair_is_accepted,
    minimal_pair_is_unique, printed_list_is_read_back, text_of_format_is_read_or_has_a_fault,
};
use pmap_stretches::{
    labelling_has_its_runs, labelling_has_one_runs_text, runs_cover_each_address_once,
};

/// A command has exactly one output over any texts of its files.
pub fn one_output()
    ensures { (command : Command) (texts : ByFile Text) → (outcome : Outcome) × IsOutput command texts outcome
        × ((other : Outcome) → IsOutput command texts other → other ≡ outcome) }
{
    labelling_has_its_runs();
    labelling_has_one_runs_text();
    map_text_has_a_minimal_pair();
    minimal_pair_is_unique();
}

/// For each map text, `shrink` prints a shortest list and its certificate, compacted or not. If the list is within the
/// limits of a text, its text is read again as the same list. Read as a map text, the text gives each address the same
/// label as the map. `check` accepts the text with the certificate, compacted or not.
pub fn shrunk_list_is_least()
    ensures { (name : Bor Text) (texts : ByFile Text) (m : MapModel) → map_reading texts.map ≡ Ok m →
        (l : ListModel) × (c : CertificateModel) × AreShrunk name texts m l c }
{
    map_text_has_a_minimal_pair();
    map_text_has_its_labels();
    minimal_pair_is_accepted();
    minimal_list_is_in_order();
    minimal_list_can_be_read_again();
    acceptance_is_enough();
    compact_has_a_text();
    compact_keeps_acceptance();
    text_of_format_is_read_or_has_a_fault();
    no_fault_is_acceptance();
    printed_list_is_read_back();
}

/// The headline holds for each output that is a text.
pub fn output_keeps_headline()
    ensures { (command : Command) (texts : ByFile Text) (out : List ℕ) → IsOutput command texts (Ok out) →
        IsHeadline command texts out }
{
    one_output();
    shrunk_list_is_least();
    acceptance_is_enough();
    no_fault_is_acceptance();
    text_of_format_is_read_or_has_a_fault();
    compact_has_a_text();
    compact_has_no_more_lines();
    compact_gives_back_equal();
    compact_keeps_acceptance();
    counts_add_up();
    uniq_prints_groups();
    runs_cover_each_address_once();
}

/// For equivalent texts of a map and a list, `label`, `rows`, `uniq` and `cat` have the same outcome under the map as
/// under the list. The other files have any texts, and all files any names.
pub fn output_is_same_under_equivalent_labels()
    ensures { (name : Bor Text) (texts : ByFile Text) (m : MapModel) (l : ListModel) →
        map_reading texts.map ≡ Ok m → list_reading texts.list ≡ Ok l → IsEquivalent l m →
        let IsSame = λ (under : LabelFile → Command). (outcome : Outcome)
        → IsOutput (under (Map name)) texts outcome ↔ IsOutput (under (Prefixes name)) texts outcome in
        ((addr : Addr) → IsSame (λ labels. Label labels addr))
        × ((condition : Condition) (columns : Bool) → IsSame (λ labels. Rows (Some labels) condition columns name))
        × ((fields : List KeyField) (condition : Condition) (sorted columns : Bool)
        → IsSame (λ labels. Uniq fields (Some labels) condition sorted columns name))
        × IsSame (λ labels. Cat labels) }
{}

/// For each map text and each File, `rows` and `uniq` print the same text under the map as under the list that `shrink`
/// prints, if this list is within the limits of a text: the rows that the options leave, and the groups of these rows.
pub fn shrunk_list_keeps_reports()
    ensures { (name : Bor Text) (texts : ByFile Text) (m : MapModel) (messages : List MessageView) (printed : Text) →
        map_reading texts.map ≡ Ok m → file_reading texts.flows ≡ Ok messages →
        IsOutput (Shrink name shrunk.List) texts (Ok printed) → (l : ListModel) × (printed ≡ list_text l)
        × (length l.prefixes ≤ mapping_limit → length (labels_of l.prefixes) ≤ label_limit →
        let labels = Some (labelling_of_map m) in let with_list = record texts { list = printed } in
        let left = λ (condition : Condition). passing condition labels (rows_of_messages messages) in
        ((condition : Condition) (columns : Bool) → (out : Text)
        × IsOutput (Rows (Some (Map name)) condition columns name) texts (Ok out)
        × IsOutput (Rows (Some (Prefixes name)) condition columns name) with_list (Ok out)
        × PrintsRows columns labels (left condition) (Ok out))
        × ((fields : List KeyField) (condition : Condition) (sorted columns : Bool) → (out : Text)
        × IsOutput (Uniq fields (Some (Map name)) condition sorted columns name) texts (Ok out)
        × IsOutput (Uniq fields (Some (Prefixes name)) condition sorted columns name) with_list (Ok out)
        × PrintsGroups fields sorted columns labels (left condition) (Ok out))) }
{
    one_output();
    shrunk_list_is_least();
    output_keeps_headline();
    output_is_same_under_equivalent_labels();
}
