//! The lines of the messages of Files, whose bytes are in hexadecimal.
#![tactic(auto, unfolding(crate::specs::Rows::opened, crate::specs::Files::opened))]

ghost use Rattle.definition_examples.specs.Messages.{both_directions, flows, options};
ghost use Rattle.flow_rows.specs.Laws.{sums_of_lines, summed_message_counts};
ghost use Rattle.pmap_print.specs.Messages.{messages_text};
ghost use Rattle.std.specs.Prelude.{◌≡◌, ◌∷◌, [], codes, map};

/// FORMATS.md, "Messages of Files". Time 0x6553f100 is 1,700,000,000.
pub fn each_message_has_a_line()
    ensures no_file { messages_text []
        ≡ codes "file|message|offset|domain|sequence|time|definitions|skipped-sets|records|options-records|rows|zero-bytes\n" }
    ensures one_file { messages_text (flows ∷ [])
        ≡ codes "file|message|offset|domain|sequence|time|definitions|skipped-sets|records|options-records|rows|zero-bytes\n1|1|0|7|0|1700000000|1|0|2|0|2|1\n1|2|64|7|2|1700000060|0|1|0|0|0|0\n" }
    ensures two_files { messages_text (flows ∷ options ∷ [])
        ≡ codes "file|message|offset|domain|sequence|time|definitions|skipped-sets|records|options-records|rows|zero-bytes\n1|1|0|7|0|1700000000|1|0|2|0|2|1\n1|2|64|7|2|1700000060|0|1|0|0|0|0\n2|1|0|1|0|0|1|0|0|1|0|0\n" }
    ensures a_file_without_messages { messages_text (options ∷ [] ∷ both_directions ∷ [])
        ≡ codes "file|message|offset|domain|sequence|time|definitions|skipped-sets|records|options-records|rows|zero-bytes\n1|1|0|1|0|0|1|0|0|1|0|0\n3|1|0|0|4294967295|1|1|0|1|0|2|1\n" }
{}

/// The sums over the lines of a File are its counts.
pub fn lines_add_up()
    ensures no_message { summed_message_counts [] ≡ 0 ∷ 0 ∷ 0 ∷ 0 ∷ 0 ∷ 0 ∷ [] }
    ensures two_messages { summed_message_counts (map (λ m. m.1) flows) ≡ 1 ∷ 1 ∷ 2 ∷ 0 ∷ 2 ∷ 1 ∷ [] }
    ensures all_kinds { sums_of_lines (1 ∷ 2 ∷ 30 ∷ 4 ∷ 5 ∷ 6 ∷ 7 ∷ 8 ∷ 9 ∷ []) 3 ≡ 32 ∷ 6 ∷ 7 ∷ 8 ∷ 9 ∷ 3 ∷ [] }
{}
