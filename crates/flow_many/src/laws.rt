//! Laws about the outputs.
ghost use Rattle.std.specs.Prelude.{◌≡◌, List, Ok};
ghost use Rattle.flow_files.specs.declared.by_file.ByFile.{ByFile};
ghost use Rattle.flow_files.specs.Sources.{Text};
ghost use Rattle.flow_many.specs.Headline.{IsHeadline};
ghost use Rattle.flow_many.specs.Joined.{SumOfJoinedFile};
ghost use Rattle.flow_many.specs.Output.{outcome_of};
ghost use Rattle.flow_many.specs.Request.{Command};

use flow_files::uniq_prints_groups;
use flow_rows::message_counts_add_up;
use ipfix_read::{file_after_file, placed_are_messages};

/// The headline holds for each output that is a text.
pub fn output_keeps_headline()
    ensures { (command : Command) (labels_text : ByFile Text) (texts : List Text) (out : Text)
        → outcome_of command labels_text texts ≡ Ok out → IsHeadline command labels_text texts out }
{
    uniq_prints_groups();
    placed_are_messages();
    message_counts_add_up();
}

/// The sum over Files that can be joined is what `uniq` prints for the joined File.
pub fn sum_of_joined_file()
    ensures { SumOfJoinedFile }
{
    file_after_file();
    placed_are_messages();
}
