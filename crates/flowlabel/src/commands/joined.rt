//! The law of joined Files.
ghost use Rattle.flowlabel.specs.Joined.{OutputOfJoinedFile};

use flow_rows::joined_file_adds_up;
use flow_uniq::merged_groups_divide_the_rows;

/// If no data set of the later Files lacks a template when they are read alone, then the output for the joined File is
/// that of the Files, put together: `info` adds their numbers, `rows` prints their lines under one header, and `uniq`
/// merges their groups, in the order of their first rows or sorted.
pub fn output_of_joined_file()
    ensures { OutputOfJoinedFile }
{
    joined_file_adds_up();
    merged_groups_divide_the_rows();
}
