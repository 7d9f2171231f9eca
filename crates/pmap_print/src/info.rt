//! The printed text of counts.
ghost use Rattle.std.specs.Prelude.{◌≡◌, ◌++◌, ◌∷◌, [], IfOk, decimal};
ghost use Rattle.flow_io.specs.Sinks.{Pushes};
ghost use Rattle.flow_rows.specs.Counts.{count_list};
ghost use Rattle.pmap_print.specs.Reports.{info_text};

use crate::fields::push_number;
use flow_io::Sink;
use flow_rows::Counts;
use std::alloc::{AllocError, Global};

// Prints the line of a count: its name and its number.
fn print_count<S: Sink>(out: &mut S, name: &[u8], number: u64) -> Result<(), S::Fault>
    ensures { Pushes S.sink S.began out.old out.new (name.now ++ 32 ∷ decimal number ++ 10 ∷ []) result }
{
    out.push(name)?;
    out.push(b" ")?;
    push_number(out, 0, b'\n', number)
}

/// Returns the text of counts: a line for each, with its name and its number.
pub fn print_info(alloc: Global, counts: &Counts) -> Result<Vec<u8>, AllocError>
    ensures { IfOk result (λ out. out.items ≡ info_text (count_list counts.now)) }
{
    let mut out = Vec::new(alloc);
    print_count(&mut out, b"messages", counts.messages)?;
    print_count(&mut out, b"templates", counts.templates)?;
    print_count(&mut out, b"options-templates", counts.options_templates)?;
    print_count(&mut out, b"withdrawals", counts.withdrawals)?;
    print_count(&mut out, b"data-sets", counts.data_sets)?;
    print_count(&mut out, b"skipped-sets", counts.skipped_sets)?;
    print_count(&mut out, b"records", counts.records)?;
    print_count(&mut out, b"options-records", counts.options_records)?;
    print_count(&mut out, b"rows", counts.rows)?;
    Ok(out)
}
