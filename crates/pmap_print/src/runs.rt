ghost use Rattle.std.specs.Prelude.{◌≡◌, ◌<◌, [], IfOk, length, unwrap_or};
ghost use Rattle.flow_io.specs.Sinks.{Pushes};
ghost use Rattle.pmap_stretches.specs.Stretches.{AreLabelsBelow, text_held};
ghost use Rattle.pmap_stretches.specs.RunsText.{IsRunsText, line_text, run_at, run_fields};

use crate::fields::{push_address, push_field};
use flow_io::{Printable, Sink, text_of};
use pmap_model::Labels;
use pmap_stretches::{Runs, Stretches};
use prefix_keys::Addr;
use std::alloc::{AllocError, Global};

// Returns the label of the run with this index, which is empty if it has none.
fn label_text<'l>(runs: &Stretches, index: usize, labels: &'l Labels) -> &'l [u8]
    requires { index < length runs.now.firsts }
    ensures { result.now ≡ unwrap_or (run_at labels.now runs.now index).label [] }
{
    match runs.label(index) {
        Some(label) => labels.text(label).unwrap_or(b""),
        None => b"",
    }
}

// Prints the line of the run with this index: its first and last address, and the label.
fn print_run<S: Sink>(
    out: &mut S,
    runs: &Stretches,
    index: usize,
    labels: &Labels,
) -> Result<(), S::Fault>
    requires { index < length runs.now.firsts }
    ensures { Pushes S.sink S.began out.old out.new
        (line_text (run_fields runs.now.version (run_at labels.now runs.now index))) result }
{
    runs.laws();
    let version = runs.version();
    let low = Addr {
        version,
        value: runs.first(index),
    };
    let high = Addr {
        version,
        value: runs.last(index),
    };
    push_address(out, 0, b'|', low)?;
    push_address(out, 0, b'|', high)?;
    push_field(out, 0, b'\n', label_text(runs, index, labels))?;
    Ok(())
}

/// The text of runs, to be printed: a header, and a line for each maximal range of consecutive addresses with the same
/// label or with none. The line has the first and the last address and the label.
#[derive(Drop)]
pub struct RunsText<'a> {
    /// The runs.
    pub runs: &'a Runs,
    /// The labels of the map or the list.
    pub labels: &'a Labels,
}

impl Printable for RunsText<'_> {
    ghost use Rattle.std.specs.Prelude.{length};
    ghost use Rattle.pmap_stretches.specs.RunsText.{IsRunsText};
    ghost use Rattle.pmap_stretches.specs.Stretches.{AreLabelsBelow, text_held};

    ghost is_whole = { λ t. AreLabelsBelow (length t.labels.now) t.runs.now.stretches };

    ghost is_text = { λ t text. IsRunsText t.runs.now.stretches.version
        (text_held t.labels.now t.runs.now.stretches) text };

    fn print<S: Sink>(&self, out: &mut S) -> Result<(), S::Fault> {
        let runs = &self.runs.stretches;
        self.labels.laws();
        runs.laws();
        out.push(b"low|high|label\n")?;
        for index in 0..runs.len() {
            print_run(out, runs, index, self.labels)?;
        }
        Ok(())
    }
}

/// Returns the text of runs, as [`RunsText`] prints it.
pub fn print_runs(alloc: Global, runs: &Runs, labels: &Labels) -> Result<Vec<u8>, AllocError>
    requires { AreLabelsBelow (length labels.now) runs.now.stretches }
    ensures { IfOk result (λ out. IsRunsText runs.now.stretches.version
        (text_held labels.now runs.now.stretches) out.items) }
{
    text_of(alloc, &RunsText { runs, labels })
}
