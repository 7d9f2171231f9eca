//! The output of `info`.
ghost use Rattle.std.specs.Borrow.{Bor};
ghost use Rattle.flowlabel.specs.Output.{IsOutput};
ghost use Rattle.flow_files.specs.Reports.{AreFresh};
ghost use Rattle.flowlabel.specs.Printouts.{IsPrintout};
ghost use Rattle.flowlabel.specs.Request.{Info};
ghost use Rattle.flow_files.specs.Sources.{Text};

use crate::commands::printout::Printout;
use flow_files::{Files, RunFault, TakesMessages, add_messages};
use flow_io::Input;
use flow_rows::Counts;
use ipfix_read::{Buffer, Message};
use pmap_print::print_info;
use std::alloc::{AllocError, Global};

/// The counts of the messages that were added.
#[derive(Drop)]
struct Counted {
    counts: Counts,
}

impl TakesMessages for Counted {
    ghost use Rattle.ipfix_read.specs.Messages.{messages_in};
    ghost use Rattle.flowlabel.specs.Printouts.{HasCounts};

    ghost has_messages = { λ first placed now. HasCounts (messages_in placed) now };

    #[inline(always)]
    fn take_message(&mut self, message: &Message<'_>, _offset: u64) -> Result<(), AllocError> {
        self.counts.add(message);
        Ok(())
    }
}

/// Returns the counts of the messages of a File and of what they have.
pub fn output<'a, R: Input>(
    alloc: Global,
    files: &mut Files<'a, R>,
) -> Result<Printout, RunFault<'a>>
    requires { AreFresh R.input files.old }
    ensures { (flows : Bor Text) → IsPrintout R.input (IsOutput (Info flows)) files.old files.new result }
{
    let mut buffer = Buffer::new(alloc)?;
    let mut counted = Counted {
        counts: Counts::new(),
    };
    add_messages(alloc, &mut files.flows, &mut buffer, &mut counted)?;
    Ok(Printout::Text(print_info(alloc, &counted.counts)?))
}
