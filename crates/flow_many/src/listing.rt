//! The lines of the messages of Files.
ghost use Rattle.std.specs.Prelude.{◌≡◌, []};
ghost use Rattle.flow_many.specs.Reading.{HasListedFiles};

use crate::reading::TakesFiles;
use flow_files::{BytesFault, TakesMessages};
use ipfix_read::Message;
use pmap_print::{MessageLine, MessagesText};
use std::alloc::{AllocError, Global};

/// The lines of the messages of Files.
#[derive(Drop)]
pub struct Listing {
    lines: Vec<MessageLine>,
    // The number of the File, from 1.
    file: u64,
    // The number of the File's messages.
    messages: u32,
}

impl Listing {
    /// Returns the lines of no messages.
    pub fn new(alloc: Global) -> Listing
        ensures { HasListedFiles result [] result }
    {
        Listing {
            lines: Vec::new(alloc),
            file: 1,
            messages: 0,
        }
    }

    /// Returns the text of the lines.
    pub fn text(&self) -> MessagesText<'_>
        ensures { result.lines.now ≡ self.now.lines.items }
    {
        MessagesText {
            lines: self.lines.as_slice(),
        }
    }
}

impl TakesMessages for Listing {
    ghost use Rattle.flow_many.specs.Reading.{HasListed};

    ghost has_messages = { HasListed };

    fn take_message(&mut self, message: &Message<'_>, offset: u64) -> Result<(), AllocError> {
        let number = self.messages + 1;
        self.lines
            .push(MessageLine::of(self.file, number, offset, message))?;
        self.messages = number;
        Ok(())
    }
}

impl TakesFiles for Listing {
    ghost use Rattle.flow_many.specs.Reading.{HasListedFiles, refuses_none};

    ghost refusal = { refuses_none };

    ghost has_files = { HasListedFiles };

    fn end_file(&mut self) -> Option<BytesFault> {
        self.file += 1;
        self.messages = 0;
        None
    }
}
