ghost use Rattle.std.specs.Prelude.{◌≡◌};
ghost use Rattle.flow_files.specs.Sources.{names_of};
ghost use Rattle.flow_many.specs.Request.{files_of, labels_named, request_of};

use crate::names::Names;
use flow_files::{ByFile, LabelFile, files_named};
use flow_filter::Filter;
use flow_uniq::Keys;

/// A command, as a command line asks for it. File names and texts are borrowed from the words.
#[derive(Drop)]
pub enum Command<'a> {
    /// `sum`: the sums of the rows of Files that pass the filter, by the start of a unit of time or by fields.
    Sum {
        keys: Keys,
        labels: Option<LabelFile<'a>>,
        filter: Filter<'a>,
        /// Whether Files may have skipped sets, whose records are in no sum.
        allow_skipped: bool,
        columns: bool,
        files: Names<'a>,
    },
    /// `messages`: what each message of Files has.
    Messages {
        files: Names<'a>,
    },
}

impl<'a> Command<'a> {
    /// Returns the names of the files that labels come from.
    pub fn label_files(&self) -> ByFile<Option<&'a str>>
        ensures { names_of result ≡ labels_named (request_of self.now) }
    {
        match self {
            Command::Sum { labels, .. } => files_named(*labels, None),
            Command::Messages { .. } => files_named(None, None),
        }
    }

    /// Returns the names of the Files.
    pub fn files(&self) -> &Names<'a>
        ensures { result.now ≡ files_of (request_of self.now) }
    {
        match self {
            Command::Sum { files, .. } | Command::Messages { files } => files,
        }
    }
}
