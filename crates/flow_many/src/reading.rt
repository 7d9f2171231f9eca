//! Files, which are opened and read one after the other.
ghost use Rattle.std.specs.Prelude.{◌≡◌, ◌++◌, ◌∷◌, ◌<◌, ◌^◌, [], ℕ, List, None, Option, length, map};
ghost use Rattle.flow_files.specs.declared.bytes_fault.BytesFault.{BytesFault as BytesFaultView};
ghost use Rattle.flow_many.specs.Files.{Placed, first_refusal};
ghost use Rattle.flow_many.specs.Reading.{EndsFile, EndsFiles, count_in};

use flow_files::{BytesFault, Opener, RunFault, TakesMessages, add_messages, open_source};
use ipfix_read::Buffer;
use std::alloc::Global;

/// What the messages of Files are added to, File by File.
pub trait TakesFiles: TakesMessages {
    // The fault of a message, by the number of messages of all Files before it.
    ghost refusal: { Self → ℕ → Placed → Option BytesFaultView };

    // The first value, the Files whose messages were added to it, and the value with them.
    ghost has_files: { Self → List (List Placed) → Self → Type 0 };

    /// Ends a File, all of whose messages were added. Returns the first fault of its messages.
    fn end_file(&mut self) -> Option<BytesFault>
        requires { (first start : Self) × (files : List (List Placed)) × (messages : List Placed)
            × has_files first files start × Self.has_messages start messages self.old × (length files < 2 ^ 63) }
        ensures { (first start : Self) (files : List (List Placed)) (messages : List Placed)
            → has_files first files start → Self.has_messages start messages self.old
            → (result ≡ first_refusal (refusal first) (count_in files) messages)
            × (result ≡ None → has_files first (files ++ messages ∷ []) self.new
            × Self.has_messages self.new [] self.new) };
}

// Opens a File, and adds its messages.
fn read_file<'a, O: Opener, T: TakesFiles>(
    alloc: Global,
    opener: &O,
    name: &'a str,
    buffer: &mut Buffer,
    taker: &mut T,
) -> Result<(), RunFault<'a>>
    requires { (first : T) × (files : List (List Placed)) × T.has_files first files taker.old
        × T.has_messages taker.old [] taker.old × (length files < 2 ^ 63) }
    ensures { EndsFile (O.answers opener.now) O.Reader.input T.refusal T.has_files T.has_messages name.entry.now
        taker.old taker.new result }
{
    let mut source = open_source(alloc, opener, Some(name))?;
    add_messages(alloc, &mut source, buffer, taker)?;
    match taker.end_file() {
        None => Ok(()),
        Some(fault) => Err(RunFault::of(name, fault)),
    }
}

/// Opens and reads the Files with these names, one after the other, and adds their messages. Each is closed before the
/// next is opened.
///
/// # Errors
///
/// The first fault: a File that can't be opened or read, the first fault of a File's bytes or, if these have no fault,
/// of its messages. No File after it is opened. Or `NoMemory` if an allocation fails.
pub fn read_files<'a, O: Opener, T: TakesFiles>(
    alloc: Global,
    opener: &O,
    names: &[&'a str],
    taker: &mut T,
) -> Result<(), RunFault<'a>>
    requires ready { T.has_messages taker.old [] taker.old }
    requires none { T.has_files taker.old [] taker.old }
    ensures { EndsFiles (O.answers opener.now) O.Reader.input (T.refusal taker.old)
        (λ files. T.has_files taker.old files taker.new) (map (λ name. name.now) names.entry.now) result }
{
    let mut buffer = Buffer::new(alloc)?;
    for name in names {
        read_file(alloc, opener, name, &mut buffer, taker)?;
    }
    Ok(())
}
