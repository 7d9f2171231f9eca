//! Laws about reading Files.
ghost use Rattle.ipfix_read.specs.Laws.{CallsJoinFile, CallsStart, FileAfterFile};
ghost use Rattle.ipfix_read.specs.Laws.{FirstMessageAndRest, JoinedFileIsRead, PlacedAreMessages};

/// A first message, followed by the rest read after it, is the whole, under any templates in force, after any number of
/// messages and at any offset.
pub fn first_message_and_rest()
    ensures { FirstMessageAndRest }
{}

/// The messages of bytes, each with the offset at which it begins, are the messages of these bytes.
pub fn placed_are_messages()
    ensures { PlacedAreMessages }
{}

/// Calls for messages join to the whole, whether reading begins with a File or after other messages. Before any call
/// nothing is read. If some messages are read so far, the next call returns one more of them at the offset of the
/// state, or that there are no more, or the first fault of the whole, or that the reader failed before it.
pub fn calls_join_file()
    ensures start { CallsStart }
    ensures join { CallsJoinFile }
{}

/// If a File has no fault, and no data set of it lacks a template when it is read alone, then it has the same messages
/// after another File without a fault. So a joined File has the messages of all its Files, unless they are more than a
/// File can have.
pub fn file_after_file()
    ensures two { FileAfterFile }
    ensures many { JoinedFileIsRead }
{}
