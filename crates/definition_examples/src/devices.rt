//! Readers and writers: which bytes a writer took, how it stopped, and whether a reader has ended. The states are
//! written down by hand.

ghost use Rattle.definition_examples.specs.Devices.{holder, reader, writer};
ghost use Rattle.flow_io.specs.Devices.{StopsWriting, Takes, WritesWhole, has_ended};
ghost use Rattle.flow_io.specs.declared.devices.LastCall.TheVariants.{FailedFlush, Flush, Nothing, Write};
ghost use Rattle.std.specs.Prelude.{◌≡◌, [], codes, false, None, Some, true};

/// The bytes that a writer has taken, and all that it holds.
pub fn a_writer_takes_bytes_after_those_before()
    ensures more { Takes (writer false Write (codes "a")) (writer false Write (codes "ab")) (codes "b") }
    ensures none { Takes (writer false Write (codes "a")) (writer false Write (codes "a")) (codes "") }
    ensures the_contents_too { Takes (holder (Some (codes "x"))) (holder (Some (codes "x"))) (codes "") }
{}

/// A writer that has taken other bytes, or holds others.
pub fn a_writer_takes_no_other_bytes()
    ensures fewer { Takes (writer false Write (codes "a")) (writer false Write (codes "a")) (codes "b") → ⊥ }
    ensures others_before { Takes (writer false Write (codes "a")) (writer false Write (codes "b")) (codes "b") → ⊥ }
    ensures others_after { Takes (writer false Write (codes "")) (writer false Write (codes "ab")) (codes "b") → ⊥ }
    ensures no_contents { Takes (holder (Some (codes "x"))) (holder None) (codes "") → ⊥ }
    ensures other_contents { Takes (holder (Some (codes "x"))) (holder (Some (codes ""))) (codes "") → ⊥ }
{}

/// The writer took the bytes, and was then flushed once.
pub fn a_writer_writes_and_is_flushed()
    ensures all { WritesWhole (writer false Write (codes "a")) (writer false Flush (codes "ab")) (codes "b") }
    ensures once_more { WritesWhole (writer false Flush (codes "a"))
        (record (writer false Flush (codes "ab")) { flushes = 2 }) (codes "b") }
{}

/// A writer that took other bytes, wasn't flushed last, was flushed twice, or failed.
pub fn a_writer_has_not_written()
    ensures other_bytes { WritesWhole (writer false Write (codes "a")) (writer false Flush (codes "a")) (codes "b")
        → ⊥ }
    ensures without_a_flush { WritesWhole (writer false Flush (codes "a"))
        (record (writer false Write (codes "ab")) { flushes = 2 }) (codes "b") → ⊥ }
    ensures flushed_twice { WritesWhole (writer false Write (codes "a"))
        (record (writer false Flush (codes "ab")) { flushes = 2 }) (codes "b") → ⊥ }
    ensures after_a_failure { WritesWhole (writer false Write (codes "a")) (writer true Flush (codes "ab")) (codes "b")
        → ⊥ }
{}

/// A writer that failed, with what it took before.
pub fn a_writer_stops_at_a_write_or_a_flush()
    ensures at_the_first_write { StopsWriting (writer false Nothing (codes "a")) (writer true Write (codes "a"))
        (codes "bc") }
    ensures within_the_bytes { StopsWriting (writer false Flush (codes "a"))
        (record (writer true Write (codes "ab")) { flushes = 1 }) (codes "bc") }
    ensures at_the_flush { StopsWriting (writer false Write (codes "a")) (writer true FailedFlush (codes "abc"))
        (codes "bc") }
{}

/// A writer that works, that took other bytes, that failed at a flush although bytes were left, or that was flushed
/// before.
pub fn a_writer_has_not_stopped()
    ensures it_works { StopsWriting (writer true Write (codes "a")) (writer false Write (codes "ab")) (codes "bc") → ⊥ }
    ensures other_bytes { StopsWriting (writer false Write (codes "a")) (writer true Write (codes "ac")) (codes "b")
        → ⊥ }
    ensures more_bytes { StopsWriting (writer false Write (codes "a")) (writer true Write (codes "abc")) (codes "b")
        → ⊥ }
    ensures others_before { StopsWriting (writer false Write (codes "a")) (writer true Write (codes "b")) (codes "b")
        → ⊥ }
    ensures flushed { StopsWriting (writer false Write (codes "a")) (writer true Flush (codes "ab")) (codes "b") → ⊥ }
    ensures flushed_uncounted { StopsWriting (writer false Write (codes "a"))
        (record (writer true Flush (codes "ab")) { flushes = 0 }) (codes "b") → ⊥ }
    ensures flushed_too_early { StopsWriting (writer false Write (codes "a")) (writer true FailedFlush (codes "a"))
        (codes "b") → ⊥ }
    ensures flushed_before_a_write { StopsWriting (writer false Write (codes "a"))
        (record (writer true Write (codes "ab")) { flushes = 1 }) (codes "bc") → ⊥ }
    ensures flushed_twice { StopsWriting (writer false Write (codes "a"))
        (record (writer true FailedFlush (codes "abc")) { flushes = 2 }) (codes "bc") → ⊥ }
{}

/// A reader has ended if its last read found nothing, and nothing is left.
pub fn a_reader_has_ended()
    ensures nothing_is_left { has_ended (reader true None) ≡ true }
    ensures nothing_is_left_as_it_reports { has_ended (reader true (Some [])) ≡ true }
    ensures a_read_found_bytes { has_ended (reader false None) ≡ false }
    ensures a_byte_is_left { has_ended (reader true (Some (codes "x"))) ≡ false }
{}
