//! Laws about what contracts see of the program's files and streams.
ghost use Rattle.std.specs.Prelude.{◌≡◌, ◌++◌, ℕ, List, [], Option, Some, length, true};
ghost use Rattle.flow_io.specs.Ahead.{bytes_ahead, input_ahead};
ghost use Rattle.flow_io.specs.Devices.{has_ended};
ghost use Rattle.flow_io.specs.Watched.{input_watched, output_watched, watched};
ghost use Rattle.flow_io.specs.declared.read_ahead.ReadAhead.{ReadAhead};
ghost use Rattle.flow_io.specs.declared.watch.Watched.{Watched};

/// A file is a `Watched` reader that a `ReadAhead` asks for its bytes. The bytes that the system returned are always
/// those that the `ReadAhead` returned, followed by those ahead. Contracts see what both note, and the end is found
/// only when no byte is ahead. The inner reader is of any type, here a list. `left` gives the bytes that it reports.
pub fn readers_show_what_they_note()
    ensures fetched { (left : List ℕ → Option (List ℕ)) (reader : ReadAhead (Watched (List ℕ)) (watched left)) →
        reader.inner.read.bytes ≡ reader.returned.bytes ++ bytes_ahead reader }
    ensures returned { (left : List ℕ → Option (List ℕ)) (reader : ReadAhead (Watched (List ℕ)) (watched left)) →
        (input_ahead (watched left) reader).returned ≡ reader.returned.bytes }
    ensures failed { (left : List ℕ → Option (List ℕ)) (reader : ReadAhead (Watched (List ℕ)) (watched left)) →
        (input_ahead (watched left) reader).failed ≡ reader.inner.failed }
    ensures ended { (left : List ℕ → Option (List ℕ)) (reader : ReadAhead (Watched (List ℕ)) (watched left)) →
        has_ended (input_ahead (watched left) reader) ≡ true → (reader.ended ≡ true) × (bytes_ahead reader ≡ []) }
    ensures left { (left : List ℕ → Option (List ℕ)) (reader : ReadAhead (Watched (List ℕ)) (watched left)) →
        (rest : List ℕ) → left reader.inner.inner ≡ Some rest →
        (input_ahead (watched left) reader).left ≡ Some (bytes_ahead reader ++ rest) }
    ensures alone { (left : List ℕ → Option (List ℕ)) (reader : Watched (List ℕ)) →
        (input_watched left reader).returned ≡ reader.read.bytes }
    ensures found { (left : List ℕ → Option (List ℕ)) (reader : Watched (List ℕ)) →
        has_ended (input_watched left reader) ≡ true → reader.ended ≡ true }
{}

/// Contracts see of a watched writer the bytes that its writes have noted as taken, whether it failed, its last call,
/// how many flushes it noted, and what the inner writer, here a list, reports. `contents` gives the bytes that it
/// reports.
pub fn writers_show_what_they_note()
    ensures taken { (contents : List ℕ → Option (List ℕ)) (writer : Watched (List ℕ)) →
        (output_watched contents writer).taken ≡ writer.taken.bytes }
    ensures failed { (contents : List ℕ → Option (List ℕ)) (writer : Watched (List ℕ)) →
        (output_watched contents writer).failed ≡ writer.failed }
    ensures last { (contents : List ℕ → Option (List ℕ)) (writer : Watched (List ℕ)) →
        (output_watched contents writer).last_call ≡ writer.last_call }
    ensures flushes { (contents : List ℕ → Option (List ℕ)) (writer : Watched (List ℕ)) →
        (output_watched contents writer).flushes ≡ length writer.flushed.bytes }
    ensures contents { (contents : List ℕ → Option (List ℕ)) (writer : Watched (List ℕ)) →
        (output_watched contents writer).contents ≡ contents writer.inner }
{}
