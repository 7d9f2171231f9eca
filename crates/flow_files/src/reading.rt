//! Reads a file whole, and decodes its text. A text is given away once it is decoded.
ghost use Rattle.std.specs.Prelude.{◌≡◌, ⊤, false, true, IfOk, OnErr, OnOk};
ghost use Rattle.pmap_model.specs.MapText.{map_of};
ghost use Rattle.pmap_model.specs.PrefixList.{list_of};
ghost use Rattle.pmap_text.specs.Reading.{list_reading, map_reading};
ghost use Rattle.pmap_cert.specs.Certificate.{certificate_of};
ghost use Rattle.pmap_cert.specs.FormatReading.{format_reading};
ghost use Rattle.flow_files.specs.declared.bytes_fault.BytesFault.TheVariants.{Certificate as InCertificate};
ghost use Rattle.flow_files.specs.declared.bytes_fault.BytesFault.TheVariants.{List as InList, Map as InMap};
ghost use Rattle.flow_files.specs.Reports.{Decodes, IsFresh, IsText};
ghost use Rattle.flow_io.specs.Devices.{Gives as GivesBytes, ReadsInput, has_ended, is_failed_read};

use crate::bytes_fault::BytesFault;
use crate::fault::RunFault;
use crate::inputs::Source;
use flow_io::{Input, ReadStop, read_whole};
use pmap_cert::{Certificate, read_cert_with_hashing, text_of_format_is_read_or_has_a_fault};
use pmap_model::{KeyHashing, MapText, PrefixList};
use pmap_text::{Pieces, read_list_with_hashing, read_map_with_hashing};
use std::alloc::Global;

/// Reads the rest of a file, and returns its name and its text. Both are empty if the file isn't there.
pub fn read<'a, R: Input>(
    alloc: Global,
    file: &mut Option<Source<'a, R>>,
) -> Result<(&'a str, Vec<u8>), RunFault<'a>>
    requires { IsFresh R.input file.old }
    ensures { IsText R.input (λ text. text.items) file.old file.new result }
{
    let Some(source) = file else {
        return Ok(("", Vec::new(alloc)));
    };
    match read_whole(alloc, &mut source.reader) {
        Ok(text) => Ok((source.name, text)),
        Err(ReadStop::DeviceFault) => Err(RunFault::CannotRead(source.name)),
        Err(ReadStop::NoMemory) => Err(RunFault::NoMemory),
    }
}

// The number of bytes that are requested from a map's reader at a time.
const CHUNK: usize = 65_536;

// Reads to the end of the input like `read_whole`, and returns the text in pieces.
fn read_pieces<R: Input>(alloc: Global, reader: &mut R) -> Result<Pieces, ReadStop>
    requires { (R.input reader.old).failed ≡ false }
    ensures whole { IfOk result (λ text. GivesBytes (R.input reader.old) (R.input reader.new) text) }
    ensures end { OnOk result (has_ended (R.input reader.new) ≡ true) }
    ensures stopped { OnErr result (ReadsInput (R.input reader.old) (R.input reader.new) (λ _. ⊤)) }
    ensures fault { (R.input reader.new).failed ≡ is_failed_read result }
{
    let mut text = Pieces::new(alloc);
    let mut chunk = Vec::new(alloc);
    chunk.resize(CHUNK, 0).map_err(|_| ReadStop::NoMemory)?;
    loop {
        let Ok(count) = reader.read(chunk.as_mut_slice()) else {
            return Err(ReadStop::DeviceFault);
        };
        if count == 0 {
            return Ok(text);
        }
        let Ok(longer) = text.with(&chunk[..count]) else {
            return Err(ReadStop::NoMemory);
        };
        text = longer;
    }
}

// Reads the rest of a file like `read`, and returns its text in pieces.
fn read_in_pieces<'a, R: Input>(
    alloc: Global,
    file: &mut Option<Source<'a, R>>,
) -> Result<(&'a str, Pieces), RunFault<'a>>
    requires { IsFresh R.input file.old }
    ensures { IsText R.input (λ text. text) file.old file.new result }
{
    let Some(source) = file else {
        return Ok(("", Pieces::new(alloc)));
    };
    match read_pieces(alloc, &mut source.reader) {
        Ok(text) => Ok((source.name, text)),
        Err(ReadStop::DeviceFault) => Err(RunFault::CannotRead(source.name)),
        Err(ReadStop::NoMemory) => Err(RunFault::NoMemory),
    }
}

/// Reads a file as the text of a map.
pub fn read_map<'a, R: Input>(
    alloc: Global,
    file: &mut Option<Source<'a, R>>,
    hashing: KeyHashing,
) -> Result<MapText, RunFault<'a>>
    requires { IsFresh R.input file.old }
    ensures { Decodes R.input InMap map_reading map_of file.old file.new result }
{
    let (name, text) = read_in_pieces(alloc, file)?;
    match read_map_with_hashing(alloc, text, hashing) {
        Ok(map) => Ok(map),
        Err(fault) => Err(RunFault::of(name, BytesFault::Map(fault))),
    }
}

/// Reads a file as the text of a list.
pub fn read_list<'a, R: Input>(
    alloc: Global,
    file: &mut Option<Source<'a, R>>,
    hashing: KeyHashing,
) -> Result<PrefixList, RunFault<'a>>
    requires { IsFresh R.input file.old }
    ensures { Decodes R.input InList list_reading list_of file.old file.new result }
{
    let (name, text) = read(alloc, file)?;
    match read_list_with_hashing(alloc, text.as_slice(), hashing) {
        Ok(list) => Ok(list),
        Err(fault) => Err(RunFault::of(name, BytesFault::List(fault))),
    }
}

/// Reads a file as the text of a certificate.
pub fn read_certificate<'a, R: Input>(
    alloc: Global,
    file: &mut Option<Source<'a, R>>,
    hashing: KeyHashing,
) -> Result<Certificate, RunFault<'a>>
    requires { IsFresh R.input file.old }
    ensures { Decodes R.input InCertificate format_reading certificate_of file.old file.new result }
{
    let (name, text) = read(alloc, file)?;
    // Each certificate has a text, and is read from it.
    text_of_format_is_read_or_has_a_fault();
    match read_cert_with_hashing(alloc, text.as_slice(), hashing) {
        Ok(certificate) => {
            let _root = certificate.root();
            Ok(certificate)
        }
        Err(fault) => Err(RunFault::of(name, BytesFault::Certificate(fault))),
    }
}
