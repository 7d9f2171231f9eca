//! The reading of one line of a text.
ghost use Rattle.std.specs.Prelude.{◌≡◌, ◌<◌, ◌==◌, ◌||◌, ◌⊎◌, if◌then◌else◌, Some, None, Ok, Err, true, false};
ghost use Rattle.std.specs.Prelude.{slice_get, slice_index, unwrap_or, IsTrue, IfOk, IfErr, OnOk, OnErr};
ghost use Rattle.std.specs.List.{list_any};
ghost use Rattle.prefix_keys.specs.Text.{address_of, block_of_text, is_digit};
ghost use Rattle.pmap_text.specs.Declarations.{label_number as number_of_label, meant_text};
ghost use Rattle.pmap_model.specs.Label.{is_label as is_label_text, with_label};
ghost use Rattle.pmap_text.specs.Reading.{after_word, first_word, block_line, content_line, default_line, label_line};
ghost use Rattle.pmap_text.specs.Reading.{label_of, mode_line, mode_version, placed_line, range_line, span_line};
ghost use Rattle.pmap_text.specs.Reading.{statement_line, BadAddress, BadStatement, NoMemory, TooMany, name_line};
ghost use Rattle.pmap_text.specs.declared.reading.form.Form.TheVariants.{List as list_form};
ghost use Rattle.pmap_text.specs.Inner.{ReadsLine, has_label_room, one_or_two};

use crate::fault::MapFaultKind;
use crate::reading::declarations::label_number;
use crate::reading::form::Form;
use crate::reading::in_version::{addr_in, block_in};
use crate::reading::leading::{Word, leading_word};
use crate::reading::lines::split_word;
use crate::reading::{MAPPING_LIMIT, Reading, known_number, number_for};
use pmap_model::{LabelId, Name, is_label};
use prefix_keys::{
    Addr, Block, BlockFault, Span, Version, are_digits, block_of, read_addr, read_block,
};

// Checks that the rest of a line is a label.
fn check_label(rest: &[u8]) -> Result<(), MapFaultKind>
    ensures ok { OnOk result (label_of rest.now ≡ Ok rest.now) }
    ensures label { OnOk result (IsTrue (is_label_text rest.now)) }
    ensures err { IfErr result (λ kind. label_of rest.now ≡ Err kind) }
{
    if rest.is_empty() {
        Err(MapFaultKind::MissingLabel)
    } else if is_label(rest) {
        Ok(())
    } else {
        Err(MapFaultKind::BadLabel)
    }
}

// Returns the address that a word is, or else the fault of a line that begins with the word. A word that begins with no
// digit and has no colon is no address.
#[tactic(auto, using(crate::proofs::Unlike::unlike_address))]
fn word_address(word: &[u8]) -> Result<Addr, MapFaultKind>
    ensures ok { IfOk result (λ addr. address_of word.now ≡ Some (addr.version, addr.value)) }
    ensures none { OnErr result (address_of word.now ≡ None) }
    ensures err { IfErr result (λ kind. kind ≡ (if is_digit (slice_index word.now 0)
        || list_any (λ b. b == 58) word.now then BadAddress else BadStatement)) }
{
    match word.first() {
        Some(byte) if byte.is_ascii_digit() => {}
        _ if word.contains(&b':') => {}
        _ => return Err(MapFaultKind::BadStatement),
    }
    read_addr(word).ok_or(MapFaultKind::BadAddress)
}

// Returns the version that the word of a mode names.
fn named_version(word: &[u8]) -> Option<Version>
    ensures { result ≡ mode_version word.now }
{
    if word == b"ipv4".as_slice() || word == b"ip".as_slice() {
        Some(Version::V4)
    } else if word == b"ipv6".as_slice() {
        Some(Version::V6)
    } else {
        None
    }
}

impl Reading {
    // Reads `map-name NAME`, given the text after the first word.
    fn read_name(&mut self, rest: &[u8]) -> Result<(), MapFaultKind>
        ensures { ReadsLine self.old self.new (name_line self.old rest.now) result }
    {
        check_label(rest)?;
        let Ok(name) = Name::new(self.alloc, rest) else {
            return Err(MapFaultKind::NoMemory);
        };
        self.name = Some(name);
        Ok(())
    }

    // Reads `mode WORD`, given the text after the first word.
    fn read_mode(&mut self, rest: &[u8]) -> Result<(), MapFaultKind>
        ensures { ReadsLine self.old self.new (mode_line self.old (mode_version rest.now)) result }
    {
        let Some(version) = named_version(rest) else {
            return Err(MapFaultKind::BadMode);
        };
        if self.statements.len() > 0 || self.entries.len() > 0 {
            return Err(MapFaultKind::ModeLate);
        }
        if self.version.is_some() {
            return Err(MapFaultKind::ModeRepeated);
        }
        self.version = Some(version);
        Ok(())
    }

    // Reads `label NUMBER TEXT`, given the text after the first word.
    fn read_label(&mut self, rest: &[u8]) -> Result<(), MapFaultKind>
        ensures { ReadsLine self.old self.new
            (label_line self.old (number_of_label (first_word rest.now)) (after_word rest.now)) result }
    {
        let (word, text) = split_word(rest);
        let Some(number) = label_number(word) else {
            return Err(MapFaultKind::BadStatement);
        };
        check_label(text)?;
        if are_digits(text) {
            return Err(MapFaultKind::BadLabel);
        }
        if self.declared.conflicts(number, text) {
            return Err(MapFaultKind::LabelConflict);
        }
        number_for(&mut self.labels, &mut self.recent, text)?;
        let Ok(()) = self.declared.add(number, text) else {
            return Err(MapFaultKind::NoMemory);
        };
        Ok(())
    }

    // Reads `default LABEL`, given the text after the first word.
    fn read_default(&mut self, form: Form, rest: &[u8]) -> Result<(), MapFaultKind>
        ensures { ReadsLine self.old self.new (default_line form self.old rest.now) result }
    {
        if form == Form::List {
            return Err(MapFaultKind::NotAList);
        }
        self.default = Some(self.line_label(rest, true)?);
        Ok(())
    }

    // Returns the number of the label in the rest of a line. `has_room` says whether there is room for one more mapping
    // or entry.
    #[inline(always)]
    fn line_label(&mut self, rest: &[u8], has_room: bool) -> Result<LabelId, MapFaultKind>
        ensures said { OnOk result (label_of rest.now ≡ Ok rest.now) }
        ensures room { OnOk result (has_label_room self.old has_room rest.now ≡ true) }
        ensures ok { OnOk result (self.new
            ≡ record self.old { table = with_label self.old.table (meant_text self.old.declared rest.now) }) }
        ensures text { IfOk result (λ id. slice_get self.new.table id.0
            ≡ Some (meant_text self.old.declared rest.now)) }
        ensures err { IfErr result (λ kind. (label_of rest.now ≡ Err kind)
            ⊎ ((label_of rest.now ≡ Ok rest.now) × (kind ≡ NoMemory)
            × (has_label_room self.old has_room rest.now ≡ true))
            ⊎ ((label_of rest.now ≡ Ok rest.now) × (kind ≡ TooMany)
            × (has_label_room self.old has_room rest.now ≡ false))) }
        ensures kept { OnErr result (self.new.prefixes ≡ self.old.prefixes) }
    {
        let text = self.declared.meant(rest);
        match known_number(&self.labels, &mut self.recent, text) {
            Some(label) if has_room => return Ok(label),
            _ => check_label(rest)?,
        }
        if !has_room {
            return Err(MapFaultKind::TooMany);
        }
        number_for(&mut self.labels, &mut self.recent, text)
    }

    // Reads a span in the text's version followed by a label, given the text after the span.
    #[inline(always)]
    fn read_span(&mut self, span: Span, rest: &[u8]) -> Result<(), MapFaultKind>
        requires { unwrap_or self.old.version span.low.version ≡ span.low.version }
        ensures { ReadsLine self.old self.new
            (span_line self.old span.low.version span.low.value span.high.value rest.now) result }
    {
        let has_room = self.statements.len() < MAPPING_LIMIT;
        let label = self.line_label(rest, has_room)?;
        self.add_statement(span, label)
    }

    // Reads a block in the text's version followed by a label, as an entry, given the text after the block. A repeated
    // block is found here if the line has another fault, and otherwise after the last line.
    #[inline(always)]
    fn read_prefix(&mut self, block: Block, rest: &[u8]) -> Result<(), MapFaultKind>
        requires { unwrap_or self.old.version block.version ≡ block.version }
        ensures { ReadsLine self.old self.new
            (placed_line list_form self.old block.version block.value block.len rest.now) result }
    {
        let has_room = self.entry_count() < MAPPING_LIMIT;
        let taken = match self.line_label(rest, has_room) {
            Ok(label) => self.add_entry(block, label),
            Err(kind) => Err(kind),
        };
        match taken {
            Err(_) if is_label(rest) && self.has_block(&block) => Err(MapFaultKind::DuplicateBlock),
            taken => taken,
        }
    }

    // Reads `BLOCK LABEL`, given the block and the text after it.
    #[inline(always)]
    fn read_after_block(
        &mut self,
        form: Form,
        block: Block,
        rest: &[u8],
    ) -> Result<(), MapFaultKind>
        ensures { ReadsLine self.old self.new
            (block_line form self.old (Ok (block.version, block.value, block.len)) rest.now) result }
    {
        let block = block_in(self.version_at(block.version), block)?;
        match form {
            Form::Map => self.read_span(block.span(), rest),
            Form::List => self.read_prefix(block, rest),
        }
    }

    // Reads `BLOCK LABEL`, given the word of the block and the text after it.
    fn read_block_line(&mut self, form: Form, word: &[u8], rest: &[u8]) -> Result<(), MapFaultKind>
        ensures { ReadsLine self.old self.new (block_line form self.old (block_of_text word.now) rest.now) result }
    {
        match read_block(word) {
            Ok(block) => self.read_after_block(form, block, rest),
            Err(BlockFault::BadAddress) => Err(MapFaultKind::BadAddress),
            Err(BlockFault::BadLength) => Err(MapFaultKind::BadLength),
        }
    }

    // Reads `LOW HIGH LABEL`, given the two addresses and the text after them.
    #[inline(always)]
    fn read_range(
        &mut self,
        form: Form,
        first: Addr,
        second: Addr,
        rest: &[u8],
    ) -> Result<(), MapFaultKind>
        ensures { ReadsLine self.old self.new
            (range_line form self.old (first.version, first.value) (second.version, second.value) rest.now) result }
    {
        if form == Form::List {
            return Err(MapFaultKind::NotAList);
        }
        let version = self.version_at(first.version);
        let low = addr_in(version, first)?;
        let high = addr_in(version, second)?;
        match Span::new(low, high) {
            Some(span) => self.read_span(span, rest),
            None => Err(MapFaultKind::LowAboveHigh),
        }
    }

    // Reads a line that begins with an address, given the address and the text after it.
    fn read_address_line(
        &mut self,
        form: Form,
        first: Addr,
        rest: &[u8],
    ) -> Result<(), MapFaultKind>
        ensures { ReadsLine self.old self.new
            (one_or_two form self.old (first.version, first.value) (address_of (first_word rest.now)) rest.now) result }
    {
        let (word, after) = split_word(rest);
        match word_address(word) {
            Ok(second) => self.read_range(form, first, second, after),
            Err(_) => {
                let block = block_of(first, first.version.width());
                self.read_after_block(form, block, rest)
            }
        }
    }

    // Reads a line that begins with an address, given the address and the text after it. A second address is read in
    // one pass if possible.
    fn read_after_address(
        &mut self,
        form: Form,
        first: Addr,
        rest: &[u8],
    ) -> Result<(), MapFaultKind>
        ensures { ReadsLine self.old self.new
            (one_or_two form self.old (first.version, first.value) (address_of (first_word rest.now)) rest.now) result }
    {
        match leading_word(rest) {
            Some((Word::Address(second), after)) => self.read_range(form, first, second, after),
            _ => self.read_address_line(form, first, rest),
        }
    }

    // Reads a line with a word, given its first word and the text after it.
    fn read_statement(&mut self, form: Form, word: &[u8], rest: &[u8]) -> Result<(), MapFaultKind>
        ensures { ReadsLine self.old self.new (statement_line form self.old word.now rest.now) result }
    {
        if word == b"map-name".as_slice() {
            self.read_name(rest)
        } else if word == b"mode".as_slice() {
            self.read_mode(rest)
        } else if word == b"label".as_slice() {
            self.read_label(rest)
        } else if word == b"default".as_slice() {
            self.read_default(form, rest)
        } else if word.contains(&b'/') {
            self.read_block_line(form, word, rest)
        } else {
            match word_address(word) {
                Ok(addr) => self.read_address_line(form, addr, rest),
                Err(kind) => Err(kind),
            }
        }
    }

    // Reads the content of a line by its words.
    fn read_words(&mut self, form: Form, content: &[u8]) -> Result<(), MapFaultKind>
        ensures { ReadsLine self.old self.new (content_line form self.old content.now) result }
    {
        if content.is_empty() {
            return Ok(());
        }
        let (word, rest) = split_word(content);
        self.read_statement(form, word, rest)
    }

    /// Reads the content of one more line. An entry for a block that has one already is added too. After a fault
    /// nothing is known of the lines so far.
    pub fn read_content(&mut self, form: Form, content: &[u8]) -> Result<(), MapFaultKind>
        ensures { ReadsLine self.old self.new (content_line form self.old content.now) result }
    {
        match leading_word(content) {
            Some((Word::Block(block), rest)) => self.read_after_block(form, block, rest),
            Some((Word::Address(first), rest)) => self.read_after_address(form, first, rest),
            None => self.read_words(form, content),
        }
    }
}
