//! The widths of a table's columns, and the padding of its fields.
ghost use Rattle.std.specs.Prelude.{◌≡◌, ℕ, ◌<◌, List, [], ◌∷◌, ◌++◌, IfOk, length, true};
ghost use Rattle.std.specs.List.{flat_map};
ghost use Rattle.flow_io.specs.Sinks.{Adds, Pushes};
ghost use Rattle.pmap_print.specs.Table.{AreWide, Fits, Line, Text, filled_line, line_text, sized, table_text, widen};

use crate::fields::{SPACES, push_few};
use flow_io::Sink;
use std::alloc::{AllocError, Global};

/// The widths of the columns of a table: the length of the longest field in each.
#[derive(Drop)]
pub struct Columns {
    widths: Vec<u8>,
}

impl Columns {
    /// Returns the widths of `count` columns of no lines.
    pub fn new(alloc: Global, count: usize) -> Result<Columns, AllocError>
        requires { 0 < count }
        ensures { IfOk result (AreWide count []) }
    {
        let widths = vec![in alloc; 0u8; count]?;
        Ok(Columns { widths })
    }

    /// Returns the widths.
    #[inline(always)]
    pub fn widths(&self) -> &[u8]
        ensures { result.now ≡ self.now.widths.items }
    {
        self.widths.as_slice()
    }

    /// Widens a column for a field of this size.
    #[inline(always)]
    pub fn widen(&mut self, index: usize, size: u8)
        requires { index < length self.old.widths.items }
        ensures { self.new.widths.items ≡ widen self.old.widths.items index size }
    {
        self.widths[index] = self.widths[index].max(size);
    }

    /// Widens the columns for one more line, whose fields each follow the byte of their length.
    #[inline(always)]
    pub fn add_line(&mut self, line: &[u8])
        requires { (fields : Line) × (line.now ≡ sized fields) × (length fields ≡ length self.old.widths.items) }
        ensures { (count : ℕ) → (lines : List Line) → (fields : Line) → AreWide count lines self.old
            → line.now ≡ sized fields → length fields ≡ count → AreWide count (lines ++ fields ∷ []) self.new }
    {
        let mut rest = line;
        for i in 0..self.widths.len() {
            let length = rest[0];
            self.widths[i] = self.widths[i].max(length);
            rest = &rest[usize::from(length) + 1..];
        }
    }

    // Prints the padded fields of the first line of a text, and returns the text after the line.
    #[inline(always)]
    fn print_line<'t, S: Sink>(&self, out: &mut S, text: &'t [u8]) -> Result<&'t [u8], S::Fault>
        requires { (width : ℕ → ℕ) × (fields : Line) × (more : Text) × Fits width self.now.widths.items fields
            × (text.now ≡ sized fields ++ more) }
        ensures { (width : ℕ → ℕ) → (fields : Line) → (more : Text) → Fits width self.now.widths.items fields
            → text.entry.now ≡ sized fields ++ more → IfOk result (λ rest. (rest.now ≡ more)
            × Adds S.sink S.began out.old out.new (line_text (filled_line width fields))) }
    {
        let mut rest = text;
        for i in 0..self.widths.len() {
            let length = rest[0];
            let end = usize::from(length) + 1;
            push_few(out, &SPACES, usize::from(self.widths[i] - length))?;
            push_few(out, &rest[1..], usize::from(length))?;
            let mark = if i + 1 < self.widths.len() {
                b'|'
            } else {
                b'\n'
            };
            out.push_start(&[mark], 1)?;
            rest = &rest[end..];
        }
        Ok(rest)
    }

    /// Prints the lines with the fields padded to the widths of their columns. A line feed follows the last field of
    /// each line, and a `|` each other field.
    pub fn print_lines<S: Sink>(&self, out: &mut S, text: &[u8]) -> Result<(), S::Fault>
        requires { (count : ℕ) × (lines : List Line) × AreWide count lines self.now
            × (text.now ≡ flat_map sized lines) }
        ensures { (count : ℕ) → (lines : List Line) → AreWide count lines self.now
            → text.now ≡ flat_map sized lines → Pushes S.sink S.began out.old out.new (table_text true lines) result }
    {
        let mut rest = text;
        while !rest.is_empty() {
            rest = self.print_line(out, rest)?;
        }
        Ok(())
    }
}
