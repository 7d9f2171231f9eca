//! The lines of a text and the words of a line.
ghost use Rattle.std.specs.Prelude.{◌≡◌, ◌+◌, ◌<◌, ◌≤◌, ◌∷◌, ◌==◌, ◌||◌, ℕ};
ghost use Rattle.std.specs.Prelude.{Bool, List, [], length, not, position, take};
ghost use Rattle.std.specs.List.{position_or_len};
ghost use Rattle.pmap_model.specs.Label.{is_blank as is_blank_byte};
ghost use Rattle.pmap_text.specs.Reading.{after_word, content_of, first_word, lines_of, trim_start, trim_end};

use memchr::memchr2;
use pmap_model::is_blank;
use prefix_keys::{cut, find_byte};

// Returns the index of the first blank.
fn find_blank(text: &[u8]) -> Option<usize>
    ensures { result ≡ position is_blank_byte text.now }
{
    text.iter().position(|b| is_blank(*b))
}

// Returns the index of the first byte that isn't a blank.
#[inline(always)]
fn find_word(text: &[u8]) -> Option<usize>
    ensures { result ≡ position (λ b. not (is_blank_byte b)) text.now }
{
    text.iter().position(|b| !is_blank(*b))
}

// Returns the index that was found, or the length of the text.
#[inline(always)]
fn place_or_end(found: Option<usize>, text: &[u8]) -> usize
    requires { (p : ℕ → Bool) × (found ≡ position p text.now) }
    ensures place { (p : ℕ → Bool) → found ≡ position p text.now → result ≡ position_or_len p text.now }
    ensures within { result ≤ length text.now }
{
    found.unwrap_or(text.len())
}

// Returns the first line of a text, and the text after its line feed.
fn split_line(text: &[u8]) -> (&[u8], &[u8])
    requires { 0 < length text.now }
    ensures line { lines_of text.now ≡ result.0.now ∷ lines_of result.1.now }
    ensures shorter { length result.1.now < length text.now }
{
    split_at_feed(text, place_or_end(find_byte(text, b'\n'), text))
}

// Returns the first line of a text, which ends at this index, and the text after its line feed.
#[inline(always)]
fn split_at_feed(text: &[u8], end: usize) -> (&[u8], &[u8])
    requires some { 0 < length text.now }
    requires feed { end ≡ position_or_len (λ b. b == 10) text.now }
    ensures line { lines_of text.now ≡ result.0.now ∷ lines_of result.1.now }
    ensures shorter { length result.1.now < length text.now }
    ensures before { result.0.now ≡ take end text.now }
{
    if end < text.len() {
        (&text[..end], &text[end + 1..])
    } else {
        (text, &[])
    }
}

// Returns the index of the first line feed or `#`, or the length.
#[inline(always)]
fn content_end(text: &[u8]) -> usize
    ensures place { result ≡ position_or_len (λ b. b == 10 || b == 35) text.now }
    ensures within { result ≤ length text.now }
{
    memchr2(b'\n', b'#', text).unwrap_or(text.len())
}

/// Returns the content of the first line of a text, without its comment and outer blanks, and the text after its line
/// feed.
#[inline(always)]
pub fn split_content(text: &[u8]) -> (&[u8], &[u8])
    requires { 0 < length text.now }
    ensures line { (line : List ℕ) × (lines_of text.now ≡ line ∷ lines_of result.1.now)
        × (result.0.now ≡ content_of line) }
    ensures shorter { length result.1.now < length text.now }
{
    let end = content_end(text);
    if end < text.len() && text[end] == b'#' {
        let (line, after) = split_line(text);
        return (without_outer_blanks(cut(line, b'#').0), after);
    }
    let (line, after) = split_at_feed(text, end);
    (without_outer_blanks(line), after)
}

/// Returns the text without its leading blanks.
#[inline(always)]
pub fn without_leading_blanks(text: &[u8]) -> &[u8]
    ensures { result.now ≡ trim_start text.now }
{
    &text[place_or_end(find_word(text), text)..]
}

// Returns the text without its trailing blanks.
#[inline(always)]
fn without_trailing_blanks(text: &[u8]) -> &[u8]
    ensures { result.now ≡ trim_end text.now }
{
    let mut end = text.len();
    while end > 0 && is_blank(text[end - 1]) {
        end -= 1;
    }
    &text[..end]
}

// Returns the text without blanks at either end.
#[inline(always)]
fn without_outer_blanks(text: &[u8]) -> &[u8]
    ensures { result.now ≡ trim_end (trim_start text.now) }
{
    without_trailing_blanks(without_leading_blanks(text))
}

/// Returns the first word of a line's content, and the text after the blanks that follow it.
pub fn split_word(content: &[u8]) -> (&[u8], &[u8])
    ensures word { result.0.now ≡ first_word content.now }
    ensures rest { result.1.now ≡ after_word content.now }
{
    let end = place_or_end(find_blank(content), content);
    (&content[..end], without_leading_blanks(&content[end..]))
}
