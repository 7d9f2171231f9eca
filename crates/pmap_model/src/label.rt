ghost use Rattle.std.specs.Prelude.{◌≡◌};
ghost use Rattle.std.specs.List.{list_all};
ghost use Rattle.pmap_model.specs.Label.{is_blank, is_label_byte, is_label as is_label_text};

/// The number of a label text in a label table, from 0 in the order of first occurrence.
#[derive(Clone, Copy, Default, PartialEq, Eq)]
pub struct LabelId(pub u32);

/// Returns `true` if the byte is a blank: a space, a tab or a carriage return.
pub fn is_blank(byte: u8) -> bool
    ensures { result ≡ is_blank byte }
{
    byte == b' ' || byte == b'\t' || byte == b'\r'
}

// Returns `true` if the byte is allowed in a label: a tab, or any byte except control characters and `#`.
fn is_label_byte(byte: u8) -> bool
    ensures { result ≡ is_label_byte byte }
{
    (byte == b'\t' || byte >= b' ') && byte != 0x7f && byte != b'#'
}

// Returns `true` if each byte is allowed in a label.
fn has_label_bytes(text: &[u8]) -> bool
    ensures { result ≡ list_all is_label_byte text.now }
{
    text.iter().all(|byte| is_label_byte(*byte))
}

/// Returns `true` if the text is well formed as a label or a name: 1 to 255 bytes, no control character except inner
/// tabs, no `#`, and no blank at either end. Bytes above 127 are all allowed.
pub fn is_label(text: &[u8]) -> bool
    ensures { result ≡ is_label_text text.now }
{
    let has_length = !text.is_empty() && text.len() <= 255;
    has_length && has_label_bytes(text) && !is_blank(text[0]) && !is_blank(text[text.len() - 1])
}
