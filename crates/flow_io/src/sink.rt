//! What texts are printed into.
ghost use Rattle.std.specs.Prelude.{◌≡◌, ◌≤◌, ⊤, IfOk, List, ℕ, length, take};
ghost use Rattle.flow_io.specs.Devices.{OutputView};
ghost use Rattle.flow_io.specs.Sinks.{Pushes, PrintsText, SinkView};

use std::alloc::{AllocError, Global};

/// What texts are printed into: a text in memory, or a buffer before a writer.
pub trait Sink {
    /// Why the sink doesn't take bytes.
    type Fault;

    // The text that was printed so far, and the reference to the writer below, if there is one.
    ghost sink: { Self → SinkView };

    // What the writer was before it was given the text.
    ghost began: { OutputView → Self → Type 0 };

    /// Adds the first `count` of some bytes. All of them may be copied, which is faster if their number is constant.
    fn push_start(&mut self, given: &[u8], count: usize) -> Result<(), Self::Fault>
        requires { count ≤ length given.now }
        ensures { Pushes sink began self.old self.new (take count given.now) result };

    /// Adds bytes.
    #[inline(always)]
    fn push(&mut self, bytes: &[u8]) -> Result<(), Self::Fault>
        ensures { Pushes sink began self.old self.new bytes.now result }
    {
        self.push_start(bytes, bytes.len())
    }
}

/// A value that has a text.
pub trait Printable {
    // The value may be printed.
    ghost is_whole: { Self → Type 0 };

    // This is the text of the value.
    ghost is_text: { Self → List ℕ → Type 0 };

    /// Prints the text.
    fn print<S: Sink>(&self, out: &mut S) -> Result<(), S::Fault>
        requires { is_whole self.now }
        ensures { PrintsText S.sink S.began out.old out.new (is_text self.now) result };
}

/// Returns the text of a value.
pub fn text_of<P: Printable>(alloc: Global, value: &P) -> Result<Vec<u8>, AllocError>
    requires { P.is_whole value.now }
    ensures { IfOk result (λ text. P.is_text value.now text.items) }
{
    let mut text = Vec::new(alloc);
    value.print(&mut text)?;
    Ok(text)
}

impl Sink for Vec<u8> {
    type Fault = AllocError;

    ghost sink = { λ text. record { printed = text.items; reference = 0 } };

    ghost began = { λ _ _. ⊤ };

    #[inline(always)]
    fn push_start(&mut self, given: &[u8], count: usize) -> Result<(), AllocError> {
        self.extend_from_slice(&given[..count])
    }
}

impl Printable for &[u8] {
    ghost is_whole = { λ _. ⊤ };

    ghost is_text = { λ bytes text. text ≡ bytes.now };

    #[inline(always)]
    fn print<S: Sink>(&self, out: &mut S) -> Result<(), S::Fault> {
        out.push(self)
    }
}
