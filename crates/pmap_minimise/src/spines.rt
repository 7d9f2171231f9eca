//! The spines of a certificate's tree: steps down to the half whose sibling has the side label alone.
ghost use Rattle.std.specs.Prelude.{◌≡◌, ◌+◌, ◌^◌, ◌<◌, ◌↔◌, IsTrue, MatchOption, Some, length, option_map};
ghost use Rattle.pmap_stretches.specs.Windows.{IsWindow};
ghost use Rattle.pmap_minimise.specs.Spines.{HasLabel, IsCounted, IsSpineTo, IsStepInto, IsStop, own_label};

use pmap_model::LabelId;
use pmap_stretches::{Stretches, Window};
use prefix_keys::{Addr, block_of};

/// Returns the label of a block in one stretch, or `None` if the block has addresses of two stretches or more.
#[inline(always)]
pub fn own_label(stretches: &Stretches, window: &Window) -> Option<LabelId>
    requires { IsWindow stretches.now window.now }
    ensures { option_map (λ id. id.0) result ≡ own_label stretches.now window.now }
{
    if window.from == window.to {
        stretches.label(window.from)
    } else {
        None
    }
}

// Returns whether the stretch `at` has this label.
#[inline(always)]
fn is_side(stretches: &Stretches, at: usize, side: LabelId) -> bool
    requires { at < length stretches.now.firsts }
    ensures { IsTrue result ↔ HasLabel stretches.now side.0 at }
{
    stretches.label(at) == Some(side)
}

// Returns whether a block is in one stretch, and that stretch has this label.
fn has_side(stretches: &Stretches, window: &Window, side: LabelId) -> bool
    requires { IsWindow stretches.now window.now }
    ensures { IsTrue result ↔ (own_label stretches.now window.now ≡ Some side.0) }
{
    window.from == window.to && is_side(stretches, window.from, side)
}

// Returns the half that is the next step of the spine of the side label, or `None` if the spine ends at the block.
#[inline(always)]
fn step(stretches: &Stretches, window: &Window, side: LabelId) -> Option<Window>
    requires { IsCounted stretches.now window.now }
    ensures { MatchOption result (IsStop stretches.now side.0 window.now) (IsStepInto stretches.now side.0 window.now) }
{
    if window.from == window.to {
        return None;
    }
    let (low, high) = window.halves(stretches);
    if has_side(stretches, &low, side) {
        Some(high)
    } else if has_side(stretches, &high, side) {
        Some(low)
    } else {
        None
    }
}

// Returns the block at the end of the spine of the side label, found bit by bit.
#[inline(never)]
fn stepwise_end(stretches: &Stretches, window: &Window, side: LabelId) -> Window
    requires { IsCounted stretches.now window.now }
    ensures { IsSpineTo stretches.now side.0 window.now result }
{
    let mut end = *window;
    while let Some(chosen) = step(stretches, &end, side) {
        end = chosen;
    }
    end
}

/// The block at the end of the spine of the side label from a block with addresses of two stretches or more. It is
/// found in one step: the smallest block with all addresses that are not in the first or last stretch of this block if
/// that stretch has the side label. If the addresses inside begin or end with one more stretch that has it, the end is
/// found bit by bit.
#[inline(always)]
pub fn spine_end(stretches: &Stretches, window: &Window, side: LabelId) -> Window
    requires counted { IsCounted stretches.now window.now }
    requires divided { window.now.from < window.now.to }
    ensures { IsSpineTo stretches.now side.0 window.now result }
{
    let from = window.from + usize::from(is_side(stretches, window.from, side));
    let to = window.to - usize::from(is_side(stretches, window.to, side));
    if is_side(stretches, from, side) || is_side(stretches, to, side) {
        return stepwise_end(stretches, window, side);
    }
    let low = window.first.max(stretches.first(from));
    let high = window.last.min(stretches.last(to));
    let version = stretches.version();
    let len = version.width() - (128 - (low ^ high).leading_zeros());
    let block = block_of(
        Addr {
            version,
            value: low,
        },
        len,
    );
    let (first, last) = (block.value, block.high().value);
    let from = if first == low { from } else { window.from };
    let to = if last == high { to } else { window.to };
    Window {
        first,
        last,
        len,
        from,
        to,
    }
}
