//! The texts of the labels of stretches.
ghost use Rattle.std.specs.Prelude.{◌≡◌, ◌<◌, IfSome, IsTrue, length, option_and_then, option_map, slice_get};
ghost use Rattle.pmap_model.specs.Label.{is_label};
ghost use Rattle.pmap_stretches.specs.Stretches.{label_at};

use pmap_model::Labels;
use pmap_stretches::Stretches;

/// Returns the text of the label of the stretch with this index, if it has one.
#[inline(always)]
pub fn text_at<'a>(labels: &'a Labels, stretches: &Stretches, index: usize) -> Option<&'a [u8]>
    requires { index < length stretches.now.firsts }
    ensures value { option_map (λ t. t.now) result
        ≡ option_and_then (λ id. slice_get labels.now id.0) (label_at stretches.now index) }
    ensures label { IfSome result (λ t. IsTrue (is_label t.now)) }
{
    labels.text(stretches.label(index)?)
}
