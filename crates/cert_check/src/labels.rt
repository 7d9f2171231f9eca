//! The numbers of the map's and the list's labels in the certificate's table.
ghost use Rattle.std.specs.Prelude.{◌≡◌, ◌<◌, length, List, IfOk};
ghost use Rattle.std.specs.Option.{ForSome};
ghost use Rattle.pmap_model.specs.MapModel.{Label};
ghost use Rattle.pmap_model.specs.MapText.{text_at, text_if_some};
ghost use Rattle.cert_check.specs.Checking.{is_label_of};
ghost use Rattle.cert_check.specs.Inner.{AreNumbers};

use pmap_model::{LabelId, Labels};
use std::alloc::{AllocError, Global};

/// Returns for each label of a table its number in another table, or `None` if that table lacks it.
pub fn numbers_in(
    alloc: Global,
    from: &Labels,
    to: &Labels,
) -> Result<Vec<Option<LabelId>>, AllocError>
    ensures { IfOk result (λ numbers. AreNumbers numbers.items from.now to.now) }
{
    from.laws();
    to.laws();
    let mut numbers = Vec::with_capacity(alloc, from.len())?;
    for number in 0..from.len() {
        let Some(text) = from.text(LabelId(number as u32)) else {
            unreachable!()
        };
        numbers.push(to.id_of(text))?;
    }
    Ok(numbers)
}

/// Returns whether `own`, a label of the one table, is the label `id` of the other, by the result of [`numbers_in`].
#[inline(always)]
pub fn is_label(numbers: &[Option<LabelId>], own: Option<LabelId>, id: LabelId) -> bool
    requires { ForSome own (λ label. label.0 < length numbers.now) }
    ensures { (from to : List Label) → AreNumbers numbers.now from to → id.0 < length to →
        result ≡ is_label_of (text_if_some from own) (text_at to id.0) }
{
    let Some(label) = own else {
        return false;
    };
    match numbers[label.0 as usize] {
        Some(number) => number.0 == id.0,
        None => false,
    }
}
