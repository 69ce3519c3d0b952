// Whether bytes are a sound book.
ghost use Rattle.std.specs.Prelude.{◌≡◌, length, IfOk};
ghost use Rattle.std.specs.Result.{result_err};
ghost use Rattle.book.specs.Words.{words};
ghost use Rattle.book.specs.Form.{due, refusal, sizes_of};

use crate::checks::{check_clashes, check_columns};
use crate::faults::{Cause, Refusal};
use crate::form::Sizes;
use crate::plan::Plan;
use crate::sizes::{SIZES, columns_of};
use crate::words::Whole;
use strength::Strength;

/// The plan of a sound book, or the first refusal.
pub(crate) fn check<S: Strength>(bytes: &[u8]) -> Result<Plan, Refusal>
    ensures fault { result_err result ≡ refusal S.kind bytes.now }
    ensures plan { IfOk result (λ p. (p.sizes ≡ sizes_of (words bytes.now)) × (length bytes.now ≡ due p.sizes)) }
{
    if bytes.len() < 8 * SIZES {
        return Err((Cause::ShortBook, bytes.len()));
    }
    let (words, _rest) = bytes.as_chunks::<8>();
    let plan = Sizes::read(words).plan()?;
    if bytes.len() != plan.due() {
        return Err((Cause::WrongLength, plan.due()));
    }
    let sizes = plan.sizes;
    let last = plan.last();
    let clashes = sizes.clashes as usize;
    check_columns::<S>(words, SIZES, &columns_of(sizes))?;
    let ones = &words[last - clashes..last];
    let others = &words[last..last + clashes];
    check_clashes::<[u8; 8], [u8; 8], Whole, Whole>(ones, others, last, sizes.steps)?;
    Ok(plan)
}
