// An output that a reading is lent: addresses as bytes, and figures.
use crate::figures::{bring, same_run};
use crate::memory::bring_bytes;
use crate::tape::Place;
use divergence::answers::Output;

// A reading into the output that comes next, held to its answer and to the output afterwards, which follow.
pub fn lend_output<A, R: FnOnce(&mut Output) -> A, S: FnOnce(&mut Place, A) -> bool>(
    at: &mut Place,
    read: R,
    same_answer: S,
) -> Option<bool>
    requires reads { R.IsAlwaysCallable read }
    requires compares { S.IsAlwaysCallable same_answer }
{
    let mut addresses = [0u8; 64];
    let mut figures = [0.0f64; 8];
    let addresses = bring_bytes(at, &mut addresses)?;
    let figures = bring(at, &mut figures)?;
    let answer = {
        let mut output = Output {
            addresses: &mut *addresses,
            figures: &mut *figures,
        };
        read(&mut output)
    };
    Some(same_answer(at, answer) && at.bytes() == addresses && same_run(at, figures))
}
