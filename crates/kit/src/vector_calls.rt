// The readings of probabilities, each held to what is recorded after its arguments.
use crate::calls_cases::Play;
use crate::figures::is_next;
use crate::outputs::lend_output;
use crate::refusals::{same_answer, same_option};
use crate::tape::Place;
use divergence::answers::{Output, ProbVector};
use divergence::vectors::{evidence_prob_vector, prob_vector};
use priors::addresses::Address;
use priors::lookups::LentPriors;
use priors::refusals::Reason;

// The places filled and the ending's figure come next.
fn same_parts(at: &mut Place, v: ProbVector) -> bool {
    at.word() == v.places && is_next(at, v.ending)
}

// A reading at an address, and the output that it is lent.
fn at_address<R: FnOnce(Address, &mut Output) -> Result<Option<ProbVector>, Reason>>(
    at: &mut Place,
    read: R,
) -> Option<bool>
    requires { R.IsAlwaysCallable read }
{
    let node = at.address();
    lend_output(
        at,
        |output| read(node, output),
        |at, answer| same_answer(at, answer, 4, |at, v| same_option(at, v, 4, same_parts)),
    )
}

// `prob_vector`.
pub fn vector_call(p: &Play, priors: &LentPriors, at: &mut Place) -> Option<bool> {
    at_address(
        at,
        |node, output| prob_vector(&p.seen(), priors, node, output),
    )
}

// `evidence_prob_vector`.
pub fn evidence_call(p: &Play, at: &mut Place) -> Option<bool> {
    at_address(
        at,
        |node, output| evidence_prob_vector(&p.seen(), node, output),
    )
}
