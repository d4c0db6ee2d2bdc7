// The readings of divergences, each held to what is recorded after its arguments. Tables and priors go apart, as the readings take them.
use crate::calls_cases::Play;
use crate::figures::is_next;
use crate::outputs::lend_output;
use crate::refusals::{same_answer, same_option};
use crate::tape::Place;
use divergence::answers::AllNodeKl;
use divergence::kl_readings::{all_node_kl, kl_div_stats, posterior_kl_divergence};
use divergence::statistics::Tally;
use priors::lookups::LentPriors;
use priors::tables::LentTables;

// `posterior_kl_divergence`: an address.
pub fn node_call(p: &Play, tables: &LentTables, priors: &LentPriors, at: &mut Place) -> bool {
    let node = at.address();
    let answer = posterior_kl_divergence(&p.seen(), tables, priors, node);
    same_answer(at, answer, 3, |at, x| same_option(at, x, 3, is_next))
}

// The five figures and the two numbers come next. Figure by figure: a NaN is to be the same as a NaN, so no `==`.
fn same_record(at: &mut Place, t: Tally) -> bool {
    let s = t.stats;
    is_next(at, s.max)
        && is_next(at, s.min)
        && u64::from(at.word()) == s.nz_count
        && is_next(at, s.moment1_nz)
        && is_next(at, s.moment2_nz)
        && at.word() == s.sequence_len
        && at.word() == t.skipped
}

// `kl_div_stats`, which has no arguments of its own.
pub fn stats_call(p: &Play, tables: &LentTables, priors: &LentPriors, at: &mut Place) -> bool {
    same_answer(at, kl_div_stats(&p.seen(), tables, priors), 11, same_record)
}

// The places filled and the nodes skipped come next.
fn same_counts(at: &mut Place, all: AllNodeKl) -> bool {
    at.word() == all.places && at.word() == all.skipped
}

// `all_node_kl`: the output that it is lent.
pub fn all_call(
    p: &Play,
    tables: &LentTables,
    priors: &LentPriors,
    at: &mut Place,
) -> Option<bool> {
    lend_output(
        at,
        |output| all_node_kl(&p.seen(), tables, priors, output),
        |at, answer| same_answer(at, answer, 2, same_counts),
    )
}
