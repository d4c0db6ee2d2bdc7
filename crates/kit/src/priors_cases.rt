// Replays priors.bin: what the checks of tables and of prior records say, and what look-ups in accepted ones find.
use crate::figures::{bring, is_next};
use crate::tallies::{self, Tally};
use crate::tape::Place;
use priors::lookups::Priors;
use priors::prior::Prior;
use priors::refusals::number;
use priors::tables::LentTables;

// The number of records in a node's chain: a look-up of the last address reads them all.
fn chain_length(prior: Prior) -> u32 {
    prior.child(u64::MAX).read
}

// A look-up comes next, and then what it finds; zeros for what is not there.
fn same_lookup(at: &mut Place, priors: &Priors) -> bool {
    let node = at.rank();
    let child = at.rank();
    let found = match priors.prior(node) {
        Some(prior) => {
            let looked = prior.child(child);
            [
                1,
                prior.node.count,
                chain_length(prior),
                u32::from(looked.count.is_some()),
                looked.count.unwrap_or(0),
                looked.read,
            ]
        }
        None => [0; 6],
    };
    found.iter().all(|&n| is_next(at, n))
}

// So many look-ups come next.
fn same_lookups(at: &mut Place, priors: Priors) -> bool {
    (0..at.word()).all(|_| same_lookup(at, &priors))
}

// Priors, the number of their refusal, and look-ups.
fn same_priors(at: &mut Place) -> bool {
    let checked = at.priors().check();
    at.word() == number(checked)
        && match checked {
            Ok(priors) => same_lookups(at, priors),
            Err(_) => at.word() == 0,
        }
        && at.is_at_end()
}

// Tables, and the number of their refusal.
fn same_tables(at: &mut Place) -> Option<bool> {
    let mut g = [0.0f64; 128];
    let mut d = [0.0f64; 128];
    let g = bring(at, &mut g)?;
    let d = bring(at, &mut d)?;
    Some(at.word() == number(LentTables { g, d }.check()) && at.is_at_end())
}

// A case, by its kind: a number of the file that is told apart here alone, so it has no enum.
fn same_case(case: &mut Place) -> Option<bool> {
    match case.word() {
        1 => same_tables(case),
        2 => Some(same_priors(case)),
        _ => None,
    }
}

pub fn replay(tape: &[u8]) -> Tally {
    tallies::replay(tape, b"TPP1", same_case)
}
