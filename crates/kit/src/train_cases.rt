// Replays the cases of training.bin that train a baseline: its number of knots or its refusal, and every byte, knot and value that
// it was lent, afterwards.
use crate::figures::{bring, bring_most, same_run};
use crate::memory::{bring_bytes, bring_places};
use crate::refusals::same_refusal;
use crate::tape::Place;
use baseline::training::{Sequences, train};
use priors::tables::LentTables;

// The case whose arguments come next.
pub fn same_case(at: &mut Place) -> Option<bool> {
    let mut g = [0.0f64; 128];
    let mut d = [0.0f64; 128];
    let mut sequences = [0u8; 8256];
    let mut book = [0u8; 1536];
    let mut knots = [0u32; 8];
    let mut values = [0.0f64; 80];
    let tables = LentTables {
        g: bring_most(at, &mut g),
        d: bring_most(at, &mut d),
    };
    let priors = at.priors();
    let s = at.word();
    let n = at.word();
    let rate = at.word();
    let sequences = Sequences {
        places: bring_places(at, &mut sequences),
        count: s,
        paths: n,
        rate,
    };
    let book = bring_bytes(at, &mut book)?;
    let knots = bring(at, &mut knots)?;
    let values = bring(at, &mut values)?;
    let trained = train(&tables, &priors, &sequences, book, knots, values);
    Some(
        same_refusal(at, trained.err())
            && at.word() == trained.unwrap_or(0)
            && at.bytes() == book
            && same_run(at, knots)
            && same_run(at, values)
            && at.is_at_end(),
    )
}
