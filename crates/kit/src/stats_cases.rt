// Replays the cases of training.bin that ask a baseline for figures at lengths.
use crate::figures::{bring, is_next};
use crate::refusals::same_told;
use crate::tape::Place;
use baseline::baselines::Baseline;
use baseline::figures::{KLDivergenceBaselineStats, MeanVar};
use priors::refusals::number;

// Figure by figure, here and below: a NaN is to be the same as a NaN, so no `==`.
fn same_pair(at: &mut Place, p: MeanVar) -> bool {
    is_next(at, p.mean) && is_next(at, p.variance)
}

fn same_record(at: &mut Place, f: KLDivergenceBaselineStats) -> bool {
    [f.max, f.min, f.nz_count, f.moment1_nz, f.moment2_nz]
        .iter()
        .all(|&pair| same_pair(at, pair))
}

// A length comes next, and then its answer: the number of its refusal, and ten figures.
fn same_asked(at: &mut Place, baseline: &Baseline) -> bool {
    let answer = baseline.stats(at.word());
    at.word() == number(answer) && same_told(at, answer.ok(), 20, same_record)
}

// The case whose arguments come next.
pub fn same_case(at: &mut Place) -> Option<bool> {
    let mut knots = [0u32; 8];
    let mut values = [0.0f64; 80];
    let sequences = at.word();
    let baseline = Baseline {
        knots: bring(at, &mut knots)?,
        values: bring(at, &mut values)?,
        sequences,
    };
    Some((0..at.word()).all(|_| same_asked(at, &baseline)) && at.is_at_end())
}
