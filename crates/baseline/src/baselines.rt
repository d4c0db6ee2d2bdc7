// The figures of a baseline at a length: at a knot its means and variances, elsewhere on the straight line through two knots, and
// zeros below the first. A baseline is lent as its knots and ten values a knot; 17 and 18 turn a call back.
ghost use Rattle.std.specs.Prelude.{◌≡◌, true, false, ℕ, ◌+◌, ◌*◌, ◌≤◌, ◌<◌, length};
ghost use Rattle.baseline.specs.Limits.{knot_values};
ghost use Rattle.baseline.specs.Stats.{knot_at, not_above, knot_figures, line_figures, figures_at, rising, baseline_fits, past_one_knot, baseline_reading, baseline_answer};

use crate::figures::{KLDivergenceBaselineStats, interpolate, no_figures, to_mean_var, weight};
use crate::sums::{KNOT_VALUES, sums_at};
use priors::refusals::Reason;

pub const MAX_SEQUENCES: u32 = 64;

pub const MAX_KNOTS: usize = 1024;

// A baseline as a call is lent it: its knots, ten values for each, and the number of sequences that it was trained on.
#[derive(Clone, Copy)]
pub struct Baseline<'a> {
    pub knots: &'a [u32],
    pub values: &'a [f64],
    pub sequences: u32,
}

// Each knot lies below the next.
fn is_rising(knots: &[u32]) -> bool
    ensures { result ≡ rising knots.now }
{
    knots.is_sorted_by(|a, b| a < b)
}

// How many knots are not above i.
fn not_above(knots: &[u32], i: u32) -> usize
    requires { rising knots.now ≡ true }
    ensures number { result ≡ not_above knots.now i }
    ensures bound { result ≤ length knots.now }
    ensures before { (k : ℕ) → k < result → knot_at knots.now k ≤ i }
{
    knots.partition_point(|&knot| knot <= i)
}

impl Baseline<'_> {
    // Number 17.
    #[tactic(auto, unfolding(crate::specs::Stats::baseline_fits))]
    fn fits(&self) -> bool
        ensures { result ≡ baseline_fits self.now.knots.now self.now.values.now self.now.sequences }
    {
        1 <= self.sequences
            && self.sequences <= MAX_SEQUENCES
            && self.knots.len() <= MAX_KNOTS
            && self.values.len() == KNOT_VALUES * self.knots.len()
            && is_rising(self.knots)
    }

    // Number 18.
    #[tactic(auto, unfolding(crate::specs::Stats::past_one_knot))]
    fn is_past_one_knot(&self, i: u32) -> bool
        ensures { result ≡ past_one_knot self.now.knots.now i }
    {
        self.knots.len() == 1 && self.knots[0] < i
    }

    #[tactic(auto, unfolding(crate::specs::Stats::knot_figures))]
    fn knot_figures(&self, k: usize) -> KLDivergenceBaselineStats
        requires { knot_values * k + 9 < length self.now.values.now }
        ensures { result ≡ knot_figures self.now.values.now self.now.sequences k }
    {
        to_mean_var(sums_at(self.values, k), f64::from(self.sequences))
    }

    // On the line through the knots numbered k and k + 1.
    #[tactic(auto, unfolding(crate::specs::Stats::line_figures))]
    fn line_figures(&self, i: u32, k: usize) -> KLDivergenceBaselineStats
        requires ten_each { length self.now.values.now ≡ knot_values * length self.now.knots.now }
        requires two_knots { k + 1 < length self.now.knots.now }
        requires rises { knot_at self.now.knots.now k < knot_at self.now.knots.now (k + 1) }
        requires reached { knot_at self.now.knots.now k ≤ i }
        ensures { result ≡ line_figures self.now.knots.now self.now.values.now self.now.sequences i k }
    {
        let w = weight(i, self.knots[k], self.knots[k + 1]);
        interpolate(self.knot_figures(k), self.knot_figures(k + 1), w)
    }

    fn figures_at(&self, i: u32) -> KLDivergenceBaselineStats
        requires ten_each { length self.now.values.now ≡ knot_values * length self.now.knots.now }
        requires rise { rising self.now.knots.now ≡ true }
        requires not_past { past_one_knot self.now.knots.now i ≡ false }
        ensures { result ≡ figures_at self.now.knots.now self.now.values.now self.now.sequences i }
    {
        let n = not_above(self.knots, i);
        if n == 0 {
            return no_figures();
        }
        if self.knots[n - 1] == i {
            return self.knot_figures(n - 1);
        }
        if n < self.knots.len() {
            return self.line_figures(i, n - 1);
        }
        self.line_figures(i, n - 2)
    }

    // The means and variances at the length i.
    #[tactic(auto, using(crate::proofs::KnotLaws::fits_values, crate::proofs::KnotLaws::fits_rising), unfolding(crate::specs::Stats::baseline_reading, crate::specs::Stats::stats_refusal))]
    pub fn stats(&self, i: u32) -> Result<KLDivergenceBaselineStats, Reason>
        ensures { baseline_answer result ≡ baseline_reading self.now.knots.now self.now.values.now self.now.sequences i }
    {
        if !self.fits() {
            return Err(Reason::BaselineInput);
        }
        if self.is_past_one_knot(i) {
            return Err(Reason::OneKnot);
        }
        Ok(self.figures_at(i))
    }
}
