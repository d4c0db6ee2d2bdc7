// Mean and variance of the five figures at a knot, and the straight line between two knots. Every operation is rounded once.
ghost use Rattle.std.specs.Prelude.{◌≡◌, ◌≤◌, ◌<◌};
ghost use Rattle.baseline.specs.Figures.{mean_var, to_mean_var, on_line, pair_on_line, interpolated, weight as weight_of, no_figures};

use crate::five::Five;
use crate::sums::{KnotSums, SumPair};

#[derive(Clone, Copy, Debug, PartialEq)]
pub struct MeanVar {
    pub mean: f64,
    pub variance: f64,
}

// goko's record of the same name, with a record for each of its pairs.
pub type KLDivergenceBaselineStats = Five<MeanVar>;

fn mean_var(p: SumPair, s: f64) -> MeanVar
    ensures { result ≡ mean_var p s }
{
    let mean = p.sum / s;
    MeanVar {
        mean,
        variance: p.squares / s - mean * mean,
    }
}

// The figures of a knot's sums over s sequences.
#[tactic(auto, unfolding(crate::specs::Figures::to_mean_var))]
pub(crate) fn to_mean_var(sums: KnotSums, s: f64) -> KLDivergenceBaselineStats
    ensures { result ≡ to_mean_var sums s }
{
    sums.map(|p| mean_var(p, s))
}

fn on_line(a: f64, b: f64, w: f64) -> f64
    ensures { result ≡ on_line a b w }
{
    a + w * (b - a)
}

fn pair_on_line(a: MeanVar, b: MeanVar, w: f64) -> MeanVar
    ensures { result ≡ pair_on_line a b w }
{
    MeanVar {
        mean: on_line(a.mean, b.mean, w),
        variance: on_line(a.variance, b.variance, w),
    }
}

// The figures on the line through a and b at the weight w, means and variances alike.
#[tactic(auto, unfolding(crate::specs::Figures::interpolated))]
pub fn interpolate(
    a: KLDivergenceBaselineStats,
    b: KLDivergenceBaselineStats,
    w: f64,
) -> KLDivergenceBaselineStats
    ensures { result ≡ interpolated a b w }
{
    a.zip(b, |a, b| pair_on_line(a, b, w))
}

// Whole differences are made floats and divided once.
pub(crate) fn weight(i: u32, left: u32, right: u32) -> f64
    requires { (left ≤ i) × (left < right) }
    ensures { result ≡ weight_of i left right }
{
    f64::from(i - left) / f64::from(right - left)
}

pub(crate) fn no_figures() -> KLDivergenceBaselineStats
    ensures { result ≡ no_figures }
{
    Five::alike(MeanVar {
        mean: 0.0,
        variance: 0.0,
    })
}
