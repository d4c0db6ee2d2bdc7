// The statistics of divergences strictly above 1.0e-10.
ghost use Rattle.std.specs.Prelude.{◌≡◌, ◌+◌, ◌^◌, ◌<◌, ◌≤◌, if◌then◌else◌};
ghost use Rattle.entries.specs.Limits.{max_entries};
ghost use Rattle.std.specs.Float.Ieee.{lt};
ghost use Rattle.divergence.specs.Statistics.{no_stats, counted, noted, walk_by};
ghost use Rattle.divergence.specs.Listing.{nodes_left};

use crate::divergences::Measure;
use crate::nodes::Nodes;
use priors::refusals::Refusal;

// One figure is whole, so no Five.
#[derive(Clone, Copy, Debug, PartialEq)]
pub struct KLDivergenceStats {
    pub max: f64,
    pub min: f64,
    pub nz_count: u64,
    pub moment1_nz: f64,
    pub moment2_nz: f64,
    pub sequence_len: u32,
}

// The statistics of a walk, which counts no more nodes than a book has entries, and the number of nodes skipped.
#[derive(Clone, Copy, Debug, PartialEq)]
pub struct Tally {
    pub stats: KLDivergenceStats,
    pub skipped: u32,
    pub ghost few: { stats.nz_count ≤ max_entries },
}

const TINY: f64 = 1.0e-10;

// Not `a.max(x)` and `a.min(x)`, which would pass over a NaN that stands in a.
fn larger(a: f64, x: f64) -> f64
    ensures { result ≡ (if lt a x then x else a) }
{
    if a < x { x } else { a }
}

fn smaller(a: f64, x: f64) -> f64
    ensures { result ≡ (if lt x a then x else a) }
{
    if x < a { x } else { a }
}

impl KLDivergenceStats {
    // The statistics of no divergence: the least and the greatest float, as goko begins.
    fn new(sequence_len: u32) -> Self
        ensures { result ≡ no_stats sequence_len }
    {
        KLDivergenceStats {
            max: f64::MIN,
            min: f64::MAX,
            nz_count: 0,
            moment1_nz: 0.0,
            moment2_nz: 0.0,
            sequence_len,
        }
    }

    // One more divergence above 1.0e-10.
    #[tactic(auto, unfolding(crate::specs::Statistics::counted))]
    fn counted(self, x: f64) -> Self
        requires { self.nz_count + 1 < 2 ^ 64 }
        ensures { result ≡ counted self x }
    {
        KLDivergenceStats {
            max: larger(self.max, x),
            min: smaller(self.min, x),
            nz_count: self.nz_count + 1,
            moment1_nz: self.moment1_nz + x,
            moment2_nz: self.moment2_nz + x * x,
            ..self
        }
    }

    // One more divergence, which counts if it is above 1.0e-10.
    #[tactic(auto, unfolding(crate::specs::Statistics::noted))]
    fn noted(self, x: f64) -> Self
        requires { self.nz_count + 1 < 2 ^ 64 }
        ensures { result ≡ noted self x }
    {
        if x > TINY { self.counted(x) } else { self }
    }
}

impl Tally {
    ghost use Rattle.divergence.specs.Readings.{stats_reading_of};
    ghost use Rattle.divergence.specs.Answers.{stats_answer};

    // Over the nodes of a walk, up to the first that is refused. No `map_err`, as in `first_stop`.
    pub fn of(nodes: Nodes, by: &Measure, sequence_len: u32) -> Result<Self, Refusal>
        ensures { stats_answer result ≡ stats_reading_of sequence_len (walk_by by.now (nodes_left nodes.entry)) }
    {
        let mut stats = KLDivergenceStats::new(sequence_len);
        let mut skipped = 0;
        for node in nodes {
            match node.divergence(by) {
                Ok(Some(x)) => stats = stats.noted(x),
                Ok(None) => skipped += 1,
                Err(reason) => return Err(node.refusal(reason)),
            }
        }
        Ok(Tally { stats, skipped })
    }
}
