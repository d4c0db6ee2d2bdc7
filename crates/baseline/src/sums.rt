// A knot's sum record: of each of the five figures its sum over the sequences and the sum of its squares. It lies in a lent slice
// as ten values a knot, and is changed in place by `add`, as goko does.
ghost use Rattle.std.specs.Prelude.{◌≡◌, ◌+◌, ◌*◌, ◌≤◌, ◌<◌, length};
ghost use Rattle.entries.specs.Limits.{max_entries};
ghost use Rattle.baseline.specs.Limits.{knot_values};
ghost use Rattle.baseline.specs.Sums.{with_value, with_number, added as added_of, pair_at, sums_at, put_pair, put_sums};

use crate::five::Five;
use divergence::statistics::Tally;

// Values of a knot.
pub const KNOT_VALUES: usize = 10;

#[derive(Clone, Copy, Debug, PartialEq)]
pub struct SumPair {
    pub sum: f64,
    pub squares: f64,
}

pub type KnotSums = Five<SumPair>;

impl SumPair {
    fn with_value(self, x: f64) -> Self
        ensures { result ≡ with_value self x }
    {
        SumPair {
            sum: self.sum + x,
            squares: self.squares + x * x,
        }
    }

    // The number's square is whole before it is made a float, which a u64 is by `as` alone.
    fn with_number(self, n: u64) -> Self
        requires { n ≤ max_entries }
        ensures { result ≡ with_number self n }
    {
        SumPair {
            sum: self.sum + n as f64,
            squares: self.squares + (n * n) as f64,
        }
    }
}

impl KnotSums {
    // One more record. Figure by figure: the number alone is whole.
    #[tactic(auto, unfolding(crate::specs::Sums::added))]
    fn added(self, more: &Tally) -> Self
        ensures { result ≡ added_of self more.now.stats }
    {
        let stats = more.stats;
        Five {
            max: self.max.with_value(stats.max),
            min: self.min.with_value(stats.min),
            nz_count: self.nz_count.with_number(stats.nz_count),
            moment1_nz: self.moment1_nz.with_value(stats.moment1_nz),
            moment2_nz: self.moment2_nz.with_value(stats.moment2_nz),
        }
    }

    // The same in place: document 01 names it, a thin function over the one by value.
    fn add(&mut self, more: &Tally)
        ensures { self.new ≡ added_of self.old more.now.stats }
    {
        *self = self.added(more);
    }
}

fn pair_at(values: &[f64], at: usize) -> SumPair
    requires { at + 1 < length values.now }
    ensures { result ≡ pair_at values.now at }
{
    SumPair {
        sum: values[at],
        squares: values[at + 1],
    }
}

fn put_pair(values: &mut [f64], at: usize, p: SumPair)
    requires { at + 1 < length values.old }
    ensures { values.new ≡ put_pair values.old at p }
{
    values[at] = p.sum;
    values[at + 1] = p.squares;
}

// What the knot numbered k from 0 holds.
// Figure by figure: each has its place among the ten values that the C interface lends.
#[tactic(auto, unfolding(crate::specs::Sums::sums_at))]
pub(crate) fn sums_at(values: &[f64], k: usize) -> KnotSums
    requires { knot_values * k + 9 < length values.now }
    ensures { result ≡ sums_at values.now k }
{
    let at = KNOT_VALUES * k;
    Five {
        max: pair_at(values, at),
        min: pair_at(values, at + 2),
        nz_count: pair_at(values, at + 4),
        moment1_nz: pair_at(values, at + 6),
        moment2_nz: pair_at(values, at + 8),
    }
}

// As sums_at reads them.
#[tactic(auto, unfolding(crate::specs::Sums::put_sums))]
fn put_sums(values: &mut [f64], k: usize, sums: KnotSums)
    requires { knot_values * k + 9 < length values.old }
    ensures { values.new ≡ put_sums values.old k sums }
{
    let at = KNOT_VALUES * k;
    put_pair(values, at, sums.max);
    put_pair(values, at + 2, sums.min);
    put_pair(values, at + 4, sums.nz_count);
    put_pair(values, at + 6, sums.moment1_nz);
    put_pair(values, at + 8, sums.moment2_nz);
}

// One more record at the knot numbered k.
pub(crate) fn add_at(values: &mut [f64], k: usize, more: &Tally)
    requires { knot_values * k + 9 < length values.old }
    ensures { values.new ≡ put_sums values.old k (added_of (sums_at values.old k) more.now.stats) }
{
    let mut sums = sums_at(values, k);
    sums.add(more);
    put_sums(values, k, sums);
}
