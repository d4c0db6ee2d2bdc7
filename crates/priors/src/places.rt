// Where the node records of an address and those after it begin. Nodes ascend, so that halving finds it.
ghost use Rattle.std.specs.Prelude.{◌≡◌, true, ℕ, Bool, ◌≤◌, ◌<◌};
ghost use Rattle.priors.specs.Below.{Falls, Parts};
ghost use Rattle.priors.specs.Priors.{record_at, records, record_count, ascends};
ghost use Rattle.priors.specs.Layer.{NoneBelow, FirstFrom};

use crate::records::{record_at, record_count};

// The first index from `from` up to `to` that is not below, where those below stand before all others.
// By halving: over places of lent bytes, as the C interface lends them, so no slice's own search serves.
pub fn partition_point<F: Fn(usize) -> bool>(from: usize, to: usize, is_below: F) -> usize
    requires from_le_to { from ≤ to }
    requires callable { (i : ℕ) → i < to → F.pre is_below i }
    ensures { (below : ℕ → Bool) → ((i : ℕ) (b : Bool) → i < to → F.post is_below i b → b ≡ below i) → Falls below to → Parts below from to result }
{
    let mut lo = from;
    let mut hi = to;
    while lo < hi {
        let mid = lo + (hi - lo) / 2;
        if is_below(mid) {
            lo = mid + 1;
        } else {
            hi = mid;
        }
    }
    lo
}

// Node records that strictly ascend.
#[derive(Clone, Copy)]
pub struct Nodes<'a> {
    pub bytes: &'a [u8],
    pub ghost ascending: { ascends (records bytes.now) ≡ true },
}

impl Nodes<'_> {
    pub fn len(&self) -> usize
        ensures { result ≡ record_count self.now.bytes.now }
    {
        record_count(self.bytes)
    }

    // The rank of the record numbered i from 0.
    pub fn rank_at(&self, i: usize) -> u64
        requires { i < record_count self.now.bytes.now }
        ensures { result ≡ (record_at self.now.bytes.now i).rank }
    {
        record_at(self.bytes, i).rank
    }

    // The place of the first record from `from` on whose rank is not below this one, or the end; none from `to` on is below it.
    pub fn halve(&self, from: usize, to: usize, rank: u64) -> usize
        requires from_le_to { from ≤ to }
        requires to_bound { to ≤ record_count self.now.bytes.now }
        requires none_below { NoneBelow self.now.bytes.now to rank }
        ensures { FirstFrom self.now.bytes.now from rank result }
    {
        partition_point(from, to, |i| self.rank_at(i) < rank)
    }

    // The same with no end given: in steps that double, then by halving in the last, so that what is near `from` is found soon.
    // A place and no Option, as of Rust's own partition_point: the search goes on from the end too.
    #[tactic(auto, using(crate::proofs::RecordLaws::not_below))]
    pub fn first_from(&self, from: usize, rank: u64) -> usize
        requires { from ≤ record_count self.now.bytes.now }
        ensures { FirstFrom self.now.bytes.now from rank result }
    {
        let n = self.len();
        let mut lo = from;
        let mut step = 1;
        while step <= n - lo {
            let last = lo + (step - 1);
            if rank <= self.rank_at(last) {
                return self.halve(lo, last, rank);
            }
            lo = last + 1;
            step = step * 2;
        }
        self.halve(lo, n, rank)
    }
}
