// A prior record is 16 bytes: an address, a count and a link. In a node record the count is the singleton count and the link
// starts the node's chain; in a child record they are the child's count and the link to the next record.
ghost use Rattle.std.specs.Prelude.{◌≡◌, ℕ, Bool, ◌+◌, ◌*◌, ◌<◌, ◌≤◌, length};
ghost use Rattle.priors.specs.Limits.{record_size};
ghost use Rattle.priors.specs.Below.{all_below};
ghost use Rattle.priors.specs.Priors.{record_at, record_count};

use crate::addresses::rank_at;
use crate::words::read_u32;

pub const RECORD_SIZE: usize = 16;

// A link of 0 leads nowhere, and no Option: it is read as the C interface lends it.
#[derive(Clone, Copy, Debug, PartialEq, Eq)]
pub struct Record {
    pub rank: u64,
    pub count: u32,
    pub link: u32,
}

pub fn record_count(s: &[u8]) -> usize
    ensures { result ≡ record_count s.now }
{
    s.len() / RECORD_SIZE
}

// The record numbered i from 0.
#[tactic(auto, unfolding(crate::specs::Priors::record_at))]
pub fn record_at(s: &[u8], i: usize) -> Record
    requires { record_size * i + 16 ≤ length s.now }
    ensures { result ≡ record_at s.now i }
{
    let at = RECORD_SIZE * i;
    Record {
        rank: rank_at(s, at),
        count: read_u32(s, at + 8),
        link: read_u32(s, at + 12),
    }
}

// Every record passes the test, which is told its place from 0.
// A loop: with `all`, the closure that calls the test needs three clauses of its own, and the whole is longer.
#[tactic(auto, using(crate::proofs::BelowLaws::all_none))]
pub fn every_record<F: Fn(usize, Record) -> bool>(s: &[u8], test: F) -> bool
    requires { (i : ℕ) → i < record_count s.now → F.pre test i (record_at s.now i) }
    ensures { (p : ℕ → Bool) → ((i : ℕ) (b : Bool) → i < record_count s.now → F.post test i (record_at s.now i) b → b ≡ p i) → result ≡ all_below (record_count s.now) p }
{
    for i in 0..record_count(s) {
        if !test(i, record_at(s, i)) {
            return false;
        }
    }
    true
}
