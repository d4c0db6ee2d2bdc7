// A path, its steps added to a book in one pass and taken away again. Steps are lent as bytes, 8 a step.
ghost use Rattle.std.specs.Prelude.{◌≡◌, true, ◌+◌, ◌-◌, ◌*◌, ◌/◌, ◌^◌, ◌≤◌, ◌<◌, length, get_or, IfOk, if◌then◌else◌};
ghost use Rattle.priors.specs.Refusals.{checked_number};
ghost use Rattle.priors.specs.Rows.{touch, bump};
ghost use Rattle.entries.specs.Limits.{max_steps};
ghost use Rattle.entries.specs.Keys.{key_value, end_key, child_key};
ghost use Rattle.entries.specs.Entries.{rows, Rewritten, CountsUpTo};
ghost use Rattle.book.specs.Path.{path_of, whole_path, listed_keys, counted_keys};
ghost use Rattle.book.specs.Figures.{Ranks, Ranks-prop};
ghost use Rattle.book.specs.Changes.{EndingsListed, touch_all, bump_all, fade_all};

use crate::form::is_whole;
use entries::entries::EntriesMut;
use entries::hints::Hints;
use entries::keys::Key;
use entries::limits::{MAX_STEPS, STEP_SIZE};
use priors::addresses::rank_at;
use priors::refusals::Reason;

// One step or more. Bytes behind the last whole one are not read.
#[derive(Clone, Copy)]
pub struct LentSteps<'a> {
    pub bytes: &'a [u8],
    pub ghost some: { 8 ≤ length bytes.now },
}

// A path of 1 to 64 whole steps.
#[derive(Clone, Copy)]
pub struct Path<'a> {
    pub steps: &'a [u8],
    pub ghost whole: { whole_path steps.now ≡ true },
    pub ghost ranks: { Ranks (path_of steps.now) } by { Ranks-prop (path_of steps.now) },
}

impl LentSteps<'_> {
    // The number of its steps.
    #[tactic(auto, using(crate::proofs::PathLaws::length_steps))]
    fn len(&self) -> usize
        ensures { result ≡ length (path_of self.now.bytes.now) }
    {
        self.bytes.len() / STEP_SIZE
    }

    // The rank of the step numbered i.
    #[tactic(auto, using(crate::proofs::PathLaws::length_steps, crate::proofs::StepLaws::get_d_steps))]
    pub(crate) fn rank(&self, i: usize) -> u64
        requires { i < length (path_of self.now.bytes.now) }
        ensures { result ≡ get_or (path_of self.now.bytes.now) i 0 }
    {
        rank_at(self.bytes, STEP_SIZE * i)
    }

    // The key numbered i of those that they count: the child that follows a step, and at last the ending of the last one.
    #[tactic(auto, using(crate::proofs::CountingLaws::counted_child, crate::proofs::CountingLaws::counted_ending))]
    pub(crate) fn counted_key(&self, i: usize) -> Key
        requires { i < length (path_of self.now.bytes.now) }
        ensures { key_value result ≡ get_or (counted_keys (path_of self.now.bytes.now)) i 0 }
    {
        let node = self.rank(i);
        if i == self.len() - 1 {
            return Key::ending(node);
        }
        Key::child(node, self.rank(i + 1))
    }

    // The key numbered j of those that they list: a step's ending, then the child that follows it, and so on.
    #[tactic(auto, using(crate::proofs::StepLaws::listed_odd, crate::proofs::StepLaws::listed_even))]
    pub(crate) fn listed_key(&self, j: usize) -> Key
        requires { j + 1 < 2 * length (path_of self.now.bytes.now) }
        ensures { key_value result ≡ get_or (listed_keys (path_of self.now.bytes.now)) j 0 }
    {
        let i = j / 2;
        let node = self.rank(i);
        if j % 2 == 0 {
            return Key::ending(node);
        }
        Key::child(node, self.rank(i + 1))
    }
}

impl<'a> Path<'a> {
    // Number 10.
    #[tactic(auto, using(crate::proofs::PathLaws::steps_ranks), unfolding(crate::specs::Path::whole_path))]
    pub fn check(steps: &'a [u8]) -> Result<Path<'a>, Reason>
        ensures number { checked_number result ≡ (if whole_path steps.now then 0 else 10) }
        ensures lent { IfOk result (λ p. p.steps.now ≡ steps.now) }
    {
        if !is_whole(steps, STEP_SIZE, MAX_STEPS as usize) {
            return Err(Reason::PathLength);
        }
        Ok(Path { steps })
    }

    // The number of its steps.
    #[tactic(auto, using(crate::proofs::StepLaws::path_low, crate::proofs::StepLaws::path_high, crate::proofs::PathLaws::length_steps))]
    pub(crate) fn len(&self) -> usize
        ensures value { result ≡ length (path_of self.now.steps.now) }
        ensures some { 1 ≤ result }
        ensures few { result ≤ max_steps }
    {
        self.lent().len()
    }

    // The same, not asked to be whole.
    #[tactic(auto, using(crate::proofs::StepLaws::path_low))]
    pub(crate) fn lent(&self) -> LentSteps<'a>
        ensures { result.bytes.now ≡ self.now.steps.now }
    {
        LentSteps { bytes: self.steps }
    }
}

// A node is listed and the step from it to the next counts one more. A step that has an entry has its node listed already; before one
// that has none the node's ending may come in, and then its place is one further up.
// A function, as those after it are, and no method: they change entries, which are of another crate, by a path.
// Clauses and no type, as in counting's count_path.
fn add_pair(entries: &mut EntriesMut, node: u64, next: u64)
    requires endings_listed { EndingsListed (rows entries.old.bytes.now entries.old.used) }
    requires counts_up_to { CountsUpTo (2 ^ 32 - 2) (rows entries.old.bytes.now entries.old.used) }
    requires room { 24 * length (bump (child_key node next) (touch (end_key node) (rows entries.old.bytes.now entries.old.used))) ≤ length entries.old.bytes.now }
    ensures same_reference { entries.new.bytes.ghost_name ≡ entries.old.bytes.ghost_name }
    ensures len { length entries.new.bytes.now ≡ length entries.old.bytes.now }
    ensures rewritten { Rewritten entries.old.bytes.now entries.new.bytes.now entries.new.used (bump (child_key node next) (touch (end_key node) (rows entries.old.bytes.now entries.old.used))) }
{
    let key = Key::child(node, next);
    match entries.as_ref().find(key) {
        Ok(i) => entries.bump_at(i),
        Err(i) => {
            let before = entries.used;
            entries.touch(Key::ending(node));
            entries.insert(i + (entries.used - before), key, 1);
        }
    }
}

// Lists and counts what a path lists and counts, in one pass over it.
// Clauses and no type, as in counting's count_path.
pub fn add_steps(entries: &mut EntriesMut, path: &Path)
    requires endings_listed { EndingsListed (rows entries.old.bytes.now entries.old.used) }
    requires counts_up_to { CountsUpTo (2 ^ 31) (rows entries.old.bytes.now entries.old.used) }
    requires room { 24 * length (touch_all (listed_keys (path_of path.now.steps.now)) (rows entries.old.bytes.now entries.old.used)) ≤ length entries.old.bytes.now }
    ensures same_reference { entries.new.bytes.ghost_name ≡ entries.old.bytes.ghost_name }
    ensures len { length entries.new.bytes.now ≡ length entries.old.bytes.now }
    ensures rewritten { Rewritten entries.old.bytes.now entries.new.bytes.now entries.new.used (bump_all (counted_keys (path_of path.now.steps.now)) (touch_all (listed_keys (path_of path.now.steps.now)) (rows entries.old.bytes.now entries.old.used))) }
{
    let steps = path.lent();
    let last = path.len() - 1;
    for i in 0..last {
        add_pair(entries, steps.rank(i), steps.rank(i + 1));
    }
    entries.note(Key::ending(steps.rank(last)));
}

// Takes away what these steps counted.
pub fn take_away(entries: &mut EntriesMut, steps: &LentSteps, hints: &mut Hints, row: usize)
    ensures same_reference { entries.new.bytes.ghost_name ≡ entries.old.bytes.ghost_name }
    ensures len { length entries.new.bytes.now ≡ length entries.old.bytes.now }
    ensures rewritten { Rewritten entries.old.bytes.now entries.new.bytes.now entries.new.used (fade_all (counted_keys (path_of steps.now.bytes.now)) (rows entries.old.bytes.now entries.old.used)) }
    ensures used { entries.new.used ≡ entries.old.used }
{
    for i in 0..steps.len() {
        let place = hints.told(row, i);
        entries.fade(steps.counted_key(i), place, hints);
    }
}
