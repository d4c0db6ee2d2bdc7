// Whether the nodes and transitions that would be listed fit the book, told before anything is changed.
ghost use Rattle.std.specs.Prelude.{◌≡◌, not, ◌+◌, ◌*◌, ◌<◌, leb, eqb, length, get_or, take};
ghost use Rattle.entries.specs.Keys.{key_value};
ghost use Rattle.entries.specs.Entries.{rows};
ghost use Rattle.book.specs.Path.{path_of, listed_keys};
ghost use Rattle.book.specs.Changes.{touch_all, EndingsListed, EndingsListed-prop};
ghost use Rattle.book.specs.Recount.{occurrences};
ghost use Rattle.book.specs.Room.{brings};

use crate::paths::Path;
use entries::entries::Entries;
use entries::keys::Key;

impl Path<'_> {
    // The key numbered i of those that it lists is this one.
    #[tactic(auto, using(entries::proofs::KeyLaws::keys_same))]
    fn lists_at(&self, i: usize, key: Key) -> bool
        requires { i + 1 < 2 * length (path_of self.now.steps.now) }
        ensures { result ≡ eqb (key_value key) (get_or (listed_keys (path_of self.now.steps.now)) i 0) }
    {
        key == self.lent().listed_key(i)
    }

    // This key, the one numbered j, stands among the first j of those that it lists. Endings have even numbers and children odd ones, so
    // every second key is looked at, the nearest first: a path that stays at a node or goes to and fro repeats what it has just listed.
    fn lists_before(&self, j: usize, key: Key) -> bool
        requires in_list { j + 1 < 2 * length (path_of self.now.steps.now) }
        requires numbered { key_value key ≡ get_or (listed_keys (path_of self.now.steps.now)) j 0 }
        ensures { result ≡ not (eqb (occurrences (key_value key) (take j (listed_keys (path_of self.now.steps.now)))) 0) }
    {
        (0..j / 2).any(|back| self.lists_at(j - 2 * (back + 1), key))
    }
}

// A book's entries and a path that would come into it: whatever key has an entry, its node's ending has one.
#[derive(Clone, Copy)]
struct Arrival<'a> {
    entries: Entries<'a>,
    path: Path<'a>,
    ghost endings_listed: { EndingsListed (rows entries.bytes.now entries.used) } by { EndingsListed-prop (rows entries.bytes.now entries.used) },
}

impl Arrival<'_> {
    // How many entries the key numbered j brings: one, if it has none and stands for the first time.
    // A number and no flag, since the callers add it up.
    fn entries_brought(&self, j: usize) -> usize
        requires { j + 1 < 2 * length (path_of self.now.path.steps.now) }
        ensures { result ≡ brings (rows self.now.entries.bytes.now self.now.entries.used) (listed_keys (path_of self.now.path.steps.now)) j }
    {
        let key = self.path.lent().listed_key(j);
        match self.entries.find(key) {
            Ok(_) => 0,
            Err(_) => usize::from(!self.path.lists_before(j, key)),
        }
    }

    // How many entries the step numbered i and the child that follows it bring. A child that brings none has its node listed already.
    #[tactic(auto, using(crate::proofs::PathLaws::length_steps, crate::proofs::StepLaws::path_high))]
    fn pair_brought(&self, i: usize) -> usize
        requires { i + 1 < length (path_of self.now.path.steps.now) }
        ensures { result ≡ brings (rows self.now.entries.bytes.now self.now.entries.used) (listed_keys (path_of self.now.path.steps.now)) (2 * i) + brings (rows self.now.entries.bytes.now self.now.entries.used) (listed_keys (path_of self.now.path.steps.now)) (2 * i + 1) }
    {
        if self.entries_brought(2 * i + 1) == 0 {
            return 0;
        }
        self.entries_brought(2 * i) + 1
    }

    // How many entries the path's nodes and transitions bring.
    fn path_brought(&self) -> usize
        ensures { self.now.entries.used + result ≡ length (touch_all (listed_keys (path_of self.now.path.steps.now)) (rows self.now.entries.bytes.now self.now.entries.used)) }
    {
        let last = self.path.len() - 1;
        let mut all = 0;
        for i in 0..last {
            all += self.pair_brought(i);
        }
        all + self.entries_brought(2 * last)
    }
}

// With the path there are at most so many entries. A path of n steps lists at most 2n - 1 keys, so they are counted only where that might
// be too many.
// The endings are asked by a clause: an Arrival is made by it, and only here.
#[tactic(auto, using(crate::proofs::RoomLaws::path_at_most, entries::proofs::EntryLaws::length_rows))]
pub fn has_room(entries: &Entries, path: &Path, limit: usize) -> bool
    requires { EndingsListed (rows entries.now.bytes.now entries.now.used) }
    ensures { result ≡ leb (length (touch_all (listed_keys (path_of path.now.steps.now)) (rows entries.now.bytes.now entries.now.used))) limit }
{
    let most = entries.used + 2 * path.len() - 1;
    if most <= limit {
        return true;
    }
    let arrival = Arrival {
        entries: *entries,
        path: *path,
    };
    entries.used + arrival.path_brought() <= limit
}
