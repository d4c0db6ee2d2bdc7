// A path is counted: where all that it counts has entries, they count one more and nothing is new; else the room is looked at first.
// Functions and no methods: they look up and change entries, which are of another crate, by a path.
ghost use Rattle.std.specs.Prelude.{◌≡◌, true, ◌^◌, ◌≤◌, length};
ghost use Rattle.entries.specs.Limits.{max_entries};
ghost use Rattle.entries.specs.Entries.{rows, Rewritten, CountsUpTo};
ghost use Rattle.book.specs.Path.{path_of, counted_keys};
ghost use Rattle.book.specs.Changes.{EndingsListed, bump_all};
ghost use Rattle.book.specs.Form.{capacity};
ghost use Rattle.book.specs.Adding.{Stand, Outcome};

use crate::paths::{Path, add_steps};
use crate::room::has_room;
use entries::entries::{Entries, EntriesMut};
use entries::hints::Hints;
use priors::refusals::Reason;

// Looks up all that a path counts. True if all of it has entries; their places are told then. They are written into a lent table: one
// that is handed back would be copied by memcpy, and the C interface promises that the archive wants memset alone. A flag beside it is no
// less plain than an Option of the part in use: count_at, told by that, would have its path for the contract alone.
fn look_up(entries: &Entries, path: &Path, hints: &mut Hints, places: &mut [u16; 64]) -> bool
    requires { entries.now.used ≤ 2 ^ 16 }
    ensures { result ≡ true → Stand (rows entries.now.bytes.now entries.now.used) (counted_keys (path_of path.now.steps.now)) places.new }
{
    let steps = path.lent();
    for i in 0..path.len() {
        match hints.place_of(entries, steps.counted_key(i)) {
            Some(place) => places[i] = place as u16,
            None => return false,
        }
    }
    true
}

// All that a path counts stands at these places: each counts one more.
// Clauses and no type, as in count_path.
fn count_at(entries: &mut EntriesMut, path: &Path, places: &[u16; 64])
    requires counts_up_to { CountsUpTo (2 ^ 31) (rows entries.old.bytes.now entries.old.used) }
    requires stand { Stand (rows entries.old.bytes.now entries.old.used) (counted_keys (path_of path.now.steps.now)) places.now }
    ensures same_reference { entries.new.bytes.ghost_name ≡ entries.old.bytes.ghost_name }
    ensures len { length entries.new.bytes.now ≡ length entries.old.bytes.now }
    ensures rewritten { Rewritten entries.old.bytes.now entries.new.bytes.now entries.new.used (bump_all (counted_keys (path_of path.now.steps.now)) (rows entries.old.bytes.now entries.old.used)) }
    ensures used { entries.new.used ≡ entries.old.used }
{
    for &place in &places[..path.len()] {
        entries.bump_at(usize::from(place));
    }
}

// Lists and counts what a path lists and counts, if there are at most `limit` entries then; else 12. The limit is the capacity, where
// the book is one tracker's own.
// Clauses and no type: counts rise with each path, and `insert` may leave a child without its ending, so no EntriesMut could keep them.
pub fn count_path(
    entries: &mut EntriesMut,
    path: &Path,
    limit: usize,
    hints: &mut Hints,
    row: usize,
) -> Result<(), Reason>
    requires used_le_max_entries { entries.old.used ≤ max_entries }
    requires endings_listed { EndingsListed (rows entries.old.bytes.now entries.old.used) }
    requires counts_up_to { CountsUpTo (2 ^ 31) (rows entries.old.bytes.now entries.old.used) }
    requires limit_bound { limit ≤ capacity entries.old.bytes.now }
    ensures same_reference { entries.new.bytes.ghost_name ≡ entries.old.bytes.ghost_name }
    ensures len { length entries.new.bytes.now ≡ length entries.old.bytes.now }
    ensures outcome { Outcome entries.old.bytes.now entries.new.bytes.now entries.old.used entries.new.used path.now.steps.now limit result }
{
    let mut places = [0u16; 64];
    if look_up(&entries.as_ref(), path, hints, &mut places) {
        if limit < entries.used {
            return Err(Reason::BookFull);
        }
        count_at(entries, path, &places);
        hints.note_row(row, &places);
        return Ok(());
    }
    if !has_room(&entries.as_ref(), path, limit) {
        return Err(Reason::BookFull);
    }
    add_steps(entries, path);
    Ok(())
}
