// Paths lent as places of 516 bytes, one after another.
ghost use Rattle.std.specs.Prelude.{◌≡◌, ◌+◌, ◌*◌, ◌≤◌, length};
ghost use Rattle.entries.specs.Limits.{place_size};
ghost use Rattle.book.specs.Batches.{path_in, lent_path};

use crate::queue::steps_in;
use entries::limits::{MAX_STEPS, PLACE_SIZE};
use priors::words::read_u32;

// The path in the place numbered k. One whose length is over 64 is no path, and is handed on as an empty one:
// `Path::check` turns both back by 10, so there is one test.
#[tactic(auto, unfolding(crate::specs::Batches::path_in))]
pub fn path_in(places: &[u8], k: usize) -> &[u8]
    requires { place_size * k + place_size ≤ length places.now }
    ensures { result.now ≡ path_in places.now k }
{
    let at = PLACE_SIZE * k;
    let steps = read_u32(places, at);
    if steps > MAX_STEPS {
        return &places[at..at];
    }
    steps_in(places, at)
}

// The same of a list whose last place may be cut off: that is handed on as an empty path, too.
#[tactic(auto, unfolding(crate::specs::Batches::lent_path))]
pub fn lent_path(places: &[u8], k: usize) -> &[u8]
    requires { place_size * k ≤ length places.now }
    ensures { result.now ≡ lent_path places.now k }
{
    let at = PLACE_SIZE * k;
    if places.len() - at < PLACE_SIZE {
        return &places[at..at];
    }
    path_in(places, k)
}
