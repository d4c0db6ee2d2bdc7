// The queue: places of 516 bytes, each a length, steps and zeros, as the C interface lends it.
// A place is named by the byte where it begins: any byte will do, and callers have it.
ghost use Rattle.std.specs.Prelude.{◌≡◌, ◌+◌, ◌*◌, ◌≤◌, length, take, drop};
ghost use Rattle.priors.specs.Word.{word, store};
ghost use Rattle.book.specs.Calls.{place_bytes};

use entries::limits::{PLACE_SIZE, STEP_SIZE};
use priors::words::{read_u32, write_u32};

// Copies all of `from` over all of `to`. Byte by byte: the C interface promises that the archive wants memset alone.
#[tactic(auto, using(crate::proofs::PlaceLaws::copy_turn, crate::proofs::PlaceLaws::copy_done))]
fn copy_over(to: &mut [u8], from: &[u8])
    requires { length to.old ≡ length from.now }
    ensures { to.new ≡ from.now }
{
    for i in 0..from.len() {
        to[i] = from[i];
    }
}

// The part of these places that holds the steps of the path in the place from `at`.
pub fn steps_in(places: &[u8], at: usize) -> &[u8]
    requires { at + 4 + 8 * word places.now at ≤ length places.now }
    ensures { result.now ≡ take (8 * word places.now at) (drop (at + 4) places.now) }
{
    let steps = read_u32(places, at) as usize;
    let from = at + 4;
    let to = from + STEP_SIZE * steps;
    &places[from..to]
}

// Writes a path into the place from `at`: its length, its steps, zeros.
pub fn put_path(queue: &mut [u8], at: usize, steps: &[u8])
    requires at_in_bounds { at + 516 ≤ length queue.old }
    requires few { length steps.now ≤ 512 }
    ensures { queue.new ≡ store queue.old at (place_bytes steps.now) }
{
    write_u32(queue, at, (steps.len() / STEP_SIZE) as u32);
    let from = at + 4;
    let to = from + steps.len();
    copy_over(&mut queue[from..to], steps);
    let end = at + PLACE_SIZE;
    queue[to..end].fill(0);
}
