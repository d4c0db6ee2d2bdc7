// Opening a tracker, adding one path or a list of paths, and tidying its book. The tracker's three numbers stand in a lent array: window,
// entries used, paths accepted. A refused call leaves all that is lent as it was; but a list of paths keeps
// those that it took before, and tells how many.
ghost use Rattle.std.specs.Prelude.{◌≡◌};
ghost use Rattle.book.specs.Calls.{open_answer, add_answer};
ghost use Rattle.book.specs.Batches.{batch_answer};
ghost use Rattle.book.specs.Tidy.{tidy_answer};
ghost use Rattle.exports.specs.Outputs.{tracker_of, numbers_or, taken_or, kept_numbers};

use crate::answers::{tell_batch, tell_state, tracker_of};
use book::trackers::Tracker;

// Numbers 8 and 9.
#[unsafe(no_mangle)]
pub extern "C" fn teakpool_open(
    window: u32,
    book: &mut [u8],
    queue: &mut [u8],
    state: &mut [u32; 3],
) -> u32
    ensures value { result ≡ (open_answer window book.old queue.old).number }
    ensures book_after { book.new ≡ (open_answer window book.old queue.old).book }
    ensures queue_after { queue.new ≡ (open_answer window book.old queue.old).queue }
    ensures state_after { state.new ≡ numbers_or (open_answer window book.old queue.old).state state.old }
{
    tell_state(Tracker::open(window, book, queue), state)
}

// Numbers 9 to 12.
#[unsafe(no_mangle)]
pub extern "C" fn teakpool_add_path(
    state: &mut [u32; 3],
    book: &mut [u8],
    queue: &mut [u8],
    path: &[u8],
) -> u32
    ensures value { result ≡ (add_answer (tracker_of state.old) book.old queue.old path.now).number }
    ensures book_after { book.new ≡ (add_answer (tracker_of state.old) book.old queue.old path.now).book }
    ensures queue_after { queue.new ≡ (add_answer (tracker_of state.old) book.old queue.old path.now).queue }
    ensures state_after { state.new ≡ kept_numbers (add_answer (tracker_of state.old) book.old queue.old path.now) state.old }
{
    let t = tracker_of(state);
    tell_state(t.add_path(book, queue, path), state)
}

// Numbers 9 to 12: 9 before the first path. How many were taken is told in every case.
#[unsafe(no_mangle)]
pub extern "C" fn teakpool_add_paths(
    state: &mut [u32; 3],
    book: &mut [u8],
    queue: &mut [u8],
    places: &[u8],
    taken: &mut u32,
) -> u32
    ensures value { result ≡ (batch_answer (tracker_of state.old) book.old queue.old places.now).number }
    ensures taken_after { taken.new ≡ taken_or (batch_answer (tracker_of state.old) book.old queue.old places.now).taken taken.old }
    ensures book_after { book.new ≡ (batch_answer (tracker_of state.old) book.old queue.old places.now).book }
    ensures queue_after { queue.new ≡ (batch_answer (tracker_of state.old) book.old queue.old places.now).queue }
    ensures state_after { state.new ≡ numbers_or (batch_answer (tracker_of state.old) book.old queue.old places.now).state state.old }
{
    let t = tracker_of(state);
    tell_batch(t.add_paths(book, queue, places), state, taken)
}

// Number 9.
#[unsafe(no_mangle)]
pub extern "C" fn teakpool_tidy(state: &mut [u32; 3], book: &mut [u8], queue: &[u8]) -> u32
    ensures value { result ≡ (tidy_answer (tracker_of state.old) book.old queue.now).number }
    ensures book_after { book.new ≡ (tidy_answer (tracker_of state.old) book.old queue.now).book }
    ensures state_after { state.new ≡ kept_numbers (tidy_answer (tracker_of state.old) book.old queue.now) state.old }
{
    let t = tracker_of(state);
    tell_state(t.tidy(book, queue), state)
}
