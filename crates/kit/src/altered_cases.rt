// Replays altered.bin: one add each on a state, a book and a queue that others wrote, and every byte afterwards.
use crate::calls_cases::{same_state, state};
use crate::memory::{Buffers, bring_most_bytes, bring_places, same_places};
use crate::tallies::{self, Tally};
use crate::tape::Place;

// Where book or queue is past the buffers there is no add, and its number is this one, which no refusal has.
const PAST_BUFFERS: u32 = 99;

fn same_case(case: &mut Place, buffers: &mut Buffers) -> bool {
    let tracker = state(case);
    let book_len = case.next_count();
    let book = bring_most_bytes(case, buffers.book);
    let queue_len = case.next_count();
    let queue = bring_places(case, buffers.queue);
    let path = case.bytes();
    let same = if book.len() == book_len && queue.len() == queue_len {
        let answer = tracker.add_path(book, queue, path);
        same_state(case, answer, answer.unwrap_or(tracker))
    } else {
        case.word() == PAST_BUFFERS && state(case) == tracker
    };
    same && case.bytes() == book && same_places(case, queue) && case.is_at_end()
}

pub fn replay(tape: &[u8], buffers: &mut Buffers) -> Tally {
    tallies::replay(tape, b"TPA1", |case| Some(same_case(case, buffers)))
}
