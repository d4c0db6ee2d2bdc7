// The calls that change a tracker, as they are recorded: after each its number, the state and the sums of book and queue, and at the end of
// a list every byte of both.
use crate::memory::{Buffers, bring_places, same_places, sum_of};
use crate::tape::{Place, first_of};
use book::trackers::{Seen, Tracker};
use priors::refusals::{Reason, number};

// A tracker as it stands, and the buffers that it is lent the first bytes of: so many. Lengths beside the buffers, since a later opening
// may be lent more of them; and the place in the tape beside the play, since it moves on while a reading sees the tracker.
#[derive(Drop)]
pub struct Play<'a> {
    pub tracker: Tracker,
    buffers: Buffers<'a>,
    book_len: usize,
    queue_len: usize,
}

pub fn state(at: &mut Place) -> Tracker {
    Tracker {
        window: at.word(),
        used: at.word(),
        accepted: at.word(),
    }
}

// The number of the refusal, if the call was refused, and the state come next.
pub fn same_state(at: &mut Place, answer: Result<Tracker, Reason>, tracker: Tracker) -> bool {
    at.word() == number(answer) && state(at) == tracker
}

impl<'a> Play<'a> {
    // Before the first opening: all bytes of the buffers are the next word's, and there is a state of zeros and no bytes.
    pub fn new(at: &mut Place, buffers: Buffers<'a>) -> Play<'a> {
        let [byte, ..] = at.word().to_le_bytes();
        buffers.book.fill(byte);
        buffers.queue.fill(byte);
        Play {
            tracker: Tracker {
                window: 0,
                used: 0,
                accepted: 0,
            },
            buffers,
            book_len: 0,
            queue_len: 0,
        }
    }

    pub fn book(&self) -> &[u8] {
        first_of(self.buffers.book, self.book_len)
    }

    pub fn queue(&self) -> &[u8] {
        first_of(self.buffers.queue, self.queue_len)
    }

    // What a reading sees.
    pub fn seen(&self) -> Seen<'_> {
        Seen {
            tracker: self.tracker,
            book: self.book(),
            queue: self.queue(),
        }
    }

    // The tracker goes on with the state that an answer gives. The answer comes next, with the state and the sums.
    fn goes_on(&mut self, at: &mut Place, answer: Result<Tracker, Reason>) -> bool {
        self.tracker = answer.unwrap_or(self.tracker);
        same_state(at, answer, self.tracker)
            && at.word() == sum_of(self.book())
            && at.word() == sum_of(self.queue())
    }

    pub fn open(&mut self, at: &mut Place) -> Option<bool> {
        let window = at.word();
        let book_len = at.count();
        let queue_len = at.count();
        let answer = self.buffers.lend(book_len, queue_len, |book, queue| {
            Tracker::open(window, book, queue)
        })?;
        if answer.is_ok() {
            self.book_len = book_len;
            self.queue_len = queue_len;
        }
        Some(self.goes_on(at, answer))
    }

    // What a call answers that is lent the bytes of the tracker.
    fn lend<A, F: FnOnce(Tracker, &mut [u8], &mut [u8]) -> A>(&mut self, call: F) -> Option<A>
        requires { F.IsAlwaysCallable call }
    {
        let t = self.tracker;
        self.buffers
            .lend(self.book_len, self.queue_len, |book, queue| {
                call(t, book, queue)
            })
    }

    pub fn add_path(&mut self, at: &mut Place) -> Option<bool> {
        let path = at.bytes();
        let answer = self.lend(|t, book, queue| t.add_path(book, queue, path))?;
        Some(self.goes_on(at, answer))
    }

    pub fn tidy(&mut self, at: &mut Place) -> Option<bool> {
        let answer = self.lend(|t, book, queue| t.tidy(book, queue))?;
        Some(self.goes_on(at, answer))
    }

    // The answer tells first how many of the paths were taken.
    pub fn add_paths(&mut self, at: &mut Place) -> Option<bool> {
        let mut places = [0u8; 5160];
        let places = bring_places(at, &mut places);
        let (taken, answer) = match self.lend(|t, book, queue| t.add_paths(book, queue, places))? {
            Ok(taken) => (taken, Ok(taken.tracker)),
            Err(stopped) => (stopped.taken, Err(stopped.reason)),
        };
        self.tracker = taken.tracker;
        Some(at.word() == taken.paths && self.goes_on(at, answer))
    }

    // The end of a list: the book's length and its used entries, which zeros follow, and the queue.
    pub fn same_end(&self, at: &mut Place) -> bool {
        let n = at.count();
        let used = at.bytes();
        let book = self.book();
        n == book.len()
            && book
                .strip_prefix(used)
                .is_some_and(|rest| rest.iter().all(|&byte| byte == 0))
            && same_places(at, self.queue())
            && at.is_at_end()
    }
}
