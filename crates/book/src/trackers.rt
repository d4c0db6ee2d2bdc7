// The state that stands beside the lent book and queue, and the calls on it.
ghost use Rattle.std.specs.Prelude.{◌≡◌, ◌*◌, ◌≤◌, ◌<◌, ◌+◌, length, IfOk, if◌then◌else◌};
ghost use Rattle.priors.specs.Refusals.{checked_number};
ghost use Rattle.entries.specs.Entries.{rows, Rewritten};
ghost use Rattle.book.specs.Path.{path_of};
ghost use Rattle.book.specs.Changes.{fade_all, left_keys};
ghost use Rattle.book.specs.Figures.{in_window};
ghost use Rattle.book.specs.Form.{in_form};
ghost use Rattle.book.specs.Tidy.{tidy_answer};
ghost use Rattle.book.specs.Calls.{opened_answer, changed_answer, open_answer, add_answer, next_place, leaving, queue_with};
ghost use Rattle.book.specs.Batches.{batched_answer, batch_answer};
ghost use Rattle.book.specs.Adding.{Leaves, Going, Gone};

use crate::counting::count_path;
use crate::form::{Listing, book_fits, entries_formed, lengths_fit, queue_fits, state_fits};
use crate::paths::{LentSteps, Path, take_away};
use crate::places::lent_path;
use crate::queue::{put_path, steps_in};
use crate::tidying::drop_zeros;
use entries::entries::EntriesMut;
use entries::hints::{Hints, TABLE, row_of};
use entries::limits::{ENTRY_SIZE, MAX_ACCEPTED, MAX_WINDOW, PLACE_SIZE};
use priors::refusals::Reason;

#[derive(Clone, Copy, Debug, PartialEq, Eq)]
pub struct Tracker {
    // A window of 0 keeps every path, and no Option: the C interface lends a number.
    pub window: u32,
    pub used: u32,
    pub accepted: u32,
}

// What a reading sees of a tracker: its state, and the book and the queue that are lent with it.
#[derive(Clone, Copy)]
pub struct Seen<'a> {
    pub tracker: Tracker,
    pub book: &'a [u8],
    pub queue: &'a [u8],
}

// The state with the paths of a list that were taken, and how many these were.
#[derive(Clone, Copy, Debug, PartialEq, Eq)]
pub struct Taken {
    pub tracker: Tracker,
    pub paths: u32,
}

// Why a list of paths went no further, and what was taken until then.
#[derive(Clone, Copy, Debug, PartialEq, Eq)]
pub struct Stopped {
    pub reason: Reason,
    pub taken: Taken,
}

impl<'a> Seen<'a> {
    // State, book and queue have the form.
    #[tactic(auto, using(crate::proofs::CallLaws::used_fits, crate::proofs::CallLaws::places_fit), unfolding(crate::specs::Form::in_form))]
    pub fn in_form(&self) -> bool
        ensures { result ≡ in_form self.now.tracker self.now.book.now self.now.queue.now }
    {
        let t = self.tracker;
        book_fits(self.book)
            && state_fits(t, self.book)
            && queue_fits(t.window, self.queue)
            && entries_formed(self.book, t.used as usize)
            && lengths_fit(self.queue, t.window.min(t.accepted) as usize)
    }

    // The used entries: 9 for the form.
    #[tactic(auto, using(crate::proofs::CallLaws::form_used, crate::proofs::CallLaws::form_few, crate::proofs::CallLaws::form_formed))]
    pub fn listing(&self) -> Result<Listing<'a>, Reason>
        ensures number { checked_number result ≡ (if in_form self.now.tracker self.now.book.now self.now.queue.now then 0 else 9) }
        ensures lent { IfOk result (λ l. (l.bytes.now ≡ self.now.book.now) × (l.used ≡ self.now.tracker.used)) }
    {
        if !self.in_form() {
            return Err(Reason::Form);
        }
        Ok(Listing {
            bytes: self.book,
            used: self.tracker.used as usize,
        })
    }
}

// Book and queue go beside the tracker: the C interface lends the three apart.
impl Tracker {
    // Opens a tracker: book and queue are zeroed to their ends. 8 for a window over 1,024, 9 for what is lent.
    #[tactic(auto, unfolding(crate::specs::Calls::open_number, crate::specs::Calls::open_state, crate::specs::Calls::open_book, crate::specs::Calls::open_queue))]
    pub fn open(window: u32, book: &mut [u8], queue: &mut [u8]) -> Result<Tracker, Reason>
        ensures { opened_answer result book.new queue.new ≡ open_answer window book.old queue.old }
    {
        if window > MAX_WINDOW {
            return Err(Reason::Window);
        }
        if !book_fits(book) || !queue_fits(window, queue) {
            return Err(Reason::Form);
        }
        book.fill(0);
        queue.fill(0);
        Ok(Tracker {
            window,
            used: 0,
            accepted: 0,
        })
    }

    // The used entries of this tracker's book: 9 for the form.
    fn listing<'a>(self, book: &'a [u8], queue: &'a [u8]) -> Result<Listing<'a>, Reason>
        ensures number { checked_number result ≡ (if in_form self book.now queue.now then 0 else 9) }
        ensures lent { IfOk result (λ l. (l.bytes.now ≡ book.now) × (l.used ≡ self.used)) }
    {
        let seen = Seen {
            tracker: self,
            book,
            queue,
        };
        seen.listing()
    }

    // Adds a path and takes the oldest past the window away: 9 for the form, 10 for the path, 11 and 12 where it is one too many. The
    // result is the state that it leaves; refused, the caller's own stands.
    pub fn add_path(
        mut self,
        book: &mut [u8],
        queue: &mut [u8],
        path: &[u8],
    ) -> Result<Tracker, Reason>
        ensures { changed_answer self result book.new queue.new ≡ add_answer self book.old queue.old path.now }
    {
        self.listing(book, queue)?;
        self.add_going(book, queue, path, &mut Hints::none())?;
        Ok(self)
    }

    // An add in a list of adds, whose form was tested before the first: 10, 11, 12.
    fn add_going(
        &mut self,
        book: &mut [u8],
        queue: &mut [u8],
        path: &[u8],
        hints: &mut Hints,
    ) -> Result<(), Reason>
        requires { Going self.old book.old queue.old }
        ensures { Gone self.old book.old queue.old path.now (checked_number result) self.new book.new queue.new }
    {
        let path = Path::check(path)?;
        if self.accepted >= MAX_ACCEPTED {
            return Err(Reason::PathsFull);
        }
        let limit = book.len() / ENTRY_SIZE;
        let row = row_of(self.window, self.accepted as usize);
        let mut entries = EntriesMut {
            bytes: book,
            used: self.used as usize,
        };
        count_path(&mut entries, &path, limit, hints, row)?;
        self.let_go(&mut entries, queue, hints);
        self.keep(queue, &path);
        self.used = entries.used as u32;
        self.accepted += 1;
        Ok(())
    }

    // Adds the paths that lie in lent places, one after another, up to the first that is refused: 9 for the form, tested once, then 10 to
    // 12 for each. Those taken before stay in.
    pub fn add_paths(
        mut self,
        book: &mut [u8],
        queue: &mut [u8],
        places: &[u8],
    ) -> Result<Taken, Stopped>
        ensures { batched_answer result book.new queue.new ≡ batch_answer self book.old queue.old places.now }
    {
        let listing = self
            .listing(book, queue)
            .map_err(|reason| self.stopped(reason, 0))?;
        // There is no heap, so the table lies here.
        let mut table = [0u16; TABLE];
        let mut hints = Hints::over(&mut table);
        hints.note_all(&listing.lent(), places.len());
        let n = places.len().div_ceil(PLACE_SIZE);
        for k in 0..n {
            self.add_going(book, queue, lent_path(places, k), &mut hints)
                .map_err(|reason| self.stopped(reason, k as u32))?;
        }
        Ok(self.taken(n as u32))
    }

    // This state, with so many paths of a list taken.
    fn taken(self, paths: u32) -> Taken
        ensures { result ≡ record { tracker = self; paths = paths } }
    {
        Taken {
            tracker: self,
            paths,
        }
    }

    // A list of paths goes no further, with so many taken.
    fn stopped(self, reason: Reason, paths: u32) -> Stopped
        ensures { result ≡ record { reason = reason; taken = record { tracker = self; paths = paths } } }
    {
        Stopped {
            reason,
            taken: self.taken(paths),
        }
    }

    // Where the next path is written, and where the oldest lies once the window is full. A byte: by it the queue names a place.
    fn next_place(self) -> usize
        requires { 1 ≤ self.window }
        ensures { result ≡ next_place self }
    {
        PLACE_SIZE * ((self.accepted % self.window) as usize)
    }

    // Takes the oldest path past the window away, if the window is full.
    fn let_go(self, entries: &mut EntriesMut, queue: &[u8], hints: &mut Hints)
        requires { Leaves self queue.now }
        ensures same_reference { entries.new.bytes.ghost_name ≡ entries.old.bytes.ghost_name }
        ensures len { length entries.new.bytes.now ≡ length entries.old.bytes.now }
        ensures rewritten { Rewritten entries.old.bytes.now entries.new.bytes.now entries.new.used (fade_all (left_keys (leaving self queue.now)) (rows entries.old.bytes.now entries.old.used)) }
        ensures used { entries.new.used ≡ entries.old.used }
    {
        if self.window == 0 || self.accepted < self.window {
            return;
        }
        let oldest = LentSteps {
            bytes: steps_in(queue, self.next_place()),
        };
        let row = row_of(self.window, self.accepted as usize + 1);
        take_away(entries, &oldest, hints, row);
    }

    // Writes the path into its place, if there is a window.
    #[tactic(auto, using(crate::proofs::StepLaws::path_length), unfolding(crate::specs::Calls::queue_with))]
    fn keep(self, queue: &mut [u8], path: &Path)
        requires { 516 * self.window ≤ length queue.old }
        ensures { queue.new ≡ queue_with self queue.old path.now.steps.now }
    {
        if self.window != 0 {
            put_path(queue, self.next_place(), path.steps);
        }
    }

    // Drops every child that counts nothing and every node whose ending and children all count nothing, and zeroes the book behind the
    // kept entries: 9 for the form.
    #[tactic(auto, using(crate::proofs::CallLaws::form_used), unfolding(crate::specs::Tidy::tidy_number, crate::specs::Tidy::tidy_state, crate::specs::Tidy::state_tidied, crate::specs::Tidy::tidy_book))]
    pub fn tidy(mut self, book: &mut [u8], queue: &[u8]) -> Result<Tracker, Reason>
        ensures { changed_answer self result book.new queue.now ≡ tidy_answer self book.old queue.now }
    {
        self.listing(book, queue)?;
        self.used = drop_zeros(book, self.used as usize) as u32;
        Ok(self)
    }

    // The number of paths in the window part.
    pub fn sequence_len(self) -> u32
        ensures { result ≡ in_window self.window self.accepted }
    {
        if self.window == 0 {
            return self.accepted;
        }
        self.window.min(self.accepted)
    }
}
