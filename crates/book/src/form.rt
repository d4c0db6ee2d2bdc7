// The form that each call on a tracker tests, but an opening: sizes of what is lent, the state within limits, used entries in order,
// and the lengths of filled places. No other byte is read.
ghost use Rattle.std.specs.Prelude.{◌≡◌, true, ◌*◌, ◌/◌, ◌%◌, ◌≤◌, ◌&&◌, eqb, leb, length};
ghost use Rattle.priors.specs.Rows.{row};
ghost use Rattle.entries.specs.Limits.{max_entries};
ghost use Rattle.entries.specs.Keys.{key_value};
ghost use Rattle.entries.specs.Entries.{rows};
ghost use Rattle.book.specs.Form.{book_fits, queue_fits, plain, follows, formed, lengths_fit, state_fits};

use crate::trackers::Tracker;
use entries::entries::{Entries, LentEntries, count_of, key_of};
use entries::keys::{CHILD, ENDING, Key, NO_CHILD};
use entries::limits::{
    ENTRY_SIZE, MAX_ACCEPTED, MAX_COUNT, MAX_ENTRIES, MAX_STEPS, MAX_WINDOW, PLACE_SIZE,
};
use priors::words::read_u32;

// The used entries of a book that has the form.
#[derive(Clone, Copy)]
pub struct Listing<'a> {
    pub bytes: &'a [u8],
    pub used: usize,
    pub ghost in_bounds: { 24 * used ≤ length bytes.now },
    pub ghost few: { used ≤ max_entries },
    pub ghost formed: { formed (rows bytes.now used) ≡ true },
}

impl<'a> Listing<'a> {
    #[tactic(auto, using(crate::proofs::FormLaws::formed_ascends))]
    pub fn entries(&self) -> Entries<'a>
        ensures bytes { result.bytes.now ≡ self.now.bytes.now }
        ensures used { result.used ≡ self.now.used }
    {
        Entries {
            bytes: self.bytes,
            used: self.used,
        }
    }

    // The same, with no form asked of them.
    pub fn lent(&self) -> LentEntries<'a>
        ensures bytes { result.bytes.now ≡ self.now.bytes.now }
        ensures used { result.used ≡ self.now.used }
    {
        self.entries().lent()
    }
}

// These bytes are whole pieces of this size: one at least, and so many at most.
pub(crate) fn is_whole(s: &[u8], size: usize, most: usize) -> bool
    requires { 1 ≤ size }
    ensures { result ≡ (eqb (length s.now % size) 0 && (leb 1 (length s.now / size) && leb (length s.now / size) most)) }
{
    s.len() % size == 0 && (1..=most).contains(&(s.len() / size))
}

// A lent book has 1 to 16,384 whole entries.
#[tactic(auto, unfolding(crate::specs::Form::book_fits))]
pub fn book_fits(book: &[u8]) -> bool
    ensures { result ≡ book_fits book.now }
{
    is_whole(book, ENTRY_SIZE, MAX_ENTRIES)
}

// A lent queue has a place for each path of the window.
#[tactic(auto, unfolding(crate::specs::Form::queue_fits))]
pub fn queue_fits(window: u32, queue: &[u8]) -> bool
    ensures { result ≡ queue_fits window queue.now }
{
    PLACE_SIZE * window as usize <= queue.len()
}

// The state is within its limits.
#[tactic(auto, unfolding(crate::specs::Form::state_fits))]
pub(crate) fn state_fits(t: Tracker, book: &[u8]) -> bool
    ensures { result ≡ state_fits t book.now }
{
    t.window <= MAX_WINDOW
        && t.used as usize <= book.len() / ENTRY_SIZE
        && t.accepted <= MAX_ACCEPTED
}

// An entry by itself: an ending or a child, a count up to 2^30, and zeros for an ending's child address.
#[tactic(auto, using(crate::proofs::FormLaws::plain_is), unfolding(priors::specs::Address::rank, priors::specs::Address::lift))]
fn plain(key: Key, count: u32) -> bool
    ensures { result ≡ plain (row (key_value key) count) }
{
    count <= MAX_COUNT
        && match key.kind {
            ENDING => key.child == NO_CHILD,
            CHILD => true,
            _ => false,
        }
}

// An entry with this key can stand after one with the key `last`. Its count plays no part. Field by field, test by test: with the keys' own
// `<`, or with one `&&` of all, which were tried, the test of the form takes an eighth to a third longer.
#[tactic(auto, using(crate::proofs::FormLaws::follows_is))]
fn follows(last: Key, key: Key) -> bool
    ensures { result ≡ follows (key_value last) (row (key_value key) 0) }
{
    if last.node == key.node {
        if last.kind < key.kind {
            return true;
        }
        if key.kind < last.kind {
            return false;
        }
        return last.child < key.child;
    }
    if key.node < last.node {
        return false;
    }
    key.kind == ENDING
}

// The used entries have the form. Each entry is read once.
// Bytes and a number: this is the test that a Listing rests on.
pub fn entries_formed(book: &[u8], used: usize) -> bool
    requires { 24 * used ≤ length book.now }
    ensures { result ≡ formed (rows book.now used) }
{
    if used == 0 {
        return true;
    }
    let mut last = key_of(book, 0);
    if !plain(last, count_of(book, 0)) || last.kind != ENDING {
        return false;
    }
    for i in 1..used {
        let at = ENTRY_SIZE * i;
        let key = key_of(book, at);
        if !plain(key, count_of(book, at)) || !follows(last, key) {
            return false;
        }
        last = key;
    }
    true
}

// The first n places hold lengths of 1 to 64. By number: `chunks` would be no plainer, as there may be more than n and the last be cut off.
pub fn lengths_fit(queue: &[u8], n: usize) -> bool
    requires { 516 * n ≤ length queue.now }
    ensures { result ≡ lengths_fit queue.now n }
{
    (0..n).all(|i| (1..=MAX_STEPS).contains(&read_u32(queue, PLACE_SIZE * i)))
}
