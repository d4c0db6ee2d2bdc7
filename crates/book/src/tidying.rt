// A tidy of the used entries: one pass that moves each entry that stays down once, and zeros behind them. The entries are lent as bytes,
// 24 an entry: while the pass is on they do not ascend.
ghost use Rattle.std.specs.Prelude.{◌≡◌, true, ◌+◌, ◌*◌, ◌/◌, ◌≤◌, length};
ghost use Rattle.entries.specs.Entries.{rows};
ghost use Rattle.book.specs.Form.{formed};
ghost use Rattle.book.specs.Calls.{book_of};
ghost use Rattle.book.specs.Tidy.{kept};
ghost use Rattle.book.specs.Ahead.{counts_ahead, first_stays, kept_ahead, rows_in, Moved};

use entries::entries::{count_of, kind_of};
use entries::keys::ENDING;
use entries::limits::ENTRY_SIZE;
use priors::addresses::rank_at;

// Of the entries up to the first of another node, some counts.
fn counts_ahead(entries: &[u8], node: u64) -> bool
    ensures { result ≡ counts_ahead node (rows_in entries.now) }
{
    for entry in entries.chunks_exact(ENTRY_SIZE) {
        if rank_at(entry, 0) != node {
            return false;
        }
        if count_of(entry, 0) != 0 {
            return true;
        }
    }
    false
}

// The first entry stays: it counts, or it is the ending of a node that does.
fn first_stays(entries: &[u8]) -> bool
    requires { 24 ≤ length entries.now }
    ensures { result ≡ first_stays (rows_in entries.now) }
{
    count_of(entries, 0) != 0
        || kind_of(entries, 0) == ENDING
            && counts_ahead(&entries[ENTRY_SIZE..], rank_at(entries, 0))
}

// Copies the entry at the place `from` down to the place `to`. 24 bytes, written out with no call: the archive wants memset alone.
fn move_down(entries: &mut [u8], from: usize, to: usize)
    requires to_le_from { to ≤ from }
    requires from_in_bounds { 24 * from + 24 ≤ length entries.old }
    ensures { Moved entries.old entries.new from to }
{
    let at = ENTRY_SIZE * from;
    entries.copy_within(at..at + ENTRY_SIZE, ENTRY_SIZE * to);
}

// Moves the entries that stay down to the front, in one pass. The result is their number.
fn close_gaps(entries: &mut [u8]) -> usize
    ensures upper_bound { 24 * result ≤ length entries.old }
    ensures result_after { rows entries.new result ≡ kept_ahead (rows_in entries.old) }
{
    // The number kept is the next place.
    let mut to = 0;
    for i in 0..entries.len() / ENTRY_SIZE {
        if first_stays(&entries[ENTRY_SIZE * i..]) {
            move_down(entries, i, to);
            to += 1;
        }
    }
    to
}

// Drops every child that counts nothing and every node whose ending and children all count nothing. The result is the number of entries.
pub fn drop_zeros(book: &mut [u8], used: usize) -> usize
    requires used_in_bounds { 24 * used ≤ length book.old }
    requires used_value { formed (rows book.old used) ≡ true }
    ensures value { result ≡ length (kept (rows book.old used)) }
    ensures upper_bound { result ≤ used }
    ensures book_after { book.new ≡ book_of (kept (rows book.old used)) (length book.old) }
{
    let n = close_gaps(&mut book[..ENTRY_SIZE * used]);
    let from = ENTRY_SIZE * n;
    book[from..].fill(0);
    n
}
