// An entry is 24 bytes: node, kind, child address, count. A book's entries are the used ones at its front, and they ascend. The changes
// here are by place; those by key stand in changes.rt.
ghost use Rattle.std.specs.Prelude.{◌≡◌, ◌+◌, ◌-◌, ◌*◌, ◌^◌, ◌≤◌, ◌<◌, ◌++◌, ltb, length, take, drop};
ghost use Rattle.priors.specs.Word.{word, store};
ghost use Rattle.priors.specs.Rows.{row, keys, Ascends, change};
ghost use Rattle.priors.specs.Search.{holds};
ghost use Rattle.entries.specs.Keys.{key_value};
ghost use Rattle.entries.specs.Entries.{fields_at, key_at, rows, row_bytes, find_in, entry_count_at, with_count, with_entry, Rewritten};
ghost use Rattle.entries.specs.Ascending.{Ascends-prop};

use crate::keys::Key;
use crate::limits::ENTRY_SIZE;
use priors::addresses::{rank_at, write_rank};
use priors::places::partition_point;
use priors::words::{read_u32, write_u32};

// Entries as a call is lent them: all bytes of a book, and how many entries at its front are used. They may stand in any order.
#[derive(Clone, Copy)]
pub struct LentEntries<'a> {
    pub bytes: &'a [u8],
    pub used: usize,
    pub ghost in_bounds: { 24 * used ≤ length bytes.now },
}

// The used entries of a book, to be read: they ascend.
// Fields of their own, here and in EntriesMut and Listing, and no LentEntries: no plainer, since each contract would say `.lent.`.
#[derive(Clone, Copy)]
pub struct Entries<'a> {
    pub bytes: &'a [u8],
    pub used: usize,
    pub ghost in_bounds: { 24 * used ≤ length bytes.now },
    pub ghost ascends: { Ascends 0 (keys (rows bytes.now used)) } by { Ascends-prop 0 (keys (rows bytes.now used)) },
}

// The same, to be changed. Contracts say by `same_reference` and `len` that the lent slice stays the same one: a struct of a `&mut` does
// not say it by itself.
#[derive(Drop)]
pub struct EntriesMut<'a> {
    pub bytes: &'a mut [u8],
    pub used: usize,
    pub ghost in_bounds: { 24 * used ≤ length bytes.now },
    pub ghost ascends: { Ascends 0 (keys (rows bytes.now used)) } by { Ascends-prop 0 (keys (rows bytes.now used)) },
}

impl LentEntries<'_> {
    // The key of the entry at the place i.
    pub fn key(&self, i: usize) -> Key
        requires { i < self.now.used }
        ensures { result ≡ fields_at self.now.bytes.now (24 * i) }
    {
        key_of(self.bytes, ENTRY_SIZE * i)
    }

    // The count of the entry at the place i.
    pub fn count(&self, i: usize) -> u32
        requires { i < self.now.used }
        ensures { result ≡ entry_count_at self.now.bytes.now i }
    {
        count_of(self.bytes, ENTRY_SIZE * i)
    }

    // The place i is used and its entry has the given key.
    pub fn holds_at(&self, i: usize, key: Key) -> bool
        ensures { result ≡ holds (rows self.now.bytes.now self.now.used) i (key_value key) }
    {
        i < self.used && self.key(i) == key
    }

    // The entry at the place i has a key below the given one.
    fn is_below(&self, i: usize, key: Key) -> bool
        requires { i < self.now.used }
        ensures { result ≡ ltb (key_at self.now.bytes.now (24 * i)) (key_value key) }
    {
        self.key(i) < key
    }
}

impl<'a> Entries<'a> {
    // The same, with no order asked of them.
    pub fn lent(&self) -> LentEntries<'a>
        ensures bytes { result.bytes.now ≡ self.now.bytes.now }
        ensures used { result.used ≡ self.now.used }
    {
        LentEntries {
            bytes: self.bytes,
            used: self.used,
        }
    }

    // Finds a key by halving: its place, or where it is missing the place where it would go.
    pub fn find(&self, key: Key) -> Result<usize, usize>
        ensures { result ≡ find_in (rows self.now.bytes.now self.now.used) (key_value key) }
    {
        let lent = self.lent();
        let i = partition_point(0, self.used, |i| lent.is_below(i, key));
        if lent.holds_at(i, key) { Ok(i) } else { Err(i) }
    }
}

impl EntriesMut<'_> {
    pub fn as_ref(&self) -> Entries<'_>
        ensures bytes { result.bytes.now ≡ self.now.bytes.now }
        ensures used { result.used ≡ self.now.used }
    {
        Entries {
            bytes: self.bytes,
            used: self.used,
        }
    }

    // Puts an entry in at the place i, where its key would go, and moves those from there on one place up.
    pub fn insert(&mut self, i: usize, key: Key, count: u32)
        requires missing { find_in (rows self.old.bytes.now self.old.used) (key_value key) ≡ Err i }
        requires room { 24 * self.old.used + 24 ≤ length self.old.bytes.now }
        ensures same_reference { self.new.bytes.ghost_name ≡ self.old.bytes.ghost_name }
        ensures len { length self.new.bytes.now ≡ length self.old.bytes.now }
        ensures rewritten { Rewritten self.old.bytes.now self.new.bytes.now self.new.used (change (Some count) (λ c. c) (key_value key) (rows self.old.bytes.now self.old.used)) }
    {
        put_in(self.bytes, self.used, i, key, count);
        self.used += 1;
    }

    // Adds 1 to the count of the entry at the place i.
    pub fn bump_at(&mut self, i: usize)
        requires in_use { i < self.old.used }
        requires fits { entry_count_at self.old.bytes.now i + 1 < 2 ^ 32 }
        ensures same_reference { self.new.bytes.ghost_name ≡ self.old.bytes.ghost_name }
        ensures len { length self.new.bytes.now ≡ length self.old.bytes.now }
        ensures bytes { self.new.bytes.now ≡ with_count self.old.bytes.now i (entry_count_at self.old.bytes.now i + 1) }
        ensures used { self.new.used ≡ self.old.used }
    {
        let count = self.as_ref().lent().count(i);
        self.set_count(i, count + 1);
    }

    // Puts another count into the entry at the place i.
    #[tactic(auto, using(crate::proofs::ChangeLaws::counted_ascends))]
    pub(crate) fn set_count(&mut self, i: usize, count: u32)
        requires { i < self.old.used }
        ensures same_reference { self.new.bytes.ghost_name ≡ self.old.bytes.ghost_name }
        ensures len { length self.new.bytes.now ≡ length self.old.bytes.now }
        ensures bytes { self.new.bytes.now ≡ with_count self.old.bytes.now i count }
        ensures used { self.new.used ≡ self.old.used }
    {
        put_count(self.bytes, i, count);
    }
}

// The key of the entry from `at`.
pub fn key_of(s: &[u8], at: usize) -> Key
    requires { at + 24 ≤ length s.now }
    ensures { result ≡ fields_at s.now at }
{
    Key {
        node: rank_at(s, at),
        kind: kind_of(s, at),
        child: rank_at(s, at + 12),
    }
}

// Its kind alone.
pub fn kind_of(s: &[u8], at: usize) -> u32
    requires { at + 24 ≤ length s.now }
    ensures { result ≡ (fields_at s.now at).kind }
{
    read_u32(s, at + 8)
}

// Its count.
pub fn count_of(s: &[u8], at: usize) -> u32
    requires { at + 24 ≤ length s.now }
    ensures { result ≡ word s.now (at + 20) }
{
    read_u32(s, at + 20)
}

// Writes an entry from `at`.
pub fn put_entry(s: &mut [u8], at: usize, key: Key, count: u32)
    requires { at + 24 ≤ length s.old }
    ensures { s.new ≡ store s.old at (row_bytes (row (key_value key) count)) }
{
    write_rank(s, at, key.node);
    write_u32(s, at + 8, key.kind);
    write_rank(s, at + 12, key.child);
    write_u32(s, at + 20, count);
}

// Puts an entry in at the place i of n entries and moves those from there on one place up.
// Bytes and a number: while the entry goes in they are no Entries.
pub fn put_in(s: &mut [u8], n: usize, i: usize, key: Key, count: u32)
    requires i_le_n { i ≤ n }
    requires room { 24 * n + 24 ≤ length s.old }
    ensures { s.new ≡ with_entry s.old n i (row (key_value key) count) }
{
    open_gap(s, ENTRY_SIZE * i, ENTRY_SIZE * n);
    put_entry(s, ENTRY_SIZE * i, key, count);
}

// Puts another count into the entry at the place i.
// Bytes and no Entries: no order is asked of the others.
#[tactic(auto, unfolding(crate::specs::Entries::with_count))]
pub fn put_count(s: &mut [u8], i: usize, count: u32)
    requires { 24 * i + 24 ≤ length s.old }
    ensures { s.new ≡ with_count s.old i count }
{
    write_u32(s, ENTRY_SIZE * i + 20, count);
}

// Moves the bytes of s from `from` up to `to` an entry's size up. One by one: the C interface promises that the archive wants memset
// alone, and `copy_within` would want memmove.
fn open_gap(s: &mut [u8], from: usize, to: usize)
    requires from_le_to { from ≤ to }
    requires to_in_bounds { to + 24 ≤ length s.old }
    ensures { s.new ≡ take (from + 24) s.old ++ (drop from (take to s.old) ++ drop (to + 24) s.old) }
{
    for i in (from..to).rev() {
        s[i + ENTRY_SIZE] = s[i];
    }
}
