// Hints: places where a key stood when it was last looked up, in a table by a hash of the key. A hint is looked at before it is believed,
// so the table may hold anything, and no contract speaks of what it holds. There is no heap, so no map: slots and rows lie in one lent
// array.
ghost use Rattle.std.specs.Prelude.{◌≡◌, true, ◌^◌, ◌≤◌, ◌<◌, IfSome, length};
ghost use Rattle.priors.specs.Search.{holds};
ghost use Rattle.entries.specs.Keys.{key_value};
ghost use Rattle.entries.specs.Entries.{rows, find_in};

use crate::entries::{Entries, LentEntries};
use crate::keys::Key;
use crate::limits::MAX_WINDOW;
use priors::addresses::{point_part, scale_part};

// Slots of a table. Behind them lie rows of 16, one for each path of the window and one more: where the first keys of that path stood.
pub const SLOTS: usize = 32768;

pub const ROW: usize = 16;

// A table with a row for each path of the widest window.
pub const TABLE: usize = SLOTS + ROW * (MAX_WINDOW as usize + 1);

// A sum has two slots: these are the lowest digits that each goes by.
const FIRST: u64 = 262144;

const SECOND: u64 = 4;

// Bytes of a list of paths from which on it pays to note where all entries stand: 100 places.
const MANY: usize = 51600;

// A table of fewer slots is none. No Option: a look-up asks for the length all the same, so that its slots are in bounds.
#[derive(Drop)]
pub struct Hints<'a> {
    table: &'a mut [u16],
}

// A sum that tells keys apart, more or less. By the halves of ranks, so that no product passes 64 bits.
fn mixed(key: Key) -> u64 {
    let a = u64::from(point_part(key.node)) * 506952113;
    let b = u64::from(scale_part(key.node)) * 290532955;
    let c = u64::from(point_part(key.child)) * 189983053;
    let d = u64::from(scale_part(key.child)) * 379481127;
    a + b + (c + d)
}

// The slot for a sum, by its digits from this one on.
fn slot(sum: u64, lowest: u64) -> usize
    requires { 1 ≤ lowest }
    ensures { result < 32768 }
{
    (sum / lowest % SLOTS as u64) as usize
}

// The row of the path numbered k.
pub fn row_of(window: u32, k: usize) -> usize
    ensures { result < 2 ^ 40 }
{
    SLOTS + ROW * (k % (window as usize + 1))
}

impl<'a> Hints<'a> {
    pub fn over(table: &'a mut [u16]) -> Self {
        Hints { table }
    }

    pub fn none() -> Self {
        Hints { table: &mut [] }
    }

    // Notes the places of all entries in a fresh table, for a list of paths of n bytes that is long enough: in the first slot of a key,
    // or in the second where the first is in use.
    // 0 is an empty slot: an Option would double the table.
    pub fn note_all(&mut self, entries: &LentEntries, n: usize) {
        if n < MANY || self.table.len() < SLOTS {
            return;
        }
        let table = &mut *self.table;
        for i in 0..entries.used {
            let Ok(place) = u16::try_from(i) else {
                return;
            };
            let sum = mixed(entries.key(i));
            let first = slot(sum, FIRST);
            let chosen = if table[first] == 0 {
                first
            } else {
                slot(sum, SECOND)
            };
            table[chosen] = place;
        }
    }

    // Finds a key: at the given place, or as `find_hinted` does.
    #[tactic(auto, using(crate::proofs::HalvingLaws::stands_found))]
    pub fn find_at(&mut self, entries: &Entries, key: Key, i: usize) -> Result<usize, usize>
        ensures { result ≡ find_in (rows entries.now.bytes.now entries.now.used) (key_value key) }
    {
        if entries.lent().holds_at(i, key) {
            return Ok(i);
        }
        self.find_hinted(entries, key)
    }

    // The place of a key.
    pub fn place_of(&mut self, entries: &Entries, key: Key) -> Option<usize>
        ensures { IfSome result (λ i. holds (rows entries.now.bytes.now entries.now.used) i (key_value key) ≡ true) }
    {
        self.find_hinted(entries, key).ok()
    }

    // The hint for the key numbered i of a path, from its row; anything where there is no such row.
    pub fn told(&self, row: usize, i: usize) -> usize {
        self.table
            .get(row.saturating_add(i))
            .map_or(0, |&place| usize::from(place))
    }

    // Notes in its row where the first keys of a path stand. 32 bytes, written out with no call: the archive wants memset alone.
    pub fn note_row(&mut self, row: usize, places: &[u16; 64]) {
        if let Some(own) = self.table.get_mut(row..row.saturating_add(ROW)) {
            own.copy_from_slice(&places[..own.len()]);
        }
    }

    // Finds a key: at a hinted place, or by halving, and then its place is noted.
    #[tactic(auto, using(crate::proofs::HalvingLaws::stands_found))]
    pub fn find_hinted(&mut self, entries: &Entries, key: Key) -> Result<usize, usize>
        ensures { result ≡ find_in (rows entries.now.bytes.now entries.now.used) (key_value key) }
    {
        if self.table.len() < SLOTS {
            return entries.find(key);
        }
        let sum = mixed(key);
        for lowest in [FIRST, SECOND] {
            let at = usize::from(self.table[slot(sum, lowest)]);
            if entries.lent().holds_at(at, key) {
                return Ok(at);
            }
        }
        let found = entries.find(key);
        if let Ok(i) = found {
            self.note_place(entries, sum, i);
        }
        found
    }

    // Notes that a key with this sum stands at the place i: in its first slot, or in its second where the first is another key's own and
    // sound.
    fn note_place(&mut self, entries: &Entries, sum: u64, i: usize)
        requires { 32768 ≤ length self.old.table.now }
    {
        let Ok(place) = u16::try_from(i) else {
            return;
        };
        let first = slot(sum, FIRST);
        let other = usize::from(self.table[first]);
        let own = other < entries.used && slot(mixed(entries.lent().key(other)), FIRST) == first;
        let chosen = if own { slot(sum, SECOND) } else { first };
        self.table[chosen] = place;
    }
}
