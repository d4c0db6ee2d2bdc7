// What an add does to the rows of a book, key by key: a key is listed, counts one more, or counts one less. Room is asked for only
// where an entry comes in.
ghost use Rattle.std.specs.Prelude.{◌-◌, ◌*◌, ◌^◌, ◌≤◌, ◌≡◌, length};
ghost use Rattle.priors.specs.Rows.{touch, bump, fade};
ghost use Rattle.entries.specs.Keys.{key_value};
ghost use Rattle.entries.specs.Entries.{rows, Rewritten, CountsUpTo};

use crate::entries::EntriesMut;
use crate::hints::Hints;
use crate::keys::Key;

impl EntriesMut<'_> {
    // Lists a key: a missing one comes in with 0.
    #[tactic(auto, using(crate::proofs::BookLaws::missing_length, crate::proofs::BookLaws::found_touched))]
    pub fn touch(&mut self, key: Key)
        requires { 24 * length (touch (key_value key) (rows self.old.bytes.now self.old.used)) ≤ length self.old.bytes.now }
        ensures same_reference { self.new.bytes.ghost_name ≡ self.old.bytes.ghost_name }
        ensures len { length self.new.bytes.now ≡ length self.old.bytes.now }
        ensures rewritten { Rewritten self.old.bytes.now self.new.bytes.now self.new.used (touch (key_value key) (rows self.old.bytes.now self.old.used)) }
    {
        if let Err(i) = self.as_ref().find(key) {
            self.insert(i, key, 0);
        }
    }

    // Counts a key one more: a missing one comes in with 1.
    #[tactic(auto, using(crate::proofs::BookLaws::found_lt, crate::proofs::BookLaws::missing_length))]
    pub fn note(&mut self, key: Key)
        requires counts_up_to { CountsUpTo (2 ^ 32 - 2) (rows self.old.bytes.now self.old.used) }
        requires room { 24 * length (bump (key_value key) (rows self.old.bytes.now self.old.used)) ≤ length self.old.bytes.now }
        ensures same_reference { self.new.bytes.ghost_name ≡ self.old.bytes.ghost_name }
        ensures len { length self.new.bytes.now ≡ length self.old.bytes.now }
        ensures rewritten { Rewritten self.old.bytes.now self.new.bytes.now self.new.used (bump (key_value key) (rows self.old.bytes.now self.old.used)) }
    {
        match self.as_ref().find(key) {
            Ok(i) => self.bump_at(i),
            Err(i) => self.insert(i, key, 1),
        }
    }

    // Counts a key one less, and never below 0: a missing one is passed over. It may stand at `place`.
    #[tactic(auto, using(crate::proofs::BookLaws::found_lt, crate::proofs::BookLaws::missing_faded))]
    pub fn fade(&mut self, key: Key, place: usize, hints: &mut Hints)
        ensures same_reference { self.new.bytes.ghost_name ≡ self.old.bytes.ghost_name }
        ensures len { length self.new.bytes.now ≡ length self.old.bytes.now }
        ensures rewritten { Rewritten self.old.bytes.now self.new.bytes.now self.new.used (fade (key_value key) (rows self.old.bytes.now self.old.used)) }
        ensures used { self.new.used ≡ self.old.used }
    {
        let entries = self.as_ref();
        if let Ok(i) = hints.find_at(&entries, key, place) {
            let count = entries.lent().count(i);
            self.set_count(i, count.saturating_sub(1));
        }
    }
}
