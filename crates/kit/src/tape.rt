// A recorded file, read as 32-bit words. All is total: past the end words are 0 and bytes are missing, so a broken file shows as a
// difference.
ghost use Rattle.std.specs.Prelude.{◌^◌, ◌<◌};

use priors::addresses::{Address, rank};
use priors::lookups::LentPriors;

// No place is past this one; the files are far shorter.
const LAST: usize = 4194304;

// A place in a tape, counted in bytes, and the place where its case ends. Each piece of data/README.md that is read there moves it on to
// the next. Where a piece differs from what it should be, its case is over, and no more of it is read.
#[derive(Clone, Copy)]
pub struct Place<'a> {
    tape: &'a [u8],
    at: usize,
    end: usize,
}

// The first n, or all where there are fewer.
pub fn first_of<T>(s: &[T], n: usize) -> &[T] {
    s.get(..n).unwrap_or(s)
}

impl<'a> Place<'a> {
    pub fn start(tape: &'a [u8]) -> Place<'a> {
        Place {
            tape,
            at: 0,
            end: tape.len(),
        }
    }

    // The start of the file.
    pub fn first(&self) -> Place<'a> {
        Place::start(self.tape)
    }

    // The next n bytes, fewer where the tape ends before.
    pub fn take(&mut self, n: usize) -> &'a [u8] {
        let rest = self.tape.get(self.at..).unwrap_or(&[]);
        self.at = self.at.saturating_add(n).min(LAST);
        first_of(rest, n)
    }

    pub fn word(&mut self) -> u32 {
        self.take(4)
            .first_chunk()
            .map_or(0, |bytes| u32::from_le_bytes(*bytes))
    }

    // A word that says how many follow.
    pub fn count(&mut self) -> usize
        ensures { result < 2 ^ 32 }
    {
        self.word() as usize
    }

    // The count that comes next, not yet read.
    pub fn next_count(&self) -> usize
        ensures { result < 2 ^ 32 }
    {
        let mut ahead = *self;
        ahead.count()
    }

    pub fn bytes(&mut self) -> &'a [u8] {
        let n = self.count();
        first_of(self.take(n.next_multiple_of(4)), n)
    }

    // So many words that are all 0.
    pub fn zeros(&mut self, words: usize) -> bool {
        self.take(words.saturating_mul(4))
            .iter()
            .all(|&byte| byte == 0)
    }

    // A case, which its number of words begins. What the file is cut off before is read as missing, as anywhere.
    pub fn case(&mut self) -> Place<'a> {
        let n = self.count();
        let mut case = *self;
        self.take(4 * n);
        case.end = self.at;
        case
    }

    // All of the case was read, and no more.
    pub fn is_at_end(&self) -> bool {
        self.at == self.end
    }

    // The rank of an address.
    pub fn rank(&mut self) -> u64 {
        let bits = self.word();
        rank(bits, self.word())
    }

    pub fn address(&mut self) -> Address {
        Address::from_rank(self.rank())
    }

    pub fn priors(&mut self) -> LentPriors<'a> {
        LentPriors {
            nodes: self.bytes(),
            children: self.bytes(),
            floor: self.word().cast_signed(),
        }
    }
}
