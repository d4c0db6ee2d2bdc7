use crate::tape::Place;
use std::fmt;

// How many cases were tried, and how many of them came out otherwise than they should.
#[derive(Clone, Copy)]
pub struct Tally {
    cases: u32,
    differ: u32,
}

impl Tally {
    pub fn new() -> Self {
        Tally {
            cases: 0,
            differ: 0,
        }
    }

    // One case more, which agrees or not.
    fn with(self, agrees: bool) -> Tally {
        Tally {
            cases: self.cases.saturating_add(1),
            differ: self.differ.saturating_add(u32::from(!agrees)),
        }
    }

    pub fn with_all(self, agree: &[bool]) -> Tally {
        agree.iter().fold(self, |tally, &agrees| tally.with(agrees))
    }
}

impl fmt::Display for Tally {
    fn fmt<W: fmt::Write>(&self, f: &mut fmt::Formatter<W>) -> fmt::Result {
        write!(f, "{} cases, {} differ", self.cases, self.differ)
    }
}

// Replays each case of a tape that begins with these letters. A case for which there is no answer, since it holds what no file does, does
// not agree either.
pub fn replay<F: FnMut(&mut Place) -> Option<bool>>(
    tape: &[u8],
    letters: &[u8; 4],
    mut same_case: F,
) -> Tally
    requires { F.IsAlwaysCallable same_case }
{
    let mut at = Place::start(tape);
    let mut tally = Tally::new();
    if at.word() != u32::from_le_bytes(*letters) {
        return tally;
    }
    for _ in 0..at.word() {
        let mut case = at.case();
        tally = tally.with(same_case(&mut case).unwrap_or(false));
    }
    tally
}
