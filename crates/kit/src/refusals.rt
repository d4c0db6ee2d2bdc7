// A refusal as it is recorded: its number, and the address of the node that 14 and 15 name, else zeros. Then comes what an answer tells,
// with zeros in the place of what it doesn't.
use crate::tape::Place;
use priors::addresses::rank;
use priors::refusals::Refusal;

// The rank of the node that a refusal names, or of the address of two zeros.
fn named_rank(r: Refusal) -> u64 {
    match r {
        Refusal::AtNode(_, node) => node.rank(),
        Refusal::Plain(_) => rank(0, 0),
    }
}

// This refusal comes next, or none.
pub fn same_refusal(at: &mut Place, refused: Option<Refusal>) -> bool {
    at.word() == refused.map_or(0, u32::from) && at.rank() == refused.map_or(rank(0, 0), named_rank)
}

// What is told comes next, or so many zeros where nothing is.
pub fn same_told<T: Copy, F: FnOnce(&mut Place, T) -> bool>(
    at: &mut Place,
    told: Option<T>,
    words: usize,
    same: F,
) -> bool
    requires { F.IsAlwaysCallable same }
{
    match told {
        Some(x) => same(at, x),
        None => at.zeros(words),
    }
}

// Whether it is told comes next, and then what is told; so many zeros in all where nothing is.
pub fn same_option<T: Copy, F: FnOnce(&mut Place, T) -> bool>(
    at: &mut Place,
    told: Option<T>,
    words: usize,
    same: F,
) -> bool
    requires { F.IsAlwaysCallable same }
{
    match told {
        Some(x) => at.word() == 1 && same(at, x),
        None => at.zeros(words),
    }
}

// A refusal comes next, or none, and then the same.
pub fn same_answer<T: Copy, E: Copy, F: FnOnce(&mut Place, T) -> bool>(
    at: &mut Place,
    answer: Result<T, E>,
    words: usize,
    same: F,
) -> bool
where
    Refusal: From<E>,
    requires { F.IsAlwaysCallable same }
{
    same_refusal(at, answer.err().map(Refusal::from)) && same_told(at, answer.ok(), words, same)
}
