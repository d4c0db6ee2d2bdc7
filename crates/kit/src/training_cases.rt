// Replays training.bin: trainings, and figures asked of baselines (`stats_cases`).
use crate::tallies::{self, Tally};
use crate::tape::Place;
use crate::{stats_cases, train_cases};

// A case, by its kind: a number of the file that is told apart here alone, so it has no enum.
fn same_case(case: &mut Place) -> Option<bool> {
    match case.word() {
        1 => train_cases::same_case(case),
        2 => stats_cases::same_case(case),
        _ => None,
    }
}

pub fn replay(tape: &[u8]) -> Tally {
    tallies::replay(tape, b"TPT1", same_case)
}
