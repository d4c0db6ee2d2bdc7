// Replays calls.bin, large.bin, readings.bin, tidies.bin and batches.bin: lists of openings, adds, lists of paths, tidies and readings on
// one tracker, every answer, every output place afterwards, and at the end every byte of book and queue.
use crate::calls_cases::Play;
use crate::figures::bring_most;
use crate::kl_calls::{all_call, node_call, stats_call};
use crate::memory::Buffers;
use crate::tallies::{self, Tally};
use crate::tape::Place;
use crate::vector_calls::{evidence_call, vector_call};
use priors::lookups::LentPriors;
use priors::tables::LentTables;

// What readings are lent: the place of the tables, and the priors. Until a list has said so, both are taken from the start of the file.
#[derive(Clone, Copy)]
struct Lending<'a> {
    tables: Place<'a>,
    priors: LentPriors<'a>,
}

// Figures that are not read now.
fn pass_figures(at: &mut Place) {
    let n = at.count();
    at.take(8 * n);
}

// A reading, by its kind.
fn reading(kind: u32, p: &Play, lending: &Lending, at: &mut Place) -> Option<bool> {
    let mut g = [0.0f64; 128];
    let mut d = [0.0f64; 128];
    let mut tables = lending.tables;
    let g = bring_most(&mut tables, &mut g);
    let d = bring_most(&mut tables, &mut d);
    let priors = lending.priors;
    let tables = LentTables { g, d };
    match kind {
        5 => vector_call(p, &priors, at),
        6 => evidence_call(p, at),
        7 => Some(node_call(p, &tables, &priors, at)),
        8 => all_call(p, &tables, &priors, at),
        9 => Some(stats_call(p, &tables, &priors, at)),
        _ => None,
    }
}

// The next call, by its kind, which no file's passes its last: 3 and 4 say what readings are lent from there on. Kinds are numbers of the
// file that are told apart here and in `reading` alone, so they have no enum.
fn call<'a>(
    last: u32,
    p: &mut Play,
    lending: &mut Lending<'a>,
    at: &mut Place<'a>,
) -> Option<bool> {
    match at.word() {
        kind if last < kind => None,
        1 => p.open(at),
        2 => p.add_path(at),
        3 => {
            lending.tables = *at;
            pass_figures(at);
            pass_figures(at);
            Some(true)
        }
        4 => {
            lending.priors = at.priors();
            Some(true)
        }
        10 => p.tidy(at),
        11 => p.add_paths(at),
        kind => reading(kind, p, lending, at),
    }
}

// A list of calls.
fn same_case(last: u32, case: &mut Place, buffers: &mut Buffers) -> Option<bool> {
    let lent = Buffers {
        book: &mut *buffers.book,
        queue: &mut *buffers.queue,
    };
    let mut p = Play::new(case, lent);
    let mut lending = Lending {
        tables: case.first(),
        priors: case.first().priors(),
    };
    for _ in 0..case.word() {
        if !call(last, &mut p, &mut lending, case)? {
            return Some(false);
        }
    }
    Some(p.same_end(case))
}

// With these letters a file has kinds up to `last`.
pub fn replay(tape: &[u8], letters: &[u8; 4], last: u32, buffers: &mut Buffers) -> Tally {
    tallies::replay(tape, letters, |case| same_case(last, case, buffers))
}
