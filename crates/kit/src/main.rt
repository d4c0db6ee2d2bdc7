// Replays the recorded sample in data/ and runs the boundary inputs on the compiled code. Each line printed is a count of cases and
// of those that came out otherwise than recorded.
#![tactic(auto)]

ghost use Rattle.std.specs.Prelude.{◌^◌, ◌<◌};

mod tape; // a recorded file as words
mod tallies; // cases tried and cases that differ
mod figures; // runs of numbers and of figures
mod memory; // lent bytes, brought in and compared
mod refusals; // an answer or a refusal as it is recorded
mod priors_cases; // priors.bin
mod priors_bounds; // priors and tables at the ends of their rules
mod calls_cases; // openings, adds, lists of paths and tidies
mod outputs; // an output that a reading is lent
mod vector_calls; // readings of probabilities
mod kl_calls; // readings of divergences
mod readings_cases; // lists of all these: calls.bin, large.bin, readings.bin, tidies.bin and batches.bin
mod altered_cases; // altered.bin
mod stats_cases; // training.bin: figures asked of baselines
mod train_cases; // training.bin: trainings
mod training_cases; // training.bin
mod book_bounds; // openings and adds at the ends of their rules

use crate::memory::Buffers;
use crate::tallies::Tally;
use crate::tape::first_of;
use std::io::Read;
use std::rt::Files;
use std::{fs, io};

// Reads until the buffer is full, the file ends or a read fails. A read gives as many bytes as it likes, so that no range or slice method
// stands for the loop. What came before a read that fails is replayed, so its error ends the file and is no result.
fn read_full(file: &mut impl Read, buffer: &mut [u8]) -> usize {
    let mut n = 0;
    while n < buffer.len() {
        match file.read(&mut buffer[n..]) {
            Ok(0) | Err(_) => return n,
            Ok(k) => n += k,
        }
    }
    n
}

// Reads a file whole into a buffer; what is read is its first bytes.
fn read_file(rt: &impl Files, name: &str, buffer: &mut [u8]) -> io::Result<usize> {
    let mut file = fs::open(rt, name)?;
    Ok(read_full(&mut file, buffer))
}

// Replays a file of at most N bytes; one that cannot be opened has none.
fn recorded<const N: usize, F: FnOnce(&[u8]) -> Tally>(
    rt: &(impl Files + Print),
    name: &str,
    file: &str,
    replay: F,
) -> io::Result<()>
    requires fits { N < 2 ^ 63 }
    requires callable { F.IsAlwaysCallable replay }
{
    let mut tape = [0u8; N];
    let n = read_file(rt, file, &mut tape).unwrap_or(0);
    let tally = replay(first_of(&tape, n));
    println!(rt; "{name}: {tally}")
}

// So many bytes of zero. An array this long, written out, is more than the check computes with.
fn zeros<const N: usize>() -> [u8; N] {
    [0u8; N]
}

// The buffers of large.bin and of the openings at their bounds are made by functions of their own, which stay apart, as the records of
// priors_bounds do: so they lie on the stack while these run and no longer.
#[inline(never)]
fn large_calls(rt: &HostRuntime) -> io::Result<()> {
    let mut book = [0u8; 393240];
    let mut queue = zeros::<528384>();
    let mut large = Buffers {
        book: &mut book,
        queue: &mut queue,
    };
    recorded::<16384, _>(rt, "large calls", "large.bin", |tape| {
        readings_cases::replay(tape, b"TPL1", 2, &mut large)
    })
}

#[inline(never)]
fn openings() -> Tally {
    let mut book = [0u8; 393240];
    let mut queue = zeros::<528384>();
    let mut large = Buffers {
        book: &mut book,
        queue: &mut queue,
    };
    book_bounds::openings(&mut large)
}

fn main(rt: HostRuntime) -> io::Result<()> {
    let mut book = [0u8; 1536];
    let mut queue = [0u8; 4644];
    let mut small = Buffers {
        book: &mut book,
        queue: &mut queue,
    };
    println!(&rt; "figures: {}", figures::compared())?;
    recorded::<32768, _>(&rt, "priors", "priors.bin", priors_cases::replay)?;
    println!(&rt; "priors at their bounds: {}", priors_bounds::run())?;
    recorded::<65536, _>(&rt, "calls", "calls.bin", |tape| {
        readings_cases::replay(tape, b"TPC1", 2, &mut small)
    })?;
    large_calls(&rt)?;
    recorded::<65536, _>(&rt, "altered memory", "altered.bin", |tape| {
        altered_cases::replay(tape, &mut small)
    })?;
    recorded::<131072, _>(&rt, "readings", "readings.bin", |tape| {
        readings_cases::replay(tape, b"TPR1", 11, &mut small)
    })?;
    recorded::<65536, _>(&rt, "tidies", "tidies.bin", |tape| {
        readings_cases::replay(tape, b"TPY1", 11, &mut small)
    })?;
    recorded::<65536, _>(&rt, "batches", "batches.bin", |tape| {
        readings_cases::replay(tape, b"TPB1", 11, &mut small)
    })?;
    recorded::<81920, _>(&rt, "training", "training.bin", training_cases::replay)?;
    println!(&rt; "openings at their bounds: {}", openings())?;
    println!(&rt; "paths at their bounds: {}", book_bounds::paths())
}
