// Runs of numbers and of figures. A figure is an f64, recorded by its bits, low word first. Figures are compared as numbers, zeros told
// apart, NaN equal to NaN.
use crate::tallies::Tally;
use crate::tape::Place;
use std::num::{f64_from_bits_with_nan, f64_to_bits_with_nan};

// What a run is of: numbers, a word each, or figures, two words each.
pub trait Recorded: Copy {
    fn read(at: &mut Place) -> Self;

    fn same(self, other: Self) -> bool;
}

impl Recorded for u32 {
    fn read(at: &mut Place) -> u32 {
        at.word()
    }

    fn same(self, other: u32) -> bool {
        self == other
    }
}

impl Recorded for f64 {
    fn read(at: &mut Place) -> f64 {
        let low = at.word();
        figure(at.word(), low)
    }

    fn same(self, other: f64) -> bool {
        f64_to_bits_with_nan(self) == f64_to_bits_with_nan(other)
    }
}

// The figure of these bits.
fn figure(high: u32, low: u32) -> f64 {
    f64_from_bits_with_nan(u64::from(high) << 32 | u64::from(low))
}

// The comparison itself: the zeros are two figures, any NaN is any NaN, and minus zero is decoded as such.
pub fn compared() -> Tally {
    let nan = figure(0x7ff0_0001, 0);
    let minus_zero = [0u8, 0, 0, 0, 0, 0, 0, 128];
    Tally::new().with_all(&[
        !0.0f64.same(-0.0),
        !(-0.0f64).same(0.0),
        f64::read(&mut Place::start(&minus_zero)).same(-0.0),
        nan.same(-nan),
        !nan.same(0.0),
    ])
}

// This comes next.
pub fn is_next<T: Recorded>(at: &mut Place, x: T) -> bool {
    T::read(at).same(x)
}

// Brings the run that comes next to the start of a buffer and gives that part, if the buffer is long enough.
pub fn bring<'b, T: Recorded>(at: &mut Place, buffer: &'b mut [T]) -> Option<&'b mut [T]> {
    let run = buffer.get_mut(..at.count())?;
    for x in run.iter_mut() {
        *x = T::read(at);
    }
    Some(run)
}

// Brings the figures that come next to the start of a buffer, as many as it has room for, and gives that part.
pub fn bring_most<'b>(at: &mut Place, buffer: &'b mut [f64]) -> &'b mut [f64] {
    let n = at.count();
    let most = n.min(buffer.len());
    let run = &mut buffer[..most];
    for x in run.iter_mut() {
        *x = f64::read(at);
    }
    at.take(8 * (n - most));
    run
}

// This run comes next.
pub fn same_run<T: Recorded>(at: &mut Place, run: &[T]) -> bool {
    at.count() == run.len() && run.iter().all(|&x| is_next(at, x))
}
