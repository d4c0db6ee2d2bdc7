// Openings and adds at the ends of their rules: each is one step inside a limit or one step past it, and the number it gets is the
// one of 01's table, with 0 for none: numbers, since they are what a call of the C interface gives.
use crate::memory::Buffers;
use crate::tallies::Tally;
use crate::tape::first_of;
use book::trackers::Tracker;
use priors::refusals::number;

// An opening with this window, and with a book and a queue of so many bytes, gets this number.
fn open_gets(
    buffers: &mut Buffers,
    window: u32,
    book_len: usize,
    queue_len: usize,
    wanted: u32,
) -> bool {
    let got = buffers.lend(book_len, queue_len, |book, queue| {
        number(Tracker::open(window, book, queue))
    });
    got == Some(wanted)
}

// Windows of 1,024 and 1,025, books of 0, 1, 16,384 and 16,385 entries and of a byte more than one, queues of as many places as the
// window and of a byte less; 8 comes before 9.
pub fn openings(buffers: &mut Buffers) -> Tally {
    Tally::new().with_all(&[
        open_gets(buffers, 1024, 393216, 528384, 0),
        open_gets(buffers, 1025, 393216, 528384, 8),
        open_gets(buffers, 1025, 0, 0, 8),
        open_gets(buffers, 1024, 393240, 528384, 9),
        open_gets(buffers, 1024, 393216, 528383, 9),
        open_gets(buffers, 0, 24, 0, 0),
        open_gets(buffers, 0, 0, 0, 9),
        open_gets(buffers, 0, 25, 0, 9),
        open_gets(buffers, 1, 24, 516, 0),
        open_gets(buffers, 1, 24, 515, 9),
    ])
}

// A path of so many bytes, all zero, gets this number as the first: it lists one node and, from two steps on, one transition.
fn path_gets(n: usize, wanted: u32) -> bool {
    let path = [0u8; 520];
    let mut book = [0u8; 48];
    let mut queue = [0u8; 516];
    let added = Tracker::open(1, &mut book, &mut queue).and_then(|t| t.add_path(
        &mut book,
        &mut queue,
        first_of(&path, n),
    ));
    number(added) == wanted
}

// Paths of 0, 1, 64 and 65 steps, and of parts of a step.
pub fn paths() -> Tally {
    Tally::new().with_all(&[
        path_gets(0, 10),
        path_gets(7, 10),
        path_gets(8, 0),
        path_gets(9, 10),
        path_gets(512, 0),
        path_gets(513, 10),
        path_gets(520, 10),
    ])
}
