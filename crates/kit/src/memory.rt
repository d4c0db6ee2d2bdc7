// Lent bytes: their sum, and bringing and comparing them, recorded as bytes or as places of 516 bytes.
use crate::tape::{Place, first_of};
use entries::limits::PLACE_SIZE;

// The buffers that a book and a queue are lent from.
#[derive(Drop)]
pub struct Buffers<'a> {
    pub book: &'a mut [u8],
    pub queue: &'a mut [u8],
}

impl Buffers<'_> {
    // What a call answers that is lent the first bytes of each: so many, if there are.
    pub fn lend<A, F: FnOnce(&mut [u8], &mut [u8]) -> A>(
        &mut self,
        book_len: usize,
        queue_len: usize,
        call: F,
    ) -> Option<A>
        requires { F.IsAlwaysCallable call }
    {
        let book = self.book.get_mut(..book_len)?;
        let queue = self.queue.get_mut(..queue_len)?;
        Some(call(book, queue))
    }
}

// The sum of data/README.md.
pub fn sum_of(s: &[u8]) -> u32 {
    s.iter().fold(0u32, |sum, &byte| {
        sum.wrapping_mul(31).wrapping_add(u32::from(byte) + 1)
    })
}

// A place as it is recorded: the bytes of so many words, and those of the word that fills the rest. A word that the file is cut off
// before is 0, here too.
#[derive(Clone, Copy)]
struct Part<'a> {
    bytes: &'a [u8],
    words: usize,
    filling: [u8; 4],
}

impl<'a> Part<'a> {
    fn read(at: &mut Place<'a>) -> Part<'a> {
        let filling = at.word().to_le_bytes();
        let words = at.count();
        let bytes = at.take(4 * words);
        Part {
            bytes: first_of(bytes, bytes.len() / 4 * 4),
            words,
            filling,
        }
    }

    // The byte numbered i from 0.
    fn byte(self, i: usize) -> u8 {
        let other = if i / 4 < self.words {
            0
        } else {
            self.filling[i % 4]
        };
        self.bytes.get(i).copied().unwrap_or(other)
    }

    // The bytes of a place, or of the front of one.
    fn is_same(self, place: &[u8]) -> bool {
        place
            .iter()
            .enumerate()
            .all(|(i, &byte)| byte == self.byte(i))
    }

    fn put(self, place: &mut [u8]) {
        for (i, byte) in place.iter_mut().enumerate() {
            *byte = self.byte(i);
        }
    }
}

// These places come next.
pub fn same_places(at: &mut Place, s: &[u8]) -> bool {
    at.count() == s.len()
        && s.chunks(PLACE_SIZE)
            .all(|place| Part::read(at).is_same(place))
}

// Brings the places that come next to the start of a buffer, as many bytes as it has room for, and gives that part.
pub fn bring_places<'b>(at: &mut Place, buffer: &'b mut [u8]) -> &'b mut [u8] {
    let n = at.count();
    let most = n.min(buffer.len());
    let s = &mut buffer[..most];
    for place in s.chunks_mut(PLACE_SIZE) {
        Part::read(at).put(place);
    }
    for _ in most.div_ceil(PLACE_SIZE)..n.div_ceil(PLACE_SIZE) {
        Part::read(at);
    }
    s
}

// The same of bytes. Those that the file is cut off before stay as the buffer has them.
pub fn bring_most_bytes<'b>(at: &mut Place, buffer: &'b mut [u8]) -> &'b mut [u8] {
    let n = at.next_count();
    let bytes = at.bytes();
    let most = n.min(buffer.len());
    let s = &mut buffer[..most];
    for (byte, &from) in s.iter_mut().zip(bytes) {
        *byte = from;
    }
    s
}

// The same, if the buffer has room for all.
pub fn bring_bytes<'b>(at: &mut Place, buffer: &'b mut [u8]) -> Option<&'b mut [u8]> {
    if buffer.len() < at.next_count() {
        return None;
    }
    Some(bring_most_bytes(at, buffer))
}
