// A field is 32 bits in four lent bytes, the lowest byte first. Reading and writing one touches these four bytes alone.
// A slice and a place: each field is read where the caller stands in its record.
ghost use Rattle.std.specs.Prelude.{◌≡◌, ◌+◌, ◌≤◌, length};
ghost use Rattle.priors.specs.Word.{word, word_bytes, store};

// The field of s that starts at `at`.
#[tactic(auto, unfolding(crate::specs::Word::word))]
pub fn read_u32(s: &[u8], at: usize) -> u32
    requires { at + 4 ≤ length s.now }
    ensures { result ≡ word s.now at }
{
    u32::from_le_bytes([s[at], s[at + 1], s[at + 2], s[at + 3]])
}

// Writes the field of s that starts at `at`.
#[tactic(auto, using(crate::proofs::Fields::store_sets))]
pub fn write_u32(s: &mut [u8], at: usize, v: u32)
    requires { at + 4 ≤ length s.old }
    ensures { s.new ≡ store s.old at (word_bytes v) }
{
    let [a, b, c, d] = v.to_le_bytes();
    s[at] = a;
    s[at + 1] = b;
    s[at + 2] = c;
    s[at + 3] = d;
}
