// What each reading answers where it is not refused, and the lent output that two of them fill.
ghost use Rattle.std.specs.Prelude.{◌≡◌, ◌+◌, ◌*◌, ◌<◌, ◌≤◌, length, slice_set};
ghost use Rattle.priors.specs.Word.{store};
ghost use Rattle.priors.specs.Address.{address_bytes};
ghost use Rattle.divergence.specs.Readings.{room};

use priors::addresses::write_rank;

// The number of places filled, and the ending's figure.
#[derive(Clone, Copy, Debug, PartialEq)]
pub struct ProbVector {
    pub places: u32,
    pub ending: f64,
}

// The number of places filled, and of the nodes skipped for want of a prior.
#[derive(Clone, Copy, Debug, PartialEq, Eq)]
pub struct AllNodeKl {
    pub places: u32,
    pub skipped: u32,
}

// Where places are filled: an address of 8 bytes and a figure each. The C interface lends them as two slices.
#[derive(Drop)]
pub struct Output<'a> {
    pub addresses: &'a mut [u8],
    pub figures: &'a mut [f64],
}

impl Output<'_> {
    // How many places there are: the slice with fewer whole ones decides.
    pub fn room(&self) -> usize
        ensures { result ≡ room self.now.addresses.now self.now.figures.now }
    {
        (self.addresses.len() / 8).min(self.figures.len())
    }

    // Fills one place. `same_addresses` and `same_figures` say that the lent slices are the same ones: a struct of `&mut` alone doesn't.
    pub fn put(&mut self, place: usize, rank: u64, figure: f64)
        requires addresses_room { 8 * place + 8 ≤ length self.old.addresses.now }
        requires figures_room { place < length self.old.figures.now }
        ensures same_addresses { self.new.addresses.ghost_name ≡ self.old.addresses.ghost_name }
        ensures same_figures { self.new.figures.ghost_name ≡ self.old.figures.ghost_name }
        ensures addresses { self.new.addresses.now ≡ store self.old.addresses.now (8 * place) (address_bytes rank) }
        ensures figures { self.new.figures.now ≡ slice_set self.old.figures.now place figure }
    {
        write_rank(self.addresses, 8 * place, rank);
        self.figures[place] = figure;
    }
}
