// Training: sequences of paths run through a fresh window-0 tracker in the lent book, and the statistics at every rate-th path are
// summed into knots.
ghost use Rattle.std.specs.Prelude.{◌≡◌, true, ◌++◌, ℕ, ◌+◌, ◌*◌, ◌%◌, ◌/◌, ◌≤◌, ◌<◌, length, drop, IfOk};
ghost use Rattle.priors.specs.Refusals.{checked_number};
ghost use Rattle.priors.specs.Priors.{layer_of};
ghost use Rattle.priors.specs.Layer.{floor_of};
ghost use Rattle.entries.specs.Entries.{rows};
ghost use Rattle.book.specs.Form.{book_fits};
ghost use Rattle.book.specs.Batches.{path_in};
ghost use Rattle.baseline.specs.Limits.{max_paths, knot_values};
ghost use Rattle.baseline.specs.Training.{input_of, knot_count, input_fits, train_refusal, sequence_records, course, knot_lengths, train_asked, train_told};

use crate::baselines::{MAX_KNOTS, MAX_SEQUENCES};
use crate::sums::{KNOT_VALUES, add_at};
use book::form::{Listing, book_fits};
use book::paths::{Path, add_steps};
use book::places::path_in;
use book::room::has_room;
use divergence::divergences::Measure;
use divergence::nodes::Nodes;
use divergence::statistics::Tally;
use entries::entries::EntriesMut;
use entries::limits::{ENTRY_SIZE, PLACE_SIZE};
use priors::lookups::LentPriors;
use priors::refusals::{Reason, Refusal};
use priors::tables::LentTables;

const MAX_PATHS: u32 = 65536;

// What a training learns from: so many sequences of so many paths each, s and n of document 01, as places of a queue, one sequence
// after the other, and the rate at which paths are sampled.
#[derive(Clone, Copy)]
pub struct Sequences<'a> {
    pub places: &'a [u8],
    pub count: u32,
    pub paths: u32,
    pub rate: u32,
}

// A training whose tables, priors and sequences passed.
#[derive(Clone, Copy)]
struct Training<'a> {
    by: Measure<'a>,
    sequences: Sequences<'a>,
    ghost floored: { layer_of (floor_of by.priors.layer) ≡ by.priors.layer },
    ghost fits: { input_fits sequences.places.now sequences.count sequences.paths sequences.rate ≡ true },
}

impl Sequences<'_> {
    // How many i below the number of paths have i mod rate = 0.
    fn knot_count(&self) -> u32
        requires { 1 ≤ self.now.rate }
        ensures { result ≡ knot_count self.now.paths self.now.rate }
    {
        self.paths.div_ceil(self.rate)
    }

    // Number 16. The places are lent as bytes, 516 each, so these are counted.
    #[tactic(auto, unfolding(crate::specs::Training::input_fits))]
    fn fits(&self) -> bool
        ensures { result ≡ input_fits self.now.places.now self.now.count self.now.paths self.now.rate }
    {
        1 <= self.rate
            && 1 <= self.count
            && self.count <= MAX_SEQUENCES
            && self.paths <= MAX_PATHS
            && self.places.len() == PLACE_SIZE * (self.count as usize * self.paths as usize)
            && self.knot_count() as usize <= MAX_KNOTS
    }
}

// The lengths that the first knots stand for. By index: with a zip of `iter_mut` tried, the proof didn't close.
fn put_lengths(knots: &mut [u32], count: u32, rate: u32)
    requires count_in_bounds { count ≤ length knots.old }
    requires by_index { (k : ℕ) → k < count → k * rate < max_paths }
    ensures { knots.new ≡ knot_lengths count rate ++ drop count knots.old }
{
    for k in 0..count {
        knots[k as usize] = k * rate + 1;
    }
}

// Knots and values apart, since the C interface lends two. Tables and priors apart, as the readings take them.
impl<'a> Training<'a> {
    ghost use Rattle.baseline.specs.Courses.{input_in, Holds, Added};

    // All that is tested before the work: 1 to 7, 22, 9, 16 and 13, in this order.
    #[tactic(auto, using(crate::proofs::AnswerLaws::number_on, crate::proofs::InputLaws::rate_some, crate::proofs::InputLaws::tables_first, crate::proofs::InputLaws::priors_second, crate::proofs::InputLaws::form_third, crate::proofs::InputLaws::input_fourth, crate::proofs::InputLaws::room_last, crate::proofs::InputLaws::none_refused))]
    fn check(
        tables: &LentTables<'a>,
        priors: &LentPriors<'a>,
        sequences: &Sequences<'a>,
        book: &[u8],
        knots: &[u32],
        values: &[f64],
    ) -> Result<Training<'a>, Reason>
        ensures number { checked_number result ≡ train_refusal (input_of tables.now.g.now tables.now.d.now priors.now.nodes.now priors.now.children.now priors.now.floor sequences.now.places.now sequences.now.count sequences.now.paths sequences.now.rate) book.now knots.now values.now }
        ensures lent { IfOk result (λ t. input_in t ≡ input_of tables.now.g.now tables.now.d.now priors.now.nodes.now priors.now.children.now priors.now.floor sequences.now.places.now sequences.now.count sequences.now.paths sequences.now.rate) }
    {
        // For the proof: an i32, so that the number of scales below it is its layer; what the work goes by is that number.
        let _floor = priors.floor;
        let tables = tables.check()?;
        let priors = priors.check()?;
        if !book_fits(book) {
            return Err(Reason::Form);
        }
        if !sequences.fits() {
            return Err(Reason::TrainingInput);
        }
        if knots.len().min(values.len() / KNOT_VALUES) < sequences.knot_count() as usize {
            return Err(Reason::OutputShort);
        }
        Ok(Training {
            by: Measure { tables, priors },
            sequences: *sequences,
        })
    }

    // Adds the path numbered i of the sequence numbered q, or says why not: 10, then 12.
    #[tactic(auto, using(crate::proofs::InputLaws::place_lt, crate::proofs::InputLaws::few_places, crate::proofs::InputLaws::size_is))]
    fn add_next(&self, q: usize, i: usize, entries: &mut EntriesMut) -> Result<(), Reason>
        requires q_below { q < self.now.sequences.count }
        requires i_below { i < self.now.sequences.paths }
        requires holds { Holds self.now.sequences.places.now (q * self.now.sequences.paths) i entries.old.bytes.now entries.old.used }
        ensures len { length entries.new.bytes.now ≡ length entries.old.bytes.now }
        ensures added { Added self.now.sequences.places.now (q * self.now.sequences.paths) i entries.new.bytes.now entries.new.used result }
    {
        let place = q * self.sequences.paths as usize + i;
        let path = Path::check(path_in(self.sequences.places, place))?;
        let limit = entries.bytes.len() / ENTRY_SIZE;
        if !has_room(&entries.as_ref(), &path, limit) {
            return Err(Reason::BookFull);
        }
        add_steps(entries, &path);
        Ok(())
    }

    // The work that nothing turned back: it ends with the book all zero, and with the lengths of the knots put down, or stopped, with
    // knots and values all zero too.
    #[tactic(auto, using(crate::proofs::InputLaws::rate_some, crate::proofs::InputLaws::few_paths, crate::proofs::SampleLaws::length_lt, crate::proofs::WorkLaws::book_passed, crate::proofs::WorkLaws::knots_passed, crate::proofs::WorkLaws::values_passed, crate::proofs::FillLaws::taken_length))]
    fn work(&self, book: &mut [u8], knots: &mut [u32], values: &mut [f64]) -> Result<u32, Refusal>
        requires { train_refusal (input_in self.now) book.old knots.old values.old ≡ 0 }
        ensures { train_told result book.new knots.new values.new ≡ train_asked (input_in self.now) book.old knots.old values.old }
    {
        let count = self.sequences.knot_count();
        values[..KNOT_VALUES * count as usize].fill(0.0);
        let mut run = Run {
            training: &*self,
            values,
        };
        let ended = run.run_all(book);
        book.fill(0);
        match ended {
            Ok(()) => {
                put_lengths(knots, count, self.sequences.rate);
                Ok(count)
            }
            Err(refusal) => {
                knots.fill(0);
                values.fill(0.0);
                Err(refusal)
            }
        }
    }
}

// A training at work, and the values that its statistics go to.
#[derive(Drop)]
struct Run<'a> {
    training: &'a Training<'a>,
    values: &'a mut [f64],
    ghost room: { knot_values * knot_count training.now.sequences.paths training.now.sequences.rate ≤ length values.now },
}

impl Run<'_> {
    ghost use Rattle.baseline.specs.Courses.{lent_in, input_in, Holds, book_stats, sampled, entered, all_entered, ended, Went};

    // After the path numbered i, where i mod rate is 0: the statistics go to the knot numbered i / rate, or 14 or 15 stops the training.
    #[tactic(auto, using(crate::proofs::InputLaws::rate_some, crate::proofs::InputLaws::few_paths, crate::proofs::SampleLaws::knot_lt, crate::proofs::SampleLaws::values_lt))]
    fn sample(&mut self, i: usize, listing: &Listing) -> Result<(), Refusal>
        requires i_below { i < self.old.training.now.sequences.paths }
        ensures same_training { self.new.training ≡ self.old.training }
        ensures same_reference { self.new.values.ghost_name ≡ self.old.values.ghost_name }
        ensures value { ended result self.new.values.now ≡ sampled self.old.training.now.sequences.rate i (book_stats (lent_in self.old.training.now) (rows listing.now.bytes.now listing.now.used) (i + 1)) self.old.values.now }
    {
        let training = self.training;
        let rate = training.sequences.rate as usize;
        if i % rate != 0 {
            return Ok(());
        }
        let nodes = Nodes::of(listing.lent());
        let tally = Tally::of(nodes, &training.by, (i + 1) as u32)?;
        add_at(self.values, i / rate, &tally);
        Ok(())
    }

    // The path numbered i of the sequence numbered q is added, and its statistics are taken where it is sampled.
    fn one_path(&mut self, q: usize, i: usize, entries: &mut EntriesMut) -> Result<(), Refusal>
        requires q_below { q < self.old.training.now.sequences.count }
        requires i_below { i < self.old.training.now.sequences.paths }
        requires holds { Holds self.old.training.now.sequences.places.now (q * self.old.training.now.sequences.paths) i entries.old.bytes.now entries.old.used }
        ensures same_training { self.new.training ≡ self.old.training }
        ensures same_reference { self.new.values.ghost_name ≡ self.old.values.ghost_name }
        ensures len { length entries.new.bytes.now ≡ length entries.old.bytes.now }
        ensures went { Went (lent_in self.old.training.now) (q * self.old.training.now.sequences.paths) i entries.new.bytes.now entries.new.used self.old.values.now self.new.values.now result }
    {
        self.training.add_next(q, i, entries)?;
        let held = entries.as_ref();
        let listing = Listing {
            bytes: held.bytes,
            used: held.used,
        };
        self.sample(i, &listing)
    }

    // The sequence numbered q runs through a fresh tracker.
    #[tactic(auto, using(crate::proofs::HoldLaws::none_ascend))]
    fn run_sequence(&mut self, q: usize, book: &mut [u8]) -> Result<(), Refusal>
        requires q_below { q < self.old.training.now.sequences.count }
        requires book_sized { book_fits book.old ≡ true }
        ensures same_training { self.new.training ≡ self.old.training }
        ensures same_reference { self.new.values.ghost_name ≡ self.old.values.ghost_name }
        ensures value { ended result self.new.values.now ≡ entered 0 (sequence_records (input_in self.old.training.now) (length book.old) q) self.old.values.now }
    {
        let mut entries = EntriesMut {
            bytes: book,
            used: 0,
        };
        for i in 0..self.training.sequences.paths as usize {
            self.one_path(q, i, &mut entries)?;
        }
        Ok(())
    }

    // The sequences, one wholly after the other.
    #[tactic(auto, using(crate::proofs::HoldLaws::fits_same))]
    fn run_all(&mut self, book: &mut [u8]) -> Result<(), Refusal>
        requires { book_fits book.old ≡ true }
        ensures same_training { self.new.training ≡ self.old.training }
        ensures same_reference { self.new.values.ghost_name ≡ self.old.values.ghost_name }
        ensures value { ended result self.new.values.now ≡ all_entered (course (input_in self.old.training.now) book.old) self.old.values.now }
    {
        for q in 0..self.training.sequences.count as usize {
            self.run_sequence(q, book)?;
        }
        Ok(())
    }
}

// Trains a baseline on sequences of paths, sampled at every rate-th path, with a book lent for the work. Refused, nothing lent
// changes; stopped by 10, 12, 14 or 15, book, knots and values are all zero to their ends.
#[tactic(auto, using(crate::proofs::AnswerLaws::handed_on, crate::proofs::WorkLaws::refused_leaves))]
pub fn train(
    tables: &LentTables,
    priors: &LentPriors,
    sequences: &Sequences,
    book: &mut [u8],
    knots: &mut [u32],
    values: &mut [f64],
) -> Result<u32, Refusal>
    ensures { train_told result book.new knots.new values.new ≡ train_asked (input_of tables.now.g.now tables.now.d.now priors.now.nodes.now priors.now.children.now priors.now.floor sequences.now.places.now sequences.now.count sequences.now.paths sequences.now.rate) book.old knots.old values.old }
{
    let training = Training::check(tables, priors, sequences, book, knots, values)?;
    training.work(book, knots, values)
}
