// Each answer of the watch as a code, with its parts in lent numbers. An answer writes them all; none and a refusal write nothing,
// but 14 and 15 write their node, a list of paths its state and the number taken, and a child that is not there the number of records
// read.
ghost use Rattle.std.specs.Prelude.{◌≡◌, MatchOption, MatchResult};
ghost use Rattle.priors.specs.Refusals.{checked_number, named_node};
ghost use Rattle.priors.specs.Children.{count_told};
ghost use Rattle.priors.specs.Lookups.{child_answer};
ghost use Rattle.book.specs.Batches.{batched_number, batched_taken};
ghost use Rattle.divergence.specs.Answers.{vector_answer, kl_answer, all_answer, stats_answer};
ghost use Rattle.baseline.specs.Training.{train_answer};
ghost use Rattle.baseline.specs.Stats.{baseline_answer};
ghost use Rattle.exports.specs.Codes.{code, written, scale_or, point_or, scale_named, point_named};
ghost use Rattle.exports.specs.Outputs.{tracker_of, numbers_of, opened_numbers, read_of, places_of, ending_of, itself, all_counts, four_figures, three_counts, ten_figures};

use baseline::figures::KLDivergenceBaselineStats;
use book::trackers::{Stopped, Taken, Tracker};
use divergence::answers::{AllNodeKl, ProbVector};
use divergence::statistics::Tally;
use priors::prior::ChildLookup;
use priors::refusals::{Reason, Refusal};

// There is no answer, as with a node that has no prior.
pub const NONE: u32 = 100;

// The tracker with these numbers, as the C interface lends them: window, entries used, paths accepted.
pub fn tracker_of(state: &[u32; 3]) -> Tracker
    ensures { result ≡ tracker_of state.now }
{
    let [window, used, accepted] = *state;
    Tracker {
        window,
        used,
        accepted,
    }
}

// Its numbers.
fn numbers_of(t: Tracker) -> [u32; 3]
    ensures { result ≡ numbers_of t }
{
    [t.window, t.used, t.accepted]
}

// An answer that is there is written, and its code is 0; that of none is 100, and that of a refusal its number.
fn tell<T, E: Copy, F: FnMut(T)>(answer: Result<Option<T>, E>, write: &mut F) -> u32
where
    u32: From<E>,
    requires { F.IsAlwaysCallable write.old }
    ensures value { MatchResult answer (λ told. MatchOption told (result ≡ NONE) (λ x. result ≡ 0)) (λ e. ⟦<u32 as From<E>>⟧.from_gives e result) }
    ensures parts { MatchResult answer (λ told. MatchOption told (write.new ≡ write.old) (λ x. F.step write.old x tt write.new)) (λ e. write.new ≡ write.old) }
{
    match answer {
        Ok(Some(x)) => {
            write(x);
            0
        }
        Ok(None) => NONE,
        Err(e) => u32::from(e),
    }
}

// The node that 14 and 15 name, in two numbers, since the C interface lends two.
pub fn name_node<T: Copy>(answer: Result<T, Refusal>, scale: &mut i32, point: &mut u32)
    ensures scale_after { MatchResult answer (λ x. scale.new ≡ scale.old) (λ r. scale.new ≡ scale_or (named_node r) scale.old) }
    ensures point_after { MatchResult answer (λ x. point.new ≡ point.old) (λ r. point.new ≡ point_or (named_node r) point.old) }
{
    if let Err(Refusal::AtNode(_, node)) = answer {
        *scale = node.scale;
        *point = node.point;
    }
}

pub fn tell_child(answer: Result<ChildLookup, Reason>, count: &mut u32, read: &mut u32) -> u32
    ensures value { result ≡ code (count_told (child_answer answer)) }
    ensures count_after { count.new ≡ written itself (count_told (child_answer answer)) count.old }
    ensures read_after { read.new ≡ written read_of (child_answer answer) read.old }
{
    if let Ok(looked) = answer {
        *read = looked.read;
    }
    let mut write = |c: u32| *count = c;
    tell(answer.map(|looked| looked.count), &mut write)
}

// The state that an opening, an add or a tidy gives; refused, the one before it stands.
pub fn tell_state(answer: Result<Tracker, Reason>, state: &mut [u32; 3]) -> u32
    ensures value { result ≡ checked_number answer }
    ensures state_after { state.new ≡ opened_numbers answer state.old }
{
    let mut write = |t: Tracker| *state = numbers_of(t);
    tell(answer.map(Some), &mut write)
}

// The state and how many were taken are told in every case.
pub fn tell_batch(answer: Result<Taken, Stopped>, state: &mut [u32; 3], taken: &mut u32) -> u32
    ensures value { result ≡ batched_number answer }
    ensures state_after { state.new ≡ numbers_of (batched_taken answer).tracker }
    ensures taken_after { taken.new ≡ (batched_taken answer).paths }
{
    let (all, code) = match answer {
        Ok(all) => (all, 0),
        Err(stopped) => (stopped.taken, u32::from(stopped.reason)),
    };
    *state = numbers_of(all.tracker);
    *taken = all.paths;
    code
}

pub fn tell_vector(
    answer: Result<Option<ProbVector>, Reason>,
    places: &mut u32,
    ending: &mut f64,
) -> u32
    ensures value { result ≡ code (vector_answer answer) }
    ensures places_after { places.new ≡ written places_of (vector_answer answer) places.old }
    ensures ending_after { ending.new ≡ written ending_of (vector_answer answer) ending.old }
{
    let mut write = |v: ProbVector| {
        *places = v.places;
        *ending = v.ending;
    };
    tell(answer, &mut write)
}

pub fn tell_kl(answer: Result<Option<f64>, Refusal>, value: &mut f64) -> u32
    ensures value { result ≡ code (kl_answer answer) }
    ensures value_after { value.new ≡ written itself (kl_answer answer) value.old }
{
    let mut write = |x: f64| *value = x;
    tell(answer, &mut write)
}

pub fn tell_all(
    answer: Result<AllNodeKl, Refusal>,
    counts: &mut [u32; 2],
    node_scale: &mut i32,
    node_point: &mut u32,
) -> u32
    ensures value { result ≡ code (all_answer answer) }
    ensures counts_after { counts.new ≡ written all_counts (all_answer answer) counts.old }
    ensures node_scale_after { node_scale.new ≡ scale_named (all_answer answer) node_scale.old }
    ensures node_point_after { node_point.new ≡ point_named (all_answer answer) node_point.old }
{
    name_node(answer, node_scale, node_point);
    let mut write = |a: AllNodeKl| *counts = [a.places, a.skipped];
    tell(answer.map(Some), &mut write)
}

pub fn tell_stats(
    answer: Result<Tally, Refusal>,
    figures: &mut [f64; 4],
    counts: &mut [u64; 3],
    node_scale: &mut i32,
    node_point: &mut u32,
) -> u32
    ensures value { result ≡ code (stats_answer answer) }
    ensures figures_after { figures.new ≡ written four_figures (stats_answer answer) figures.old }
    ensures counts_after { counts.new ≡ written three_counts (stats_answer answer) counts.old }
    ensures node_scale_after { node_scale.new ≡ scale_named (stats_answer answer) node_scale.old }
    ensures node_point_after { node_point.new ≡ point_named (stats_answer answer) node_point.old }
{
    name_node(answer, node_scale, node_point);
    let mut write = |Tally { stats: s, skipped }: Tally| {
        *figures = [s.max, s.min, s.moment1_nz, s.moment2_nz];
        *counts = [s.nz_count, u64::from(s.sequence_len), u64::from(skipped)];
    };
    tell(answer.map(Some), &mut write)
}

pub fn tell_trained(
    answer: Result<u32, Refusal>,
    count: &mut u32,
    node_scale: &mut i32,
    node_point: &mut u32,
) -> u32
    ensures value { result ≡ code (train_answer answer) }
    ensures count_after { count.new ≡ written itself (train_answer answer) count.old }
    ensures node_scale_after { node_scale.new ≡ scale_named (train_answer answer) node_scale.old }
    ensures node_point_after { node_point.new ≡ point_named (train_answer answer) node_point.old }
{
    name_node(answer, node_scale, node_point);
    let mut write = |knots: u32| *count = knots;
    tell(answer.map(Some), &mut write)
}

// In the order of the header.
pub fn tell_baseline(
    answer: Result<KLDivergenceBaselineStats, Reason>,
    figures: &mut [f64; 10],
) -> u32
    ensures value { result ≡ code (baseline_answer answer) }
    ensures figures_after { figures.new ≡ written ten_figures (baseline_answer answer) figures.old }
{
    let mut write = |f: KLDivergenceBaselineStats| {
        *figures = [
            f.max.mean,
            f.max.variance,
            f.min.mean,
            f.min.variance,
            f.nz_count.mean,
            f.nz_count.variance,
            f.moment1_nz.mean,
            f.moment1_nz.variance,
            f.moment2_nz.mean,
            f.moment2_nz.variance,
        ];
    };
    tell(answer.map(Some), &mut write)
}
