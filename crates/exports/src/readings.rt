// The readings of a tracker. They change nothing but the lent outputs, and where they are refused or give none not those either, but
// for the node that 14 and 15 name. Each puts together what the C interface lends apart.
ghost use Rattle.std.specs.Prelude.{◌≡◌};
ghost use Rattle.priors.specs.Address.{rank_of};
ghost use Rattle.priors.specs.Tables.{lent_tables};
ghost use Rattle.priors.specs.Priors.{lent_priors};
ghost use Rattle.divergence.specs.Asked.{lent_output, prob_asked, evidence_asked, kl_asked, all_asked, stats_asked};
ghost use Rattle.exports.specs.Codes.{code, written, scale_named, point_named};
ghost use Rattle.exports.specs.Outputs.{seen_in, places_of, ending_of, itself, all_counts, four_figures, three_counts};

use crate::answers::{tell_all, tell_kl, tell_stats, tell_vector, tracker_of};
use book::trackers::Seen;
use divergence::answers::Output;
use divergence::kl_readings::{all_node_kl, kl_div_stats, posterior_kl_divergence};
use divergence::vectors::{evidence_prob_vector, prob_vector};
use priors::addresses::Address;
use priors::lookups::LentPriors;
use priors::tables::LentTables;

// Numbers 3 to 7, 22, 9 and 13; none where the node has no prior.
#[unsafe(no_mangle)]
pub extern "C" fn teakpool_prob_vector(
    state: &[u32; 3],
    book: &[u8],
    queue: &[u8],
    nodes: &[u8],
    children: &[u8],
    floor: i32,
    scale: i32,
    point: u32,
    addresses: &mut [u8],
    figures: &mut [f64],
    places: &mut u32,
    ending: &mut f64,
) -> u32
    ensures value { result ≡ code (prob_asked (seen_in state.now book.now queue.now) (lent_priors nodes.now children.now floor) (rank_of scale point) (lent_output addresses.old figures.old)).answer }
    ensures addresses_after { addresses.new ≡ (prob_asked (seen_in state.now book.now queue.now) (lent_priors nodes.now children.now floor) (rank_of scale point) (lent_output addresses.old figures.old)).output.addresses }
    ensures figures_after { figures.new ≡ (prob_asked (seen_in state.now book.now queue.now) (lent_priors nodes.now children.now floor) (rank_of scale point) (lent_output addresses.old figures.old)).output.figures }
    ensures places_after { places.new ≡ written places_of (prob_asked (seen_in state.now book.now queue.now) (lent_priors nodes.now children.now floor) (rank_of scale point) (lent_output addresses.old figures.old)).answer places.old }
    ensures ending_after { ending.new ≡ written ending_of (prob_asked (seen_in state.now book.now queue.now) (lent_priors nodes.now children.now floor) (rank_of scale point) (lent_output addresses.old figures.old)).answer ending.old }
{
    let seen = Seen {
        tracker: tracker_of(state),
        book,
        queue,
    };
    let priors = LentPriors {
        nodes,
        children,
        floor,
    };
    let mut output = Output { addresses, figures };
    let answer = prob_vector(&seen, &priors, Address { scale, point }, &mut output);
    tell_vector(answer, places, ending)
}

// Numbers 9 and 13; none where the node is unlisted or its total is 0.
#[unsafe(no_mangle)]
pub extern "C" fn teakpool_evidence_prob_vector(
    state: &[u32; 3],
    book: &[u8],
    queue: &[u8],
    scale: i32,
    point: u32,
    addresses: &mut [u8],
    figures: &mut [f64],
    places: &mut u32,
    ending: &mut f64,
) -> u32
    ensures value { result ≡ code (evidence_asked (seen_in state.now book.now queue.now) (rank_of scale point) (lent_output addresses.old figures.old)).answer }
    ensures addresses_after { addresses.new ≡ (evidence_asked (seen_in state.now book.now queue.now) (rank_of scale point) (lent_output addresses.old figures.old)).output.addresses }
    ensures figures_after { figures.new ≡ (evidence_asked (seen_in state.now book.now queue.now) (rank_of scale point) (lent_output addresses.old figures.old)).output.figures }
    ensures places_after { places.new ≡ written places_of (evidence_asked (seen_in state.now book.now queue.now) (rank_of scale point) (lent_output addresses.old figures.old)).answer places.old }
    ensures ending_after { ending.new ≡ written ending_of (evidence_asked (seen_in state.now book.now queue.now) (rank_of scale point) (lent_output addresses.old figures.old)).answer ending.old }
{
    let seen = Seen {
        tracker: tracker_of(state),
        book,
        queue,
    };
    let mut output = Output { addresses, figures };
    let answer = evidence_prob_vector(&seen, Address { scale, point }, &mut output);
    tell_vector(answer, places, ending)
}

// Numbers 1 to 7, 22, 9, 14 and 15, these two of the node asked for; none where it is unlisted or has no prior.
#[unsafe(no_mangle)]
pub extern "C" fn teakpool_posterior_kl_divergence(
    state: &[u32; 3],
    book: &[u8],
    queue: &[u8],
    nodes: &[u8],
    children: &[u8],
    floor: i32,
    g: &[f64],
    d: &[f64],
    scale: i32,
    point: u32,
    value: &mut f64,
) -> u32
    ensures value { result ≡ code (kl_asked (seen_in state.now book.now queue.now) (lent_tables g.now d.now) (lent_priors nodes.now children.now floor) (rank_of scale point)) }
    ensures value_after { value.new ≡ written itself (kl_asked (seen_in state.now book.now queue.now) (lent_tables g.now d.now) (lent_priors nodes.now children.now floor) (rank_of scale point)) value.old }
{
    let seen = Seen {
        tracker: tracker_of(state),
        book,
        queue,
    };
    let priors = LentPriors {
        nodes,
        children,
        floor,
    };
    let tables = LentTables { g, d };
    let answer = posterior_kl_divergence(&seen, &tables, &priors, Address { scale, point });
    tell_kl(answer, value)
}

// Numbers 1 to 7, 22, 9, 13, 14 and 15.
#[unsafe(no_mangle)]
pub extern "C" fn teakpool_all_node_kl(
    state: &[u32; 3],
    book: &[u8],
    queue: &[u8],
    nodes: &[u8],
    children: &[u8],
    floor: i32,
    g: &[f64],
    d: &[f64],
    addresses: &mut [u8],
    figures: &mut [f64],
    counts: &mut [u32; 2],
    node_scale: &mut i32,
    node_point: &mut u32,
) -> u32
    ensures value { result ≡ code (all_asked (seen_in state.now book.now queue.now) (lent_tables g.now d.now) (lent_priors nodes.now children.now floor) (lent_output addresses.old figures.old)).answer }
    ensures addresses_after { addresses.new ≡ (all_asked (seen_in state.now book.now queue.now) (lent_tables g.now d.now) (lent_priors nodes.now children.now floor) (lent_output addresses.old figures.old)).output.addresses }
    ensures figures_after { figures.new ≡ (all_asked (seen_in state.now book.now queue.now) (lent_tables g.now d.now) (lent_priors nodes.now children.now floor) (lent_output addresses.old figures.old)).output.figures }
    ensures counts_after { counts.new ≡ written all_counts (all_asked (seen_in state.now book.now queue.now) (lent_tables g.now d.now) (lent_priors nodes.now children.now floor) (lent_output addresses.old figures.old)).answer counts.old }
    ensures node_scale_after { node_scale.new ≡ scale_named (all_asked (seen_in state.now book.now queue.now) (lent_tables g.now d.now) (lent_priors nodes.now children.now floor) (lent_output addresses.old figures.old)).answer node_scale.old }
    ensures node_point_after { node_point.new ≡ point_named (all_asked (seen_in state.now book.now queue.now) (lent_tables g.now d.now) (lent_priors nodes.now children.now floor) (lent_output addresses.old figures.old)).answer node_point.old }
{
    let seen = Seen {
        tracker: tracker_of(state),
        book,
        queue,
    };
    let priors = LentPriors {
        nodes,
        children,
        floor,
    };
    let tables = LentTables { g, d };
    let mut output = Output { addresses, figures };
    let answer = all_node_kl(&seen, &tables, &priors, &mut output);
    tell_all(answer, counts, node_scale, node_point)
}

// Numbers 1 to 7, 22, 9, 14 and 15.
#[unsafe(no_mangle)]
pub extern "C" fn teakpool_kl_div_stats(
    state: &[u32; 3],
    book: &[u8],
    queue: &[u8],
    nodes: &[u8],
    children: &[u8],
    floor: i32,
    g: &[f64],
    d: &[f64],
    figures: &mut [f64; 4],
    counts: &mut [u64; 3],
    node_scale: &mut i32,
    node_point: &mut u32,
) -> u32
    ensures value { result ≡ code (stats_asked (seen_in state.now book.now queue.now) (lent_tables g.now d.now) (lent_priors nodes.now children.now floor)) }
    ensures figures_after { figures.new ≡ written four_figures (stats_asked (seen_in state.now book.now queue.now) (lent_tables g.now d.now) (lent_priors nodes.now children.now floor)) figures.old }
    ensures counts_after { counts.new ≡ written three_counts (stats_asked (seen_in state.now book.now queue.now) (lent_tables g.now d.now) (lent_priors nodes.now children.now floor)) counts.old }
    ensures node_scale_after { node_scale.new ≡ scale_named (stats_asked (seen_in state.now book.now queue.now) (lent_tables g.now d.now) (lent_priors nodes.now children.now floor)) node_scale.old }
    ensures node_point_after { node_point.new ≡ point_named (stats_asked (seen_in state.now book.now queue.now) (lent_tables g.now d.now) (lent_priors nodes.now children.now floor)) node_point.old }
{
    let seen = Seen {
        tracker: tracker_of(state),
        book,
        queue,
    };
    let priors = LentPriors {
        nodes,
        children,
        floor,
    };
    let tables = LentTables { g, d };
    let answer = kl_div_stats(&seen, &tables, &priors);
    tell_stats(answer, figures, counts, node_scale, node_point)
}
