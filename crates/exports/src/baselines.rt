// Training a baseline, and its means and variances at a length.
ghost use Rattle.std.specs.Prelude.{◌≡◌};
ghost use Rattle.baseline.specs.Training.{input_of, train_asked};
ghost use Rattle.baseline.specs.Stats.{baseline_reading};
ghost use Rattle.exports.specs.Codes.{code, written, scale_named, point_named};
ghost use Rattle.exports.specs.Outputs.{itself, ten_figures};

use crate::answers::{tell_baseline, tell_trained};
use baseline::baselines::Baseline;
use baseline::training::{Sequences, train};
use priors::lookups::LentPriors;
use priors::tables::LentTables;

// Numbers 1 to 7, 22, 9, 16 and 13, then 10, 12, 14 and 15 as the work meets them.
#[unsafe(no_mangle)]
pub extern "C" fn teakpool_train(
    g: &[f64],
    d: &[f64],
    nodes: &[u8],
    children: &[u8],
    floor: i32,
    sequences: &[u8],
    s: u32,
    n: u32,
    rate: u32,
    book: &mut [u8],
    knots: &mut [u32],
    values: &mut [f64],
    count: &mut u32,
    node_scale: &mut i32,
    node_point: &mut u32,
) -> u32
    ensures value { result ≡ code (train_asked (input_of g.now d.now nodes.now children.now floor sequences.now s n rate) book.old knots.old values.old).answer }
    ensures book_after { book.new ≡ (train_asked (input_of g.now d.now nodes.now children.now floor sequences.now s n rate) book.old knots.old values.old).book }
    ensures knots_after { knots.new ≡ (train_asked (input_of g.now d.now nodes.now children.now floor sequences.now s n rate) book.old knots.old values.old).knots }
    ensures values_after { values.new ≡ (train_asked (input_of g.now d.now nodes.now children.now floor sequences.now s n rate) book.old knots.old values.old).values }
    ensures count_after { count.new ≡ written itself (train_asked (input_of g.now d.now nodes.now children.now floor sequences.now s n rate) book.old knots.old values.old).answer count.old }
    ensures node_scale_after { node_scale.new ≡ scale_named (train_asked (input_of g.now d.now nodes.now children.now floor sequences.now s n rate) book.old knots.old values.old).answer node_scale.old }
    ensures node_point_after { node_point.new ≡ point_named (train_asked (input_of g.now d.now nodes.now children.now floor sequences.now s n rate) book.old knots.old values.old).answer node_point.old }
{
    let tables = LentTables { g, d };
    let priors = LentPriors {
        nodes,
        children,
        floor,
    };
    let sequences = Sequences {
        places: sequences,
        count: s,
        paths: n,
        rate,
    };
    let answer = train(&tables, &priors, &sequences, book, knots, values);
    tell_trained(answer, count, node_scale, node_point)
}

// Numbers 17 and 18. The mean and the variance of maximum, minimum, number, sum and sum of squares, in this order.
#[unsafe(no_mangle)]
pub extern "C" fn teakpool_stats(
    knots: &[u32],
    values: &[f64],
    s: u32,
    length: u32,
    figures: &mut [f64; 10],
) -> u32
    ensures value { result ≡ code (baseline_reading knots.now values.now s length) }
    ensures figures_after { figures.new ≡ written ten_figures (baseline_reading knots.now values.now s length) figures.old }
{
    let baseline = Baseline {
        knots,
        values,
        sequences: s,
    };
    let answer = baseline.stats(length);
    tell_baseline(answer, figures)
}
