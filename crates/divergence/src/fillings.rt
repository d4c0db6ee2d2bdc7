// The passes of `all_node_kl` over the listed nodes: how many have a prior, whether any is refused, and the filling of the output.
// The output is touched in the last pass alone, so that a refused reading leaves it as it was.
ghost use Rattle.std.specs.Prelude.{◌≡◌, true, ℕ, ◌*◌, ◌≤◌, List, length, Float};
ghost use Rattle.priors.specs.Priors.{points_differ};
ghost use Rattle.divergence.specs.Listing.{nodes_left};
ghost use Rattle.divergence.specs.Statistics.{walk, walk_by};
ghost use Rattle.divergence.specs.Readings.{filled_addresses, filled_figures, with_prior, ranks_of, values_of};
ghost use Rattle.divergence.specs.Fillings.{stop_of, places_of, skipped_of};

use crate::answers::{AllNodeKl, Output};
use crate::divergences::Measure;
use crate::nodes::Nodes;
use priors::lookups::Priors;
use priors::places;
use priors::refusals::Refusal;

// How many nodes have a record in the priors. No Priors: it asks only that no two points meet.
pub fn with_prior(nodes: Nodes, records: &places::Nodes, layer: u32) -> usize
    requires { points_differ records.now.bytes.now layer ≡ true }
    ensures by_index { (children : List ℕ) → result ≡ with_prior records.now.bytes.now children layer (nodes_left nodes.entry) }
    ensures upper_bound { result ≤ nodes.entry.entries.used }
{
    let mut n = 0;
    for node in nodes {
        if records.find(layer, node.rank()).is_some() {
            n += 1;
        }
    }
    n
}

// The first node that is refused, by tables of this size; no figure is worked out.
// No `map_err`: tried, and the proof learns nothing of what the closure returns.
pub fn first_stop(nodes: Nodes, priors: &Priors, size: usize) -> Result<(), Refusal>
    ensures { (G D : List Float) → length G ≡ size → result ≡ stop_of (walk G D priors.now.nodes.now priors.now.children.now priors.now.layer (nodes_left nodes.entry)) }
{
    for node in nodes {
        if let Some(prior) = priors.prior(node.rank()) {
            if let Err(reason) = node.fit(&prior, size) {
                return Err(node.refusal(reason));
            }
        }
    }
    Ok(())
}

// Fills the output with the nodes that have a prior, ascending, and counts those that have none. No node is refused. The number filled is
// the next place.
pub fn fill_all(nodes: Nodes, by: &Measure, output: &mut Output) -> AllNodeKl
    requires unstopped { stop_of (walk_by by.now (nodes_left nodes)) ≡ Ok tt }
    requires addresses_room { 8 * length (places_of (walk_by by.now (nodes_left nodes))) ≤ length output.old.addresses.now }
    requires figures_room { length (places_of (walk_by by.now (nodes_left nodes))) ≤ length output.old.figures.now }
    ensures same_addresses { output.new.addresses.ghost_name ≡ output.old.addresses.ghost_name }
    ensures same_figures { output.new.figures.ghost_name ≡ output.old.figures.ghost_name }
    ensures places { result.places ≡ length (places_of (walk_by by.now (nodes_left nodes.entry))) }
    ensures skipped { result.skipped ≡ skipped_of (walk_by by.now (nodes_left nodes.entry)) }
    ensures addresses_after { output.new.addresses.now ≡ filled_addresses (ranks_of (places_of (walk_by by.now (nodes_left nodes.entry)))) output.old.addresses.now }
    ensures figures_after { output.new.figures.now ≡ filled_figures (values_of (places_of (walk_by by.now (nodes_left nodes.entry)))) output.old.figures.now }
{
    let mut filled = AllNodeKl {
        places: 0,
        skipped: 0,
    };
    for node in nodes {
        match node.divergence(by) {
            Ok(Some(x)) => {
                output.put(filled.places as usize, node.rank(), x);
                filled.places += 1;
            }
            Ok(None) => filled.skipped += 1,
            Err(_) => unreachable!(),
        }
    }
    filled
}
