// `prob_vector` and `evidence_prob_vector`: the probabilities of a node's children and of its ending, of prior and evidence or of
// the evidence alone. Children fill the lent output, an address of 8 bytes and a figure each; the slice with fewer whole places is
// what 13 tests.
ghost use Rattle.std.specs.Prelude.{◌≡◌, ◌+◌, ◌^◌, ◌<◌, ◌≤◌, length, IfSome};
ghost use Rattle.priors.specs.Address.{rank_of};
ghost use Rattle.priors.specs.Limits.{max_chain};
ghost use Rattle.priors.specs.Priors.{lent_priors, prior_of_node};
ghost use Rattle.entries.specs.Limits.{max_entries};
ghost use Rattle.divergence.specs.Probability.{posterior};
ghost use Rattle.divergence.specs.Listing.{evidence_in};
ghost use Rattle.divergence.specs.Merging.{children_left, counts_left};
ghost use Rattle.divergence.specs.Readings.{vector_reading};
ghost use Rattle.divergence.specs.Asked.{seen_of, lent_output, room_in, vector_told, vector_telling, prob_asked, evidence_asked};

use crate::answers::{Output, ProbVector};
use crate::evidence::Listed;
use crate::probabilities::{Merge, figure};
use book::trackers::Seen;
use priors::addresses::Address;
use priors::lookups::LentPriors;
use priors::prior::Prior;
use priors::refusals::Reason;

// The probabilities of the ending and of the children that a merge has: 13, or the output is filled.
fn vector(merge: Merge, ending: u64, output: &mut Output) -> Result<Option<ProbVector>, Reason>
    requires few { length (children_left merge) ≤ max_entries + max_chain }
    requires ending_bound { ending < 2 ^ 33 }
    ensures same_addresses { output.new.addresses.ghost_name ≡ output.old.addresses.ghost_name }
    ensures same_figures { output.new.figures.ghost_name ≡ output.old.figures.ghost_name }
    ensures told { vector_told result output.new.addresses.now output.new.figures.now ≡ vector_telling (lent_output output.old.addresses.now output.old.figures.now) (vector_reading (room_in (lent_output output.old.addresses.now output.old.figures.now)) (Some (counts_left ending merge.entry))) }
{
    let size = merge.size();
    if output.room() < size.places {
        return Err(Reason::OutputShort);
    }
    let whole = ending + size.sum;
    merge.fill(whole, output);
    Ok(Some(ProbVector {
        places: size.places as u32,
        ending: figure(ending, whole),
    }))
}

// Of a prior and the evidence at its address, if there is any.
fn posterior_vector(
    prior: &Prior,
    listed: Option<Listed>,
    output: &mut Output,
) -> Result<Option<ProbVector>, Reason>
    requires { IfSome listed (λ l. l.evidence.entries.used ≤ max_entries) }
    ensures same_addresses { output.new.addresses.ghost_name ≡ output.old.addresses.ghost_name }
    ensures same_figures { output.new.figures.ghost_name ≡ output.old.figures.ghost_name }
    ensures told { vector_told result output.new.addresses.now output.new.figures.now ≡ vector_telling (lent_output output.old.addresses.now output.old.figures.now) (vector_reading (room_in (lent_output output.old.addresses.now output.old.figures.now)) (Some (posterior (prior_of_node prior.now.children.now prior.now.node) (evidence_in listed.entry)))) }
{
    let count = u64::from(prior.node.count);
    match listed {
        Some(listed) => {
            let ending = count + u64::from(listed.evidence.ending_count());
            vector(Merge::both(prior, listed), ending, output)
        }
        None => vector(Merge::prior(prior), count, output),
    }
}

// The probabilities of the node's children and of its ending, of prior and evidence: 3 to 7, 22, 9 and 13. None where the address has
// no prior.
pub fn prob_vector(
    seen: &Seen,
    priors: &LentPriors,
    node: Address,
    output: &mut Output,
) -> Result<Option<ProbVector>, Reason>
    ensures same_addresses { output.new.addresses.ghost_name ≡ output.old.addresses.ghost_name }
    ensures same_figures { output.new.figures.ghost_name ≡ output.old.figures.ghost_name }
    ensures told { vector_told result output.new.addresses.now output.new.figures.now ≡ prob_asked (seen_of seen.now.tracker seen.now.book.now seen.now.queue.now) (lent_priors priors.now.nodes.now priors.now.children.now priors.now.floor) (rank_of node.scale node.point) (lent_output output.old.addresses.now output.old.figures.now) }
{
    let priors = priors.check()?;
    let listing = seen.listing()?;
    let rank = node.rank();
    match priors.prior(rank) {
        Some(prior) => posterior_vector(&prior, Listed::find(&listing.entries(), rank), output),
        None => Ok(None),
    }
}

// The same of the evidence alone: 9 and 13. None where the address is unlisted or its total is 0.
pub fn evidence_prob_vector(
    seen: &Seen,
    node: Address,
    output: &mut Output,
) -> Result<Option<ProbVector>, Reason>
    ensures same_addresses { output.new.addresses.ghost_name ≡ output.old.addresses.ghost_name }
    ensures same_figures { output.new.figures.ghost_name ≡ output.old.figures.ghost_name }
    ensures told { vector_told result output.new.addresses.now output.new.figures.now ≡ evidence_asked (seen_of seen.now.tracker seen.now.book.now seen.now.queue.now) (rank_of node.scale node.point) (lent_output output.old.addresses.now output.old.figures.now) }
{
    let listing = seen.listing()?;
    match Listed::find(&listing.entries(), node.rank()) {
        Some(listed) if listed.evidence.total() != 0 => vector(
            Merge::evidence(listed),
            u64::from(listed.evidence.ending_count()),
            output,
        ),
        _ => Ok(None),
    }
}
