// The readings of divergences: of one node, of all listed nodes, and their statistics. They test tables, priors and the tracker's
// form first; nothing lent changes but the outputs, and a refused reading changes nothing.
ghost use Rattle.std.specs.Prelude.{◌≡◌, IfOk};
ghost use Rattle.priors.specs.Address.{rank_of};
ghost use Rattle.priors.specs.Refusals.{checked_number};
ghost use Rattle.priors.specs.Tables.{lent_tables};
ghost use Rattle.priors.specs.Priors.{lent_priors, layer_of};
ghost use Rattle.entries.specs.Entries.{rows};
ghost use Rattle.divergence.specs.Nodes.{listed_nodes, evidence_of};
ghost use Rattle.divergence.specs.Readings.{room, of_listed, all_listed};
ghost use Rattle.divergence.specs.Asked.{seen_of, lent_output, kl_asked, all_kl_told, all_telling, all_asked, stats_asked};
ghost use Rattle.divergence.specs.Answers.{kl_answer, stats_answer};
ghost use Rattle.divergence.specs.Parts.{nodes_from};
ghost use Rattle.divergence.specs.Checks.{checks_refusal, IsLent};

use crate::answers::{AllNodeKl, Output};
use crate::divergences::Measure;
use crate::evidence::Listed;
use crate::fillings::{fill_all, first_stop, with_prior};
use crate::nodes::Nodes;
use crate::statistics::Tally;
use book::form::Listing;
use book::trackers::Seen;
use priors::addresses::Address;
use priors::lookups::LentPriors;
use priors::places;
use priors::refusals::{Reason, Refusal};
use priors::tables::LentTables;

// What a reading goes by, once it is tested.
#[derive(Clone, Copy)]
pub struct Passed<'a> {
    pub by: Measure<'a>,
    pub listing: Listing<'a>,
}

// Tables, priors and the form of the tracker, in this order. Tables and priors apart: `prob_vector` is lent no tables.
fn tested<'a>(
    seen: &Seen<'a>,
    tables: &LentTables<'a>,
    priors: &LentPriors<'a>,
) -> Result<Passed<'a>, Reason>
    ensures number { checked_number result ≡ checks_refusal seen.now.tracker seen.now.book.now seen.now.queue.now priors.now.nodes.now priors.now.children.now (layer_of priors.now.floor) tables.now.g.now tables.now.d.now }
    ensures lent { IfOk result (λ t. IsLent seen.now tables.now priors.now t) }
{
    let tables = tables.check()?;
    let priors = priors.check()?;
    let listing = seen.listing()?;
    let by = Measure { tables, priors };
    Ok(Passed { by, listing })
}

// The divergence of the node with this rank, if it is listed. The refusal names it by the rank: with `Evidence::refusal` tried, the proof
// learns nothing of what the closure returns.
fn listed_kl(lent: &Passed, rank: u64) -> Result<Option<f64>, Refusal>
    ensures { kl_answer result ≡ of_listed lent.now.by.tables.g.now lent.now.by.tables.d.now lent.now.by.priors.nodes.now lent.now.by.priors.children.now lent.now.by.priors.layer rank (evidence_of rank (listed_nodes (rows lent.now.listing.bytes.now lent.now.listing.used))) }
{
    match Listed::find(&lent.listing.entries(), rank) {
        Some(listed) => listed
            .evidence
            .divergence(&lent.by)
            .map_err(|reason| Refusal::AtNode(reason, Address::from_rank(rank))),
        None => Ok(None),
    }
}

// The divergence of one node; none where it is unlisted or has no prior.
pub fn posterior_kl_divergence(
    seen: &Seen,
    tables: &LentTables,
    priors: &LentPriors,
    node: Address,
) -> Result<Option<f64>, Refusal>
    ensures { kl_answer result ≡ kl_asked (seen_of seen.now.tracker seen.now.book.now seen.now.queue.now) (lent_tables tables.now.g.now tables.now.d.now) (lent_priors priors.now.nodes.now priors.now.children.now priors.now.floor) (rank_of node.scale node.point) }
{
    let lent = tested(seen, tables, priors)?;
    listed_kl(&lent, node.rank())
}

// The divergences of the listed nodes fill the output: 13, then 14 and 15, before any of it is touched.
fn all_listed(lent: &Passed, output: &mut Output) -> Result<AllNodeKl, Refusal>
    ensures same_addresses { output.new.addresses.ghost_name ≡ output.old.addresses.ghost_name }
    ensures same_figures { output.new.figures.ghost_name ≡ output.old.figures.ghost_name }
    ensures told { all_kl_told result output.new.addresses.now output.new.figures.now ≡ all_telling (lent_output output.old.addresses.now output.old.figures.now) (all_listed lent.now.by.tables.g.now lent.now.by.tables.d.now lent.now.by.priors.nodes.now lent.now.by.priors.children.now lent.now.by.priors.layer (nodes_from lent.now.listing.bytes.now 0 lent.now.listing.used) (room output.old.addresses.now output.old.figures.now)) }
{
    let nodes = Nodes::of(lent.listing.lent());
    let priors = &lent.by.priors;
    let records = places::Nodes {
        bytes: priors.nodes,
    };
    if output.room() < with_prior(nodes, &records, priors.layer) {
        return Err(Refusal::Plain(Reason::OutputShort));
    }
    first_stop(nodes, priors, lent.by.tables.g.len())?;
    Ok(fill_all(nodes, &lent.by, output))
}

// The divergences of all listed nodes, ascending: a place each, an address and a figure. A node without a prior is skipped.
pub fn all_node_kl(
    seen: &Seen,
    tables: &LentTables,
    priors: &LentPriors,
    output: &mut Output,
) -> Result<AllNodeKl, Refusal>
    ensures same_addresses { output.new.addresses.ghost_name ≡ output.old.addresses.ghost_name }
    ensures same_figures { output.new.figures.ghost_name ≡ output.old.figures.ghost_name }
    ensures told { all_kl_told result output.new.addresses.now output.new.figures.now ≡ all_asked (seen_of seen.now.tracker seen.now.book.now seen.now.queue.now) (lent_tables tables.now.g.now tables.now.d.now) (lent_priors priors.now.nodes.now priors.now.children.now priors.now.floor) (lent_output output.old.addresses.now output.old.figures.now) }
{
    let lent = tested(seen, tables, priors)?;
    all_listed(&lent, output)
}

// The statistics of the divergences of the listed nodes. A node without a prior is skipped; 14 and 15 name their node.
pub fn kl_div_stats(seen: &Seen, tables: &LentTables, priors: &LentPriors) -> Result<Tally, Refusal>
    ensures { stats_answer result ≡ stats_asked (seen_of seen.now.tracker seen.now.book.now seen.now.queue.now) (lent_tables tables.now.g.now tables.now.d.now) (lent_priors priors.now.nodes.now priors.now.children.now priors.now.floor) }
{
    let lent = tested(seen, tables, priors)?;
    let nodes = Nodes::of(lent.listing.lent());
    Tally::of(nodes, &lent.by, seen.tracker.sequence_len())
}
