// The rules for prior records, numbers 3 to 7 and 22, each over all records before the next. Links and counts are tested in every record,
// reached or not; length and order along each chain that starts at a node. The work is every node record five times, every child record
// twice, and at most 65 and then 64 records for each node; and what 22 takes in the layer below the floor (layers.rt).
ghost use Rattle.std.specs.Prelude.{◌≡◌, true, ◌+◌, ◌*◌, ◌≤◌, leb, ltb, length};
ghost use Rattle.priors.specs.Limits.{max_chain, record_size};
ghost use Rattle.priors.specs.Refusals.{checked_number};
ghost use Rattle.priors.specs.Priors.{records, record_count, ascends, chain_of, whole_records, every_node, every_child, first_link_fits, next_link_fits, chain_fits, chain_ascends, record_count_fits, total_fits, prior_of_node, total, records_refusal, priors_refusal};

use crate::chains::Chain;
use crate::places::Nodes;
use crate::records::{RECORD_SIZE, Record, every_record, record_at, record_count};
use crate::refusals::Reason;

pub const MAX_NODES: usize = 4096;

pub const MAX_CHILDREN: usize = 16384;

pub const MAX_CHAIN: usize = 64;

// Whole records, and at most this many.
// Not shared with book's `is_whole`: there may be no record here, and one more bound would be handed over.
#[tactic(auto, unfolding(crate::specs::Priors::whole_records))]
fn whole_records(s: &[u8], most: usize) -> bool
    ensures { result ≡ whole_records s.now most }
{
    s.len() % RECORD_SIZE == 0 && record_count(s) <= most
}

// Nodes strictly ascend.
fn nodes_ascend(nodes: &[u8]) -> bool
    ensures { result ≡ ascends (records nodes.now) }
{
    (0..record_count(nodes))
        .map(|i| record_at(nodes, i))
        .is_sorted_by(|last, next| last.rank < next.rank)
}

impl Chain<'_> {
    ghost use Rattle.priors.specs.Chains.{records_left};

    // It has at most 64 records; the walk goes no further than the next.
    fn is_short(self) -> bool
        ensures { result ≡ leb (length (records_left self.entry)) max_chain }
    {
        self.take(MAX_CHAIN + 1).count() <= MAX_CHAIN
    }

    // It strictly ascends.
    fn ascends(self) -> bool
        ensures { result ≡ ascends (records_left self.entry) }
    {
        self.is_sorted_by(|last, next| last.rank < next.rank)
    }
}

// Records whose links fit: every first link is 0 or a record's number, every next link ends its chain, or rises and is a record's
// number.
#[derive(Clone, Copy)]
struct Linked<'a> {
    nodes: &'a [u8],
    children: &'a [u8],
    ghost firsts_fit: { every_node nodes.now (first_link_fits nodes.now children.now) ≡ true },
    ghost links_rise: { every_child children.now (next_link_fits children.now) ≡ true },
}

impl<'a> Linked<'a> {
    fn chain(&self, node: Record) -> Chain<'a>
        requires { node.link ≤ record_count self.now.children.now }
        ensures children { result.children.now ≡ self.now.children.now }
        ensures link { result.link ≡ node.link }
    {
        Chain {
            children: self.children,
            link: node.link,
        }
    }

    #[tactic(auto, using(crate::proofs::ChainLaws::first_small), unfolding(crate::specs::Priors::chain_fits))]
    fn chains_short(&self) -> bool
        ensures { result ≡ every_node self.now.nodes.now (chain_fits self.now.nodes.now self.now.children.now) }
    {
        every_record(self.nodes, |_, node| self.chain(node).is_short())
    }

    #[tactic(auto, using(crate::proofs::ChainLaws::first_small), unfolding(crate::specs::Priors::chain_ascends))]
    fn chains_ascend(&self) -> bool
        ensures { result ≡ every_node self.now.nodes.now (chain_ascends self.now.nodes.now self.now.children.now) }
    {
        every_record(self.nodes, |_, node| self.chain(node).ascends())
    }

    // The node's total is not 0: since no child count is 0, that takes a singleton or a chain.
    #[tactic(auto, using(crate::proofs::ChainLaws::total_linked), unfolding(crate::specs::Priors::total))]
    fn total_fits(&self, node: Record) -> bool
        requires link_bound { node.link ≤ record_count self.now.children.now }
        requires counts_fit { every_child self.now.children.now (record_count_fits self.now.children.now) ≡ true }
        ensures { result ≡ ltb 0 (total (prior_of_node self.now.children.now node)) }
    {
        node.count != 0 || node.link != 0
    }

    #[tactic(auto, using(crate::proofs::ChainLaws::first_small), unfolding(crate::specs::Priors::total_fits))]
    fn totals_fit(&self) -> bool
        requires { every_child self.now.children.now (record_count_fits self.now.children.now) ≡ true }
        ensures { result ≡ every_node self.now.nodes.now (total_fits self.now.nodes.now self.now.children.now) }
    {
        every_record(self.nodes, |_, node| self.total_fits(node))
    }
}

// Every first link is 0 or a record's number.
// Two slices: these are the tests that Linked rests on.
#[tactic(auto, unfolding(crate::specs::Priors::first_link_fits))]
fn first_links_fit(nodes: &[u8], children: &[u8]) -> bool
    ensures { result ≡ every_node nodes.now (first_link_fits nodes.now children.now) }
{
    let most = record_count(children);
    every_record(nodes, |_, node| node.link as usize <= most)
}

// Every next link ends its chain, or rises and is a record's number. The record at i has the number i + 1.
#[tactic(auto, unfolding(crate::specs::Priors::next_link_fits))]
fn next_links_fit(children: &[u8]) -> bool
    ensures { result ≡ every_child children.now (next_link_fits children.now) }
{
    let most = record_count(children);
    every_record(children, |i, child| {
        let link = child.link as usize;
        link == 0 || i + 1 < link && link <= most
    })
}

// No child count is 0.
#[tactic(auto, unfolding(crate::specs::Priors::record_count_fits))]
fn counts_fit(children: &[u8]) -> bool
    ensures { result ≡ every_child children.now (record_count_fits children.now) }
{
    every_record(children, |_, child| child.count != 0)
}

// Numbers 3 to 7.
#[tactic(auto, unfolding(crate::specs::Priors::records_refusal))]
fn check_records(nodes: &[u8], children: &[u8]) -> Result<(), Reason>
    ensures { checked_number result ≡ records_refusal nodes.now children.now }
{
    if !whole_records(nodes, MAX_NODES) || !whole_records(children, MAX_CHILDREN) {
        return Err(Reason::PriorSizes);
    }
    if !nodes_ascend(nodes) {
        return Err(Reason::NodeOrder);
    }
    if !first_links_fit(nodes, children) || !next_links_fit(children) {
        return Err(Reason::Links);
    }
    let linked = Linked { nodes, children };
    if !linked.chains_short() {
        return Err(Reason::Links);
    }
    if !linked.chains_ascend() {
        return Err(Reason::ChainOrder);
    }
    if !counts_fit(children) || !linked.totals_fit() {
        return Err(Reason::ZeroPrior);
    }
    Ok(())
}

// Numbers 3 to 7, and then 22.
#[tactic(auto, using(crate::proofs::PriorLaws::nodes_ordered, crate::proofs::PriorLaws::nodes_few, crate::proofs::PriorLaws::recorded, crate::proofs::PriorLaws::points_last))]
pub fn check_priors(nodes: &[u8], children: &[u8], layer: u32) -> Result<(), Reason>
    ensures { checked_number result ≡ priors_refusal nodes.now children.now layer }
{
    check_records(nodes, children)?;
    let ascending = Nodes { bytes: nodes };
    if !ascending.points_differ(layer) {
        return Err(Reason::SharedPoint);
    }
    Ok(())
}
