// A node's prior: its record, and the chain of child records that its link starts. The chain ascends, so that the look-up of a child
// ends with the first record that is not below the address wanted.
ghost use Rattle.std.specs.Prelude.{◌≡◌, true, ◌≤◌, length};
ghost use Rattle.priors.specs.Limits.{max_chain};
ghost use Rattle.priors.specs.Rows.{count_of};
ghost use Rattle.priors.specs.Priors.{record_count, ascends, chain_of, children_of, every_child, next_link_fits, prior_of_node, total};
ghost use Rattle.priors.specs.Children.{reads_of};

use crate::chains::Chain;
use crate::records::{Record, record_at};

// It holds no Chain: the first link would stand twice, in the node's record and in the chain.
#[derive(Clone, Copy)]
pub struct Prior<'a> {
    pub node: Record,
    pub children: &'a [u8],
    pub ghost first_fits: { node.link ≤ record_count children.now },
    pub ghost links_rise: { every_child children.now (next_link_fits children.now) ≡ true },
    pub ghost ascending: { ascends (chain_of children.now node.link) ≡ true },
    pub ghost short: { length (chain_of children.now node.link) ≤ max_chain },
}

// What the look-up of a child found, and how many records of the chain it read.
#[derive(Clone, Copy, Debug, PartialEq, Eq)]
pub struct ChildLookup {
    pub count: Option<u32>,
    pub read: u32,
}

// The count of the child with this address along the chain that `first` starts, and the number of records read: the walk ends with the
// first that is not below the address. Its clauses say of `first` what a prior's type says of its link: walked by a method of `Prior`,
// which was tried, the link is loaded anew at each turn, and readings of all nodes take an eighth longer; told apart by one `match` over
// `cmp`, which was tried, they take a seventh longer.
#[tactic(auto, using(crate::proofs::ReadLaws::walk_on, crate::proofs::ChainLaws::next_link, crate::proofs::ChainLaws::chain_length))]
pub fn child_along(children: &[u8], first: u32, rank: u64) -> ChildLookup
    requires first_fits { first ≤ record_count children.now }
    requires links_rise { every_child children.now (next_link_fits children.now) ≡ true }
    requires ascending { ascends (chain_of children.now first) ≡ true }
    ensures count_value { result.count ≡ count_of rank (children_of children.now first) }
    ensures read_value { result.read ≡ reads_of rank (children_of children.now first) }
{
    let mut link = first;
    let mut read = 0;
    while link != 0 {
        let next = record_at(children, link as usize - 1);
        read += 1;
        if rank < next.rank {
            return ChildLookup { count: None, read };
        }
        if next.rank == rank {
            return ChildLookup {
                count: Some(next.count),
                read,
            };
        }
        link = next.link;
    }
    ChildLookup { count: None, read }
}

// The total of the counts of this node with the chain that its link starts.
pub fn total(children: &[u8], node: Record) -> u64
    requires first_fits { node.link ≤ record_count children.now }
    requires links_rise { every_child children.now (next_link_fits children.now) ≡ true }
    requires short { length (chain_of children.now node.link) ≤ max_chain }
    ensures { result ≡ total (prior_of_node children.now node) }
{
    let chain = Chain {
        children,
        link: node.link,
    };
    let along: u64 = chain.map(|child| u64::from(child.count)).sum();
    u64::from(node.count) + along
}

impl Prior<'_> {
    // The count of the child with this address, and the number of records read.
    pub fn child(&self, rank: u64) -> ChildLookup
        ensures count_value { result.count ≡ count_of rank (children_of self.now.children.now self.now.node.link) }
        ensures read_value { result.read ≡ reads_of rank (children_of self.now.children.now self.now.node.link) }
    {
        child_along(self.children, self.node.link, rank)
    }

    // The total of its counts.
    pub fn total(&self) -> u64
        ensures { result ≡ total (prior_of_node self.now.children.now self.now.node) }
    {
        total(self.children, self.node)
    }
}
