// Prior and evidence of a node as one ascending list of children: a merge of the prior's chain with the node's entries in the book.
// One pass counts the places of the answer and sums the counts, a second fills the lent output. With no chain the merge has the
// evidence alone.
ghost use Rattle.std.specs.Prelude.{◌≡◌, true, ◌+◌, ◌*◌, ◌^◌, ◌<◌, ◌≤◌, length};
ghost use Rattle.priors.specs.Limits.{max_chain};
ghost use Rattle.priors.specs.Rows.{keys, Ascends};
ghost use Rattle.priors.specs.Priors.{record_count, every_child, next_link_fits};
ghost use Rattle.entries.specs.Limits.{max_entries};
ghost use Rattle.entries.specs.Ascending.{Ascends-prop};
ghost use Rattle.divergence.specs.Probability.{figure, figures_of};
ghost use Rattle.divergence.specs.Merge.{child_entries};
ghost use Rattle.divergence.specs.Readings.{filled_addresses, filled_figures};

use crate::answers::Output;
use crate::evidence::{Listed, child_at};
use entries::entries::LentEntries;
use priors::prior::Prior;
use priors::records::record_at;
use std::cmp::Ordering;
use std::num::nearest_u64_to_f64;

// What is left of a merge: the chain that a link starts, and the entries from a place up to the end.
// A side with nothing left is an empty one and no None: with either the merge goes on the same way.
// A link and no `Chain`: a step looks at the chain's first record, and may leave it where it is.
#[derive(Clone, Copy)]
pub struct Merge<'a> {
    pub children: &'a [u8],
    pub link: usize,
    pub entries: LentEntries<'a>,
    pub at: usize,
    pub ghost links_rise: { every_child children.now (next_link_fits children.now) ≡ true },
    pub ghost link_fits: { link ≤ record_count children.now },
    pub ghost place_fits: { at ≤ entries.used },
    pub ghost children_ascend: { Ascends 0 (keys (child_entries entries.bytes.now at entries.used)) } by { Ascends-prop 0 (keys (child_entries entries.bytes.now at entries.used)) },
}

// A child of the merge. A count of both may pass 32 bits, so no Child.
#[derive(Clone, Copy, Debug, PartialEq, Eq)]
pub struct Merged {
    pub rank: u64,
    pub count: u64,
}

// How many children a merge has, and the sum of their counts.
#[derive(Clone, Copy, Debug, PartialEq, Eq)]
pub struct Size {
    pub places: usize,
    pub sum: u64,
}

// A count's figure.
pub fn figure(count: u64, whole: u64) -> f64
    ensures { result ≡ figure count whole }
{
    nearest_u64_to_f64(count) / nearest_u64_to_f64(whole)
}

impl<'a> Merge<'a> {
    ghost use Rattle.divergence.specs.Merging.{children_left, size_of};
    ghost use Rattle.priors.specs.Priors.{prior_of_node};
    ghost use Rattle.divergence.specs.Probability.{posterior};
    ghost use Rattle.divergence.specs.Listing.{listed_node};

    // Of a prior and the evidence at its address.
    pub fn both(prior: &Prior<'a>, listed: Listed<'a>) -> Self
        ensures left { children_left result ≡ (posterior (prior_of_node prior.now.children.now prior.now.node) (Some (listed_node listed.entry.evidence).evidence)).children }
        ensures few { length (children_left result) ≤ listed.entry.evidence.entries.used + max_chain }
    {
        let evidence = listed.evidence;
        Merge {
            children: prior.children,
            link: prior.node.link as usize,
            entries: evidence.entries,
            at: evidence.ending + 1,
        }
    }

    // Of a prior alone: no entries.
    pub fn prior(prior: &Prior<'a>) -> Self
        ensures left { children_left result ≡ (posterior (prior_of_node prior.now.children.now prior.now.node) None).children }
        ensures few { length (children_left result) ≤ max_chain }
    {
        let entries = LentEntries {
            bytes: b"",
            used: 0,
        };
        Merge {
            children: prior.children,
            link: prior.node.link as usize,
            entries,
            at: 0,
        }
    }

    // Of evidence alone: no chain.
    pub fn evidence(listed: Listed<'a>) -> Self
        ensures left { children_left result ≡ (listed_node listed.entry.evidence).evidence.children }
        ensures few { length (children_left result) ≤ listed.entry.evidence.entries.used }
    {
        Merge {
            children: b"",
            link: 0,
            entries: listed.evidence.entries,
            at: listed.evidence.ending + 1,
        }
    }

    // The number of children and the sum of their counts.
    pub fn size(self) -> Size
        requires { length (children_left self) ≤ max_entries + max_chain }
        ensures value { result ≡ size_of (children_left self.entry) }
        ensures sum_bound { result.sum ≤ 2 ^ 33 * result.places }
    {
        let mut size = Size { places: 0, sum: 0 };
        for child in self {
            size.places += 1;
            size.sum += child.count;
        }
        size
    }

    // Fills the output from its start: each child's address, and its count's figure.
    pub fn fill(self, whole: u64, output: &mut Output)
        requires addresses_room { 8 * length (children_left self) ≤ length output.old.addresses.now }
        requires figures_room { length (children_left self) ≤ length output.old.figures.now }
        ensures same_addresses { output.new.addresses.ghost_name ≡ output.old.addresses.ghost_name }
        ensures same_figures { output.new.figures.ghost_name ≡ output.old.figures.ghost_name }
        ensures addresses_after { output.new.addresses.now ≡ filled_addresses (keys (children_left self.entry)) output.old.addresses.now }
        ensures figures_after { output.new.figures.now ≡ filled_figures (figures_of whole (children_left self.entry)) output.old.figures.now }
    {
        for (place, child) in (0..output.room()).zip(self) {
            output.put(place, child.rank, figure(child.count, whole));
        }
    }
}

impl Iterator for Merge<'_> {
    ghost use Rattle.std.specs.Prelude.{IfSome};
    ghost use Rattle.std.specs.Iterator.{YieldsFirstBy, item_count};
    ghost use Rattle.divergence.specs.Merging.{children_left, merged_row};

    type Item = Merged;

    ghost next_gives = { λ s r t. YieldsFirstBy merged_row children_left s r t × IfSome r (λ m. m.count < 2 ^ 33) };

    ghost remaining = { item_count children_left };

    // The lower of the chain's first child and the entries' first, or both as one where they are the same; the merge goes on after it.
    fn next(&mut self) -> Option<Merged> {
        if self.link == 0 {
            if self.at == self.entries.used {
                return None;
            }
            let child = child_at(&self.entries, self.at);
            self.at += 1;
            return Some(Merged {
                rank: child.rank,
                count: u64::from(child.count),
            });
        }
        let prior = record_at(self.children, self.link - 1);
        if self.at < self.entries.used {
            let child = child_at(&self.entries, self.at);
            match child.rank.cmp(&prior.rank) {
                Ordering::Less => {
                    self.at += 1;
                    return Some(Merged {
                        rank: child.rank,
                        count: u64::from(child.count),
                    });
                }
                Ordering::Equal => {
                    self.at += 1;
                    self.link = prior.link as usize;
                    return Some(Merged {
                        rank: child.rank,
                        count: u64::from(prior.count) + u64::from(child.count),
                    });
                }
                Ordering::Greater => {}
            }
        }
        self.link = prior.link as usize;
        Some(Merged {
            rank: prior.rank,
            count: u64::from(prior.count),
        })
    }
}
