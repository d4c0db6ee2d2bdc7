// The divergence of one listed node: a figure, none where it has no prior, or the reason why it is refused: a child that the prior
// lacks, or a total past the tables' end.
ghost use Rattle.std.specs.Prelude.{◌≡◌, ◌+◌, ◌<◌, ◌≤◌, length};
ghost use Rattle.priors.specs.Priors.{children_of, prior_of_node, prior_of, total, count_sum};
ghost use Rattle.divergence.specs.Listing.{listed_node};
ghost use Rattle.divergence.specs.Divergence.{lacks_child, child_terms, divergence, node_divergence};
ghost use Rattle.divergence.specs.Fits.{fit_of};

use crate::evidence::{Evidence, child_at};
use crate::sums::Sums;
use priors::lookups::Priors;
use priors::prior::Prior;
use priors::refusals::NodeReason;
use priors::tables::Tables;

// What evidence is measured by: tables and priors that passed.
#[derive(Clone, Copy)]
pub struct Measure<'a> {
    pub tables: Tables<'a>,
    pub priors: Priors<'a>,
}

// The totals of a node that fits: of its prior, and of prior and evidence.
#[derive(Clone, Copy, Debug, PartialEq, Eq)]
pub struct Fit {
    pub prior: u64,
    pub posterior: u64,
}

impl Evidence<'_> {
    // Some child, zero count included, is not in the prior. A loop: with `any`, which was tried, readings of all nodes take a twentieth longer.
    fn lacks_child(self, prior: &Prior) -> bool
        ensures { result ≡ lacks_child (children_of prior.now.children.now prior.now.node.link) (listed_node self.entry).evidence.children }
    {
        for i in self.ending + 1..self.entries.used {
            if prior.child(child_at(&self.entries, i).rank).count.is_none() {
                return true;
            }
        }
        false
    }

    // What the node is tested for against its prior: every child is known, and its total is within tables of this size.
    pub fn fit(&self, prior: &Prior, size: usize) -> Result<Fit, NodeReason>
        ensures { result ≡ fit_of size (prior_of_node prior.now.children.now prior.now.node) (listed_node self.now).evidence }
    {
        if self.lacks_child(prior) {
            return Err(NodeReason::MissingChild);
        }
        let total = prior.total();
        match total.checked_add(self.total()) {
            Some(posterior) if posterior < size as u64 => Ok(Fit {
                prior: total,
                posterior,
            }),
            _ => Err(NodeReason::PastTable),
        }
    }

    // The sums with a term for each child; t is the prior's total.
    fn child_terms(self, prior: &Prior, tables: &Tables, t: u64, start: Sums) -> Sums
        requires prior_total { count_sum (children_of prior.now.children.now prior.now.node.link) ≤ t }
        requires total_in_bounds { t + count_sum (listed_node self).evidence.children < length tables.now.g.now }
        ensures { result ≡ child_terms tables.now.g.now tables.now.d.now t (children_of prior.now.children.now prior.now.node.link) start (listed_node self.entry).evidence.children }
    {
        let lent = tables.lent();
        let mut sums = start;
        for i in self.ending + 1..self.entries.used {
            let child = child_at(&self.entries, i);
            let a = prior.child(child.rank).count.unwrap_or(0);
            sums = sums.with_term(&lent, t, a, child.count);
        }
        sums
    }

    // The divergence of the node, which fits.
    fn divergence_by(&self, prior: &Prior, tables: &Tables, fit: Fit) -> f64
        requires prior_total { fit.prior ≡ total (prior_of_node prior.now.children.now prior.now.node) }
        requires posterior_total { fit.posterior ≡ fit.prior + total (listed_node self.now).evidence }
        requires in_bounds { fit.posterior < length tables.now.g.now }
        ensures { result ≡ divergence tables.now.g.now tables.now.d.now (prior_of_node prior.now.children.now prior.now.node) (listed_node self.now).evidence }
    {
        let t = fit.prior;
        let lent = tables.lent();
        let first = Sums::new().with_ending(&lent, t, prior.node.count, self.ending_count());
        self.child_terms(prior, tables, t, first)
            .closed(&lent, t, fit.posterior)
    }

    // The divergence of the node.
    pub fn divergence(&self, by: &Measure) -> Result<Option<f64>, NodeReason>
        ensures { result ≡ node_divergence by.now.tables.g.now by.now.tables.d.now (prior_of by.now.priors.nodes.now by.now.priors.children.now by.now.priors.layer (listed_node self.now).address) (listed_node self.now).evidence }
    {
        match by.priors.prior(self.rank()) {
            None => Ok(None),
            Some(prior) => {
                let fit = self.fit(&prior, by.tables.g.len())?;
                Ok(Some(self.divergence_by(&prior, &by.tables, fit)))
            }
        }
    }
}
