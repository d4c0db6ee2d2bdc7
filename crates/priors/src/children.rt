// A node's child in its prior, for a user: the priors are checked, the node found and its chain walked.
ghost use Rattle.std.specs.Prelude.{◌≡◌};
ghost use Rattle.priors.specs.Address.{rank_of};
ghost use Rattle.priors.specs.Priors.{lent_priors};
ghost use Rattle.priors.specs.Children.{child_asked};
ghost use Rattle.priors.specs.Lookups.{child_answer};

use crate::addresses::Address;
use crate::lookups::LentPriors;
use crate::prior::ChildLookup;
use crate::refusals::Reason;

impl LentPriors<'_> {
    // Numbers 3 to 7 and 22. Where the node has no prior there is no child, and no chain to read.
    pub fn child(&self, node: Address, child: Address) -> Result<ChildLookup, Reason>
        ensures { child_answer result ≡ child_asked (lent_priors self.now.nodes.now self.now.children.now self.now.floor) (rank_of node.scale node.point) (rank_of child.scale child.point) }
    {
        let priors = self.check()?;
        match priors.prior(node.rank()) {
            Some(prior) => Ok(prior.child(child.rank())),
            None => Ok(ChildLookup {
                count: None,
                read: 0,
            }),
        }
    }
}
