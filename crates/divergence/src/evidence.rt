// The evidence of one listed node: its entries in the book. Its ending stands at a place, and its children after it up to the end of the
// entries.
ghost use Rattle.std.specs.Prelude.{◌≡◌, true, ◌+◌, ◌-◌, ◌*◌, ◌^◌, ◌<◌, ◌≤◌, map, min};
ghost use Rattle.priors.specs.Rows.{row, keys, Ascends};
ghost use Rattle.priors.specs.Priors.{count_sum, total};
ghost use Rattle.entries.specs.Limits.{max_entries};
ghost use Rattle.entries.specs.Ascending.{Ascends-prop};
ghost use Rattle.entries.specs.Entries.{row_at, rows};
ghost use Rattle.book.specs.Form.{formed};
ghost use Rattle.divergence.specs.Nodes.{child_row, listed_nodes, evidence_of};
ghost use Rattle.divergence.specs.Parts.{part, leading};

use crate::nodes::children_end;
use entries::entries::{Entries, LentEntries};
use entries::keys::Key;
use priors::addresses::Address;
use priors::refusals::{NodeReason, Refusal};

// The entries up to where the node's children end, and the place of its ending.
#[derive(Clone, Copy)]
pub struct Evidence<'a> {
    pub entries: LentEntries<'a>,
    pub ending: usize,
    pub ghost ending_first: { ending < entries.used },
}

// Evidence that a look-up found: its children ascend.
#[derive(Clone, Copy)]
pub struct Listed<'a> {
    pub evidence: Evidence<'a>,
    pub ghost ascending: { Ascends 0 (keys (map child_row (part evidence.entries.bytes.now (evidence.ending + 1) evidence.entries.used))) } by { Ascends-prop 0 (keys (map child_row (part evidence.entries.bytes.now (evidence.ending + 1) evidence.entries.used))) },
}

// A child, and how often it was noted.
#[derive(Clone, Copy, Debug, PartialEq, Eq)]
pub struct Child {
    pub rank: u64,
    pub count: u32,
}

// The child in the entry at the place i.
pub fn child_at(entries: &LentEntries, i: usize) -> Child
    requires { i < entries.now.used }
    ensures { row result.rank result.count ≡ child_row (row_at entries.now.bytes.now (24 * i)) }
{
    Child {
        rank: entries.key(i).child,
        count: entries.count(i),
    }
}

// The total of the counts in the entries from a place on. It stays at the greatest u64, past which no table reaches.
pub fn count_total(entries: &LentEntries, from: usize) -> u64
    requires { from ≤ entries.now.used }
    ensures capped { result ≡ min (count_sum (part entries.now.bytes.now from entries.now.used)) (2 ^ 64 - 1) }
    ensures exact { entries.now.used ≤ max_entries → result ≡ count_sum (part entries.now.bytes.now from entries.now.used) }
{
    let mut sum: u64 = 0;
    for i in from..entries.used {
        sum = sum.saturating_add(u64::from(entries.count(i)));
    }
    sum
}

impl<'a> Listed<'a> {
    ghost use Rattle.std.specs.Prelude.{IfSome};
    ghost use Rattle.divergence.specs.Listing.{listed_node, evidence_in};

    // Of the address with this rank, if it is listed. The ending is found by halving.
    pub fn find(entries: &Entries<'a>, rank: u64) -> Option<Self>
        requires { formed (rows entries.now.bytes.now entries.now.used) ≡ true }
        ensures evidence { evidence_in result ≡ evidence_of rank (listed_nodes (rows entries.now.bytes.now entries.now.used)) }
        ensures address { IfSome result (λ l. (listed_node l.evidence).address ≡ rank) }
        ensures within { IfSome result (λ l. (l.evidence.entries.bytes.now ≡ entries.now.bytes.now) × (l.evidence.entries.used ≤ entries.now.used)) }
    {
        let ending = entries.find(Key::ending(rank)).ok()?;
        let evidence = Evidence::at(entries.lent(), ending);
        Some(Listed { evidence })
    }
}

impl<'a> Evidence<'a> {
    ghost use Rattle.priors.specs.Address.{address_of};
    ghost use Rattle.priors.specs.declared.refusals.Refusal.TheVariants.{AtNode};
    ghost use Rattle.divergence.specs.Listing.{listed_node};

    // Of the node whose ending stands at a place: its children are those before the next ending.
    pub fn at(entries: LentEntries<'a>, ending: usize) -> Self
        requires { ending < entries.used }
        ensures bytes { result.entries.bytes.now ≡ entries.entry.bytes.now }
        ensures ending { result.ending ≡ ending }
        ensures end { result.entries.used ≡ ending + 1 + leading (part entries.entry.bytes.now (ending + 1) entries.entry.used) }
    {
        let used = children_end(&entries, ending + 1);
        let entries = LentEntries {
            bytes: entries.bytes,
            used,
        };
        Evidence { entries, ending }
    }

    // The node's address, by rank.
    #[tactic(auto, using(crate::proofs::NodeLaws::node_here))]
    pub fn rank(&self) -> u64
        ensures { result ≡ (listed_node self.now).address }
    {
        self.entries.key(self.ending).node
    }

    // How many paths end at the node.
    pub fn ending_count(&self) -> u32
        ensures { result ≡ (listed_node self.now).evidence.ending }
    {
        self.entries.count(self.ending)
    }

    // The total of its counts, or the greatest u64 if that is less.
    pub fn total(&self) -> u64
        ensures { result ≡ min (total (listed_node self.now).evidence) (2 ^ 64 - 1) }
    {
        count_total(&self.entries, self.ending)
    }

    // The refusal that names the node.
    pub fn refusal(&self, reason: NodeReason) -> Refusal
        ensures { result ≡ AtNode reason (address_of (listed_node self.now).address) }
    {
        Refusal::AtNode(reason, Address::from_rank(self.rank()))
    }
}
