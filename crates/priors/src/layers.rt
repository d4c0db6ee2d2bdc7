// Number 22: no two node records in the layer below the floor have one point. Records are told apart by slots, twelve bits made of the
// point: each record is compared only with the earlier ones of its slot, which links join from the last one back. So the work is about
// one pass over them, unless many points meet in few slots. Slots and links are two arrays of numbers, 16,384 bytes of stack, 0 for none:
// there is no heap, so no map of slots.
ghost use Rattle.std.specs.Prelude.{◌≡◌, ◌≤◌, ◌<◌};
ghost use Rattle.priors.specs.Limits.{max_nodes};
ghost use Rattle.priors.specs.Priors.{record_count, one_point, clear_before, points_differ};
ghost use Rattle.priors.specs.Layer.{slot, slot_of, Latest, Linked};

use crate::addresses::{point_part, scale_part};
use crate::places::Nodes;

// Both ranks are in the layer and have one point.
#[tactic(auto, unfolding(crate::specs::Priors::one_point))]
fn one_point(layer: u32, a: u64, b: u64) -> bool
    ensures { result ≡ one_point layer a b }
{
    scale_part(a) < layer && scale_part(b) < layer && point_part(a) == point_part(b)
}

// Twelve bits made of the rank's point.
fn slot(rank: u64) -> usize
    ensures { result ≡ slot rank }
{
    (u64::from(point_part(rank)) * 2654435761 / 1048576 % 4096) as usize
}

// Node records that strictly ascend, no more than there are links for.
#[derive(Clone, Copy)]
struct Few<'a> {
    nodes: Nodes<'a>,
    ghost few: { record_count nodes.bytes.now ≤ max_nodes },
}

impl Few<'_> {
    // The record i has one point with none before it: those with its slot are looked at, along their links from the last one on.
    #[tactic(auto, using(crate::proofs::SlotLaws::clear_all, crate::proofs::SlotLaws::clear_fails))]
    fn clear_along(&self, layer: u32, i: usize, head: u16, links: &[u16; 4096]) -> bool
        requires i_in_bounds { i < record_count self.now.nodes.bytes.now }
        requires latest { Latest self.now.nodes.bytes.now i (slot_of self.now.nodes.bytes.now i) head }
        requires linked { Linked self.now.nodes.bytes.now i links.now }
        ensures { result ≡ clear_before self.now.nodes.bytes.now layer i }
    {
        let own = self.nodes.rank_at(i);
        let mut at = usize::from(head);
        while at != 0 {
            if one_point(layer, own, self.nodes.rank_at(at - 1)) {
                return false;
            }
            at = usize::from(links[at - 1]);
        }
        true
    }

    // Each record in the layer in turn.
    #[tactic(auto, using(crate::proofs::SlotLaws::rest_clear), unfolding(crate::specs::Priors::points_differ))]
    fn slots_clear(&self, layer: u32) -> bool
        ensures { result ≡ points_differ self.now.nodes.bytes.now layer }
    {
        let mut heads = [0u16; 4096];
        let mut links = [0u16; 4096];
        for i in 0..self.nodes.len() {
            let own = self.nodes.rank_at(i);
            if layer <= scale_part(own) {
                return true;
            }
            let slot = slot(own);
            let head = heads[slot];
            if !self.clear_along(layer, i, head, &links) {
                return false;
            }
            links[i] = head;
            heads[slot] = (i + 1) as u16;
        }
        true
    }
}

impl Nodes<'_> {
    // Where the layer has no record, or only one, nothing is to be compared.
    #[tactic(auto, using(crate::proofs::SlotLaws::few_clear, crate::proofs::SlotLaws::second_high))]
    pub fn points_differ(&self, layer: u32) -> bool
        requires { record_count self.now.bytes.now ≤ max_nodes }
        ensures { result ≡ points_differ self.now.bytes.now layer }
    {
        if self.len() < 2 || layer <= scale_part(self.rank_at(1)) {
            return true;
        }
        Few { nodes: *self }.slots_clear(layer)
    }
}
