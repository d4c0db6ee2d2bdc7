// Lent priors that passed their rules, and the look-up of a node in them: by its exact address, by halving, or in the layer below the
// floor by its point.
ghost use Rattle.std.specs.Prelude.{◌≡◌, true, IfOk, IfSome, option_map};
ghost use Rattle.priors.specs.Refusals.{checked_number};
ghost use Rattle.priors.specs.Priors.{layer_of, records, points_differ, find_record, priors_refusal};
ghost use Rattle.priors.specs.Layer.{Absent, FoundAt};

use crate::addresses::{layer_of, of_parts, point_part, scale_part};
use crate::checks::check_priors;
use crate::places::Nodes;
use crate::prior::Prior;
use crate::records::{Record, record_at};
use crate::refusals::Reason;

// Priors as a call is lent them, with their floor scale.
#[derive(Clone, Copy)]
pub struct LentPriors<'a> {
    pub nodes: &'a [u8],
    pub children: &'a [u8],
    pub floor: i32,
}

// Priors that passed 3 to 7 and 22, with the number of scales below their floor.
#[derive(Clone, Copy)]
pub struct Priors<'a> {
    pub nodes: &'a [u8],
    pub children: &'a [u8],
    pub layer: u32,
    pub ghost passed: { priors_refusal nodes.now children.now layer ≡ 0 },
}

impl<'a> LentPriors<'a> {
    // Numbers 3 to 7 and 22.
    pub fn check(&self) -> Result<Priors<'a>, Reason>
        ensures number { checked_number result ≡ priors_refusal self.now.nodes.now self.now.children.now (layer_of self.now.floor) }
        ensures lent { IfOk result (λ p. (p.nodes.now ≡ self.now.nodes.now) × (p.children.now ≡ self.now.children.now) × (p.layer ≡ layer_of self.now.floor)) }
    {
        let (nodes, children) = (self.nodes, self.children);
        let layer = layer_of(self.floor);
        check_priors(nodes, children, layer)?;
        Ok(Priors {
            nodes,
            children,
            layer,
        })
    }
}

impl<'a> Priors<'a> {
    // Its node records, to be searched.
    #[tactic(auto, using(crate::proofs::PriorLaws::accepted))]
    pub fn nodes(&self) -> Nodes<'a>
        ensures { result.bytes.now ≡ self.now.nodes.now }
    {
        Nodes { bytes: self.nodes }
    }

    // The prior that a look-up of the address with this rank finds.
    #[tactic(auto, using(crate::proofs::PriorLaws::accepted))]
    pub fn prior(&self, rank: u64) -> Option<Prior<'a>>
        ensures found { option_map (λ p. p.node) result ≡ find_record self.now.layer rank (records self.now.nodes.now) }
        ensures lent { IfSome result (λ p. p.children.now ≡ self.now.children.now) }
    {
        let node = self.nodes().find(self.layer, rank)?;
        Some(Prior {
            node,
            children: self.children,
        })
    }
}

impl Nodes<'_> {
    // What a look-up finds where no record has this rank: in the layer the place of the record with its point. It goes group by group
    // of one scale, in each to the place of the one address with that scale and the point, and then to the first place of the next
    // scale.
    #[tactic(auto, using(crate::proofs::LayerLaws::none_exact, crate::proofs::LayerLaws::all_high))]
    fn place_by_point(&self, layer: u32, rank: u64) -> Option<usize>
        requires { Absent self.now.bytes.now rank }
        ensures { FoundAt self.now.bytes.now layer rank result }
    {
        if layer <= scale_part(rank) {
            return None;
        }
        let n = self.len();
        let mut start = 0;
        while start < n {
            let scale = scale_part(self.rank_at(start));
            if layer <= scale {
                return None;
            }
            let key = of_parts(scale, point_part(rank));
            let at = self.first_from(start, key);
            if at == n {
                return None;
            }
            if self.rank_at(at) == key {
                return Some(at);
            }
            start = self.first_from(at, of_parts(scale + 1, 0));
        }
        None
    }

    // The place of the record that a look-up of this rank finds: the one with this exact address, or else in the layer the one with
    // its point.
    #[tactic(auto, using(crate::proofs::LayerLaws::none_there, crate::proofs::LayerLaws::exact_found))]
    fn place_of(&self, layer: u32, rank: u64) -> Option<usize>
        ensures { FoundAt self.now.bytes.now layer rank result }
    {
        let n = self.len();
        let at = self.halve(0, n, rank);
        if at < n && self.rank_at(at) == rank {
            return Some(at);
        }
        self.place_by_point(layer, rank)
    }

    // The record that a look-up of this rank finds, where no two in the layer have one point.
    #[tactic(auto, using(crate::proofs::LayerLaws::found_one, crate::proofs::LayerLaws::found_no))]
    pub fn find(&self, layer: u32, rank: u64) -> Option<Record>
        requires { points_differ self.now.bytes.now layer ≡ true }
        ensures { result ≡ find_record layer rank (records self.now.bytes.now) }
    {
        let at = self.place_of(layer, rank)?;
        Some(record_at(self.bytes, at))
    }
}
