// A chain of child records, walked from its first record to its last along the links.
ghost use Rattle.std.specs.Prelude.{◌≡◌, true, ◌≤◌};
ghost use Rattle.priors.specs.Priors.{record_count, every_child, next_link_fits};

use crate::records::{Record, record_at};

// The records that a link and the links of these lead to; a link of 0 leads nowhere, as in a record.
#[derive(Clone, Copy)]
pub struct Chain<'a> {
    pub children: &'a [u8],
    pub link: u32,
    pub ghost link_fits: { link ≤ record_count children.now },
    pub ghost links_rise: { every_child children.now (next_link_fits children.now) ≡ true },
}

// Each record that is left, from the first.
impl Iterator for Chain<'_> {
    ghost use Rattle.std.specs.Iterator.{YieldsFirst, item_count};
    ghost use Rattle.priors.specs.Chains.{records_left};

    type Item = Record;

    ghost next_gives = { YieldsFirst records_left };

    ghost remaining = { item_count records_left };

    #[tactic(auto, using(crate::proofs::ChainLaws::chain_end, crate::proofs::ChainLaws::chain_step, crate::proofs::ChainLaws::next_small))]
    fn next(&mut self) -> Option<Record> {
        if self.link == 0 {
            return None;
        }
        let record = record_at(self.children, self.link as usize - 1);
        self.link = record.link;
        Some(record)
    }
}
