// A walk over the listed nodes, ascending: an ending begins a node, and the children after it are its own.
ghost use Rattle.std.specs.Prelude.{◌≡◌, ◌+◌, ◌≤◌};
ghost use Rattle.entries.specs.Limits.{max_entries};
ghost use Rattle.divergence.specs.Parts.{part, leading};

use crate::evidence::Evidence;
use entries::entries::LentEntries;
use entries::keys::ENDING;

// The first place from i on whose entry is an ending, or the end.
// A place and no Option: it bounds the node's entries.
pub fn children_end(entries: &LentEntries, i: usize) -> usize
    requires { i ≤ entries.now.used }
    ensures { result ≡ i + leading (part entries.now.bytes.now i entries.now.used) }
{
    for at in i..entries.used {
        if entries.key(at).kind == ENDING {
            return at;
        }
    }
    entries.used
}

// The nodes from a place on, where an ending stands unless it is the end.
#[derive(Clone, Copy)]
pub struct Nodes<'a> {
    pub entries: LentEntries<'a>,
    pub place: usize,
    pub ghost few: { entries.used ≤ max_entries },
    pub ghost within: { place ≤ entries.used },
    pub ghost at_ending: { leading (part entries.bytes.now place entries.used) ≡ 0 },
}

impl<'a> Nodes<'a> {
    ghost use Rattle.divergence.specs.Parts.{nodes_from};
    ghost use Rattle.divergence.specs.Listing.{nodes_left};

    // All listed nodes.
    pub fn of(entries: LentEntries<'a>) -> Self
        requires { entries.used ≤ max_entries }
        ensures { nodes_left result ≡ nodes_from entries.entry.bytes.now 0 entries.entry.used }
    {
        Nodes {
            entries,
            place: children_end(&entries, 0),
        }
    }
}

// Each node with its evidence.
impl<'a> Iterator for Nodes<'a> {
    ghost use Rattle.std.specs.Iterator.{YieldsFirstBy, item_count};
    ghost use Rattle.divergence.specs.Listing.{listed_node, nodes_left};

    type Item = Evidence<'a>;

    ghost next_gives = { YieldsFirstBy listed_node nodes_left };

    ghost remaining = { item_count nodes_left };

    fn next(&mut self) -> Option<Evidence<'a>> {
        if self.place == self.entries.used {
            return None;
        }
        let node = Evidence::at(self.entries, self.place);
        self.place = node.entries.used;
        Some(node)
    }
}
