// The key of an entry: its node, its kind and its child, as ranks. Keys order as entries do: by node, then kind, then child.
ghost use Rattle.std.specs.Prelude.{◌≡◌};
ghost use Rattle.entries.specs.Keys.{end_key, child_key, key_value};

// The kind is a number, and an ending's child that of two zeros: the C interface lends entries so, and what is lent may hold any number
// until its form is tested.
#[derive(Clone, Copy, Debug, PartialEq, Eq, PartialOrd, Ord)]
pub struct Key {
    pub node: u64,
    pub kind: u32,
    pub child: u64,
}

// The kind of a node's ending, and that of a child under it.
pub const ENDING: u32 = 0;

pub const CHILD: u32 = 1;

// The child of an ending: the rank of the address of two zeros, 2^63.
pub const NO_CHILD: u64 = 9223372036854775808;

impl Key {
    // The key of a node's ending.
    #[tactic(auto, unfolding(crate::specs::Keys::key_value, crate::specs::Keys::end_key, priors::specs::Address::rank, priors::specs::Address::lift))]
    pub fn ending(node: u64) -> Self
        ensures { key_value result ≡ end_key node }
    {
        Key {
            node,
            kind: ENDING,
            child: NO_CHILD,
        }
    }

    // The key of a child under a node.
    #[tactic(auto, unfolding(crate::specs::Keys::key_value, crate::specs::Keys::child_key))]
    pub fn child(node: u64, child: u64) -> Self
        ensures { key_value result ≡ child_key node child }
    {
        Key {
            node,
            kind: CHILD,
            child,
        }
    }
}
