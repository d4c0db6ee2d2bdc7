// Where a call is turned back, and by which number. A refusal is of one of two kinds: by a reason alone, or by one that lies in a
// node and names it.
ghost use Rattle.std.specs.Prelude.{◌≡◌};
ghost use Rattle.priors.specs.Refusals.{checked_number, reason_number, node_reason_number, number_of};
ghost use Rattle.priors.specs.declared.refusals.Refusal.TheVariants.{Plain};

use crate::addresses::Address;

#[derive(Clone, Copy, Debug, PartialEq, Eq)]
pub enum Refusal {
    Plain(Reason),
    AtNode(NodeReason, Address),
}

#[derive(Clone, Copy, Debug, PartialEq, Eq)]
pub enum Reason {
    TableLengths = 1,
    TableEntry = 2,
    PriorSizes = 3,
    NodeOrder = 4,
    Links = 5,
    ChainOrder = 6,
    ZeroPrior = 7,
    Window = 8,
    Form = 9,
    PathLength = 10,
    PathsFull = 11,
    BookFull = 12,
    OutputShort = 13,
    TrainingInput = 16,
    BaselineInput = 17,
    OneKnot = 18,
    SharedPoint = 22,
}

#[derive(Clone, Copy, Debug, PartialEq, Eq)]
pub enum NodeReason {
    MissingChild = 14,
    PastTable = 15,
}

impl From<Reason> for Refusal {
    ghost from_gives = { λ reason r. r ≡ Plain reason };

    fn from(reason: Reason) -> Self {
        Refusal::Plain(reason)
    }
}

impl From<Reason> for u32 {
    ghost from_gives = { λ reason n. n ≡ reason_number reason };

    fn from(reason: Reason) -> Self {
        reason as u32
    }
}

impl From<NodeReason> for u32 {
    ghost from_gives = { λ reason n. n ≡ node_reason_number reason };

    fn from(reason: NodeReason) -> Self {
        reason as u32
    }
}

// The refusal's number.
impl From<Refusal> for u32 {
    ghost from_gives = { λ r n. n ≡ number_of r };

    fn from(r: Refusal) -> Self {
        match r {
            Refusal::Plain(reason) => u32::from(reason),
            Refusal::AtNode(reason, _) => u32::from(reason),
        }
    }
}

// A number, as a call of C answers; 0 where nothing is refused.
pub fn number<T: Drop>(tested: Result<T, Reason>) -> u32
    ensures { result ≡ checked_number tested }
{
    match tested {
        Ok(_) => 0,
        Err(reason) => u32::from(reason),
    }
}
