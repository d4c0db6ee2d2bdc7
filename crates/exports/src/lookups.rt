// A child in its node's prior, for a user. It changes nothing but two lent numbers: none leaves the count and writes the number of
// records read, and a refusal leaves both.
ghost use Rattle.std.specs.Prelude.{◌≡◌};
ghost use Rattle.priors.specs.Address.{rank_of};
ghost use Rattle.priors.specs.Priors.{lent_priors};
ghost use Rattle.priors.specs.Children.{child_asked, count_told};
ghost use Rattle.exports.specs.Codes.{code, written};
ghost use Rattle.exports.specs.Outputs.{read_of, itself};

use crate::answers::tell_child;
use priors::addresses::Address;
use priors::lookups::LentPriors;

// Numbers 3 to 7 and 22; none where the node has no prior, or its prior no such child.
#[unsafe(no_mangle)]
pub extern "C" fn teakpool_child(
    nodes: &[u8],
    children: &[u8],
    floor: i32,
    scale: i32,
    point: u32,
    child_scale: i32,
    child_point: u32,
    count: &mut u32,
    read: &mut u32,
) -> u32
    ensures value { result ≡ code (count_told (child_asked (lent_priors nodes.now children.now floor) (rank_of scale point) (rank_of child_scale child_point))) }
    ensures count_after { count.new ≡ written itself (count_told (child_asked (lent_priors nodes.now children.now floor) (rank_of scale point) (rank_of child_scale child_point))) count.old }
    ensures read_after { read.new ≡ written read_of (child_asked (lent_priors nodes.now children.now floor) (rank_of scale point) (rank_of child_scale child_point)) read.old }
{
    let priors = LentPriors {
        nodes,
        children,
        floor,
    };
    let child = Address {
        scale: child_scale,
        point: child_point,
    };
    let answer = priors.child(Address { scale, point }, child);
    tell_child(answer, count, read)
}
