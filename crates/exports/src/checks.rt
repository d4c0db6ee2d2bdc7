// The checks of tables and priors by themselves.
ghost use Rattle.std.specs.Prelude.{◌≡◌};
ghost use Rattle.priors.specs.Tables.{tables_refusal};
ghost use Rattle.priors.specs.Priors.{layer_of, priors_refusal};

use priors::lookups::LentPriors;
use priors::refusals::number;
use priors::tables::LentTables;

// Numbers 1 and 2.
#[unsafe(no_mangle)]
pub extern "C" fn teakpool_check_tables(g: &[f64], d: &[f64]) -> u32
    ensures { result ≡ tables_refusal g.now d.now }
{
    number(LentTables { g, d }.check())
}

// Numbers 3 to 7 and 22.
#[unsafe(no_mangle)]
pub extern "C" fn teakpool_check_priors(nodes: &[u8], children: &[u8], floor: i32) -> u32
    ensures { result ≡ priors_refusal nodes.now children.now (layer_of floor) }
{
    let priors = LentPriors {
        nodes,
        children,
        floor,
    };
    number(priors.check())
}
