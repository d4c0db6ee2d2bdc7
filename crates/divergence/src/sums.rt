// The three sums of a divergence: each term is a fixed chain of operations, rounded once each.
ghost use Rattle.std.specs.Prelude.{◌≡◌, ◌+◌, ◌<◌, length};
ghost use Rattle.divergence.specs.Divergence.{no_sums, term, ending_term, no_less, closed};

use priors::tables::LentTables;

#[derive(Clone, Copy, Debug, PartialEq)]
pub struct Sums {
    pub mine: f64,
    pub other: f64,
    pub dig: f64,
}

// Below 0 becomes 0. Not `x.max(0.0)`, which makes a NaN 0 too.
#[tactic(auto, unfolding(crate::specs::Divergence::no_less))]
fn no_less(x: f64) -> f64
    ensures { result ≡ no_less x }
{
    if x < 0.0 { 0.0 } else { x }
}

impl Sums {
    // The sums before any term.
    pub fn new() -> Self
        ensures { result ≡ no_sums }
    {
        Sums {
            mine: 0.0,
            other: 0.0,
            dig: 0.0,
        }
    }

    // One more term, of a prior count a with evidence e; t is the prior total.
    #[tactic(auto, unfolding(crate::specs::Divergence::term))]
    pub fn with_term(self, tables: &LentTables, t: u64, a: u32, e: u32) -> Self
        requires posterior_in_bounds { e + a < length tables.now.g.now }
        requires prior_in_bounds { a < length tables.now.d.now }
        requires total_in_bounds { t < length tables.now.d.now }
        ensures { result ≡ term tables.now.g.now tables.now.d.now t self a e }
    {
        let (g, d) = (tables.g, tables.d);
        let prior = a as usize;
        Sums {
            mine: self.mine + g[prior],
            other: self.other + g[e as usize + prior],
            dig: self.dig - f64::from(e) * (d[prior] - d[t as usize]),
        }
    }

    // The ending's term: with a prior singleton of 0 there is none, though the textbook's is infinite.
    #[tactic(auto, unfolding(crate::specs::Divergence::ending_term))]
    pub fn with_ending(self, tables: &LentTables, t: u64, a: u32, e: u32) -> Self
        requires posterior_in_bounds { e + a < length tables.now.g.now }
        requires prior_in_bounds { a < length tables.now.d.now }
        requires total_in_bounds { t < length tables.now.d.now }
        ensures { result ≡ ending_term tables.now.g.now tables.now.d.now t self a e }
    {
        if 0 < a {
            self.with_term(tables, t, a, e)
        } else {
            self
        }
    }

    // The divergence that the sums close to, left to right; u is the total of prior and evidence.
    #[tactic(auto, unfolding(crate::specs::Divergence::closed))]
    pub fn closed(self, tables: &LentTables, t: u64, u: u64) -> f64
        requires total_in_bounds { t < length tables.now.g.now }
        requires posterior_in_bounds { u < length tables.now.g.now }
        ensures { result ≡ closed tables.now.g.now t u self }
    {
        let g = tables.g;
        no_less(g[t as usize] - self.mine - g[u as usize] + self.other + self.dig)
    }
}
