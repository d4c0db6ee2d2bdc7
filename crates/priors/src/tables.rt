// The lent tables: G holds ln gamma at each whole number, D digamma. They have one length from 2 to 1,048,576, and every entry
// from index 1 on lies within -2^40 to 2^40. Index 0 is never read.
ghost use Rattle.std.specs.Prelude.{◌≡◌, IfOk};
ghost use Rattle.priors.specs.Refusals.{checked_number};
ghost use Rattle.priors.specs.Tables.{within, table_entries_fit, lengths_fit, tables_refusal};

use crate::refusals::Reason;

pub const MAX_TABLE: usize = 1048576;

const LOWEST: f64 = -1099511627776.0;

const HIGHEST: f64 = 1099511627776.0;

// Tables as a call is lent them: two slices, since the C interface lends two.
#[derive(Clone, Copy)]
pub struct LentTables<'a> {
    pub g: &'a [f64],
    pub d: &'a [f64],
}

// Tables that passed 1 and 2.
#[derive(Clone, Copy)]
pub struct Tables<'a> {
    pub g: &'a [f64],
    pub d: &'a [f64],
    pub ghost passed: { tables_refusal g.now d.now ≡ 0 },
}

impl<'a> LentTables<'a> {
    // Numbers 1 and 2.
    #[tactic(auto, unfolding(crate::specs::Tables::tables_refusal))]
    pub fn check(&self) -> Result<Tables<'a>, Reason>
        ensures number { checked_number result ≡ tables_refusal self.now.g.now self.now.d.now }
        ensures lent { IfOk result (λ t. (t.g.now ≡ self.now.g.now) × (t.d.now ≡ self.now.d.now)) }
    {
        let (g, d) = (self.g, self.d);
        if !lengths_fit(g, d) {
            return Err(Reason::TableLengths);
        }
        if !entries_fit(g) || !entries_fit(d) {
            return Err(Reason::TableEntry);
        }
        Ok(Tables { g, d })
    }
}

impl<'a> Tables<'a> {
    pub fn lent(&self) -> LentTables<'a>
        ensures g { result.g.now ≡ self.now.g.now }
        ensures d { result.d.now ≡ self.now.d.now }
    {
        LentTables {
            g: self.g,
            d: self.d,
        }
    }
}

fn is_within(x: f64) -> bool
    ensures { result ≡ within x }
{
    x >= LOWEST && x <= HIGHEST
}

fn entries_fit(t: &[f64]) -> bool
    ensures { result ≡ table_entries_fit t.now }
{
    t.iter().skip(1).all(|&x| is_within(x))
}

#[tactic(auto, unfolding(crate::specs::Tables::lengths_fit))]
fn lengths_fit(g: &[f64], d: &[f64]) -> bool
    ensures { result ≡ lengths_fit g.now d.now }
{
    g.len() == d.len() && 2 <= g.len() && g.len() <= MAX_TABLE
}
