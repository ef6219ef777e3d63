// Sums with a sign, each in a function of its own. The bounds of a balance stand at each: how low it can be depends on how often
// the book has charged, so an account by itself does not tell it, and the ledger that does is not at hand here.
ghost use Rattle.std.specs.Prelude.{◌≡◌, ◌≤◌, true, pos, ◌+ℤ◌, ◌≤ℤ◌, int_lt};
ghost use Rattle.lending.specs.Measures.{top_floor};
ghost use Rattle.lending.specs.Sound.{top_balance, lowest};
ghost use Rattle.table.specs.Limits.{last_day};
ghost use Rattle.margin.specs.Margins.{Lacks};

use crate::pledged_cents::PledgedCents;

/// Cover: the balance, and what the account's pledges cover.
pub fn cover(balance: i64, pledged: PledgedCents) -> i64
    requires low { lowest last_day true ≤ℤ balance }
    requires high { balance ≤ℤ pos top_balance }
    ensures { result ≡ balance +ℤ pos pledged.cents }
{
    balance + pledged.cents as i64
}

/// By how much cover is below a measure, if it is.
pub(crate) fn shortfall(measure: u64, cover: i64) -> Option<i64>
    requires measure { measure ≤ top_floor }
    requires low { lowest last_day true ≤ℤ cover }
    ensures { Lacks measure cover result }
{
    let measure = measure as i64;
    if cover < measure {
        Some(measure - cover)
    } else {
        None
    }
}

/// Whether cover is below a measure.
pub(crate) fn is_below(cover: i64, measure: u64) -> bool
    requires { measure ≤ top_floor }
    ensures { result ≡ int_lt cover (pos measure) }
{
    cover < measure as i64
}
