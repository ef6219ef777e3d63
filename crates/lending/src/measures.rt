// What a loan has to be covered with.
ghost use Rattle.std.specs.Prelude.{◌≡◌, ◌+◌, ◌*◌, ◌≤◌};
ghost use Rattle.lending.specs.Measures.{per_cent, floor_of, target_of, top_units, top_price, top_floor};

/// The shares in a unit.
pub const SHARES: u64 = 1_000;

/// What one cent of price comes to for a unit, at so many per cent of its value.
const FOR_APPLIED: u64 = 120 * SHARES / 100;

const OWED_FLOOR: u64 = 107 * SHARES / 100;

const OWED_TARGET: u64 = 114 * SHARES / 100;

// Both public measures take plain numbers, as accounts and callers hold them, so each says how large they may be.

// Floor and target differ in one number, and both are `measure`: two names, because callers and clauses speak of the one or the
// other, and of no number between.
/// The cover below which an account gets a notice.
pub fn floor(owed: u16, applied: u16, price: u32) -> u64
    requires units { owed + applied ≤ top_units }
    requires price { price ≤ top_price }
    ensures value { result ≡ floor_of owed applied price }
    ensures most { result ≤ top_floor }
{
    measure(OWED_FLOOR, owed, applied, price)
}

/// The cover that meets a notice.
pub fn target(owed: u16, applied: u16, price: u32) -> u64
    requires units { owed + applied ≤ top_units }
    requires price { price ≤ top_price }
    ensures value { result ≡ target_of owed applied price }
    ensures most { result ≤ top_floor }
{
    measure(OWED_TARGET, owed, applied, price)
}

fn measure(for_owed: u64, owed: u16, applied: u16, price: u32) -> u64
    requires part { for_owed ≤ per_cent 120 }
    requires units { owed + applied ≤ top_units }
    requires price { price ≤ top_price }
    ensures value { result ≡ (for_owed * owed + per_cent 120 * applied) * price }
    ensures most { result ≤ top_floor }
{
    (for_owed * owed as u64 + FOR_APPLIED * applied as u64) * price as u64
}
