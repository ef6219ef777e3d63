ghost use Rattle.std.specs.Prelude.{◌*◌, ◌≤◌};
ghost use Rattle.pledge.specs.Limits.{last_expiry};
ghost use Rattle.kinds.specs.Amounts.{thousand, top_thousands};

/// A promise to pay: `left` cents can still be drawn, up to and on the expiry day.
#[derive(Debug, PartialEq, Eq, Drop)]
pub struct Guarantee {
    pub(crate) expiry: u16,
    pub(crate) left: u64,
    ghost days: { expiry ≤ last_expiry },
    ghost most: { left ≤ top_thousands * thousand },
}
