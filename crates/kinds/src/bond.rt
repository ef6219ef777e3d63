ghost use Rattle.std.specs.Prelude.{◌≤◌};
ghost use Rattle.pledge.specs.Limits.{last_expiry};
ghost use Rattle.kinds.specs.Amounts.{top_blocks};

/// Bonds: `blocks` blocks can still be sold, up to and on the expiry day.
#[derive(Debug, PartialEq, Eq, Drop)]
pub struct Bond {
    pub(crate) expiry: u16,
    pub(crate) blocks: u16,
    ghost days: { expiry ≤ last_expiry },
    ghost most: { blocks ≤ top_blocks },
}
