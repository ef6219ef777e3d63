ghost use Rattle.std.specs.Prelude.{◌*◌, ◌≤◌};
ghost use Rattle.shelf.specs.Limits.{top_cover};

/// What an account's pledges on both shelves cover.
#[derive(Clone, Copy, Debug, PartialEq, Eq)]
pub struct PledgedCents {
    pub cents: u64,
    ghost most: { cents ≤ 2 * top_cover },
}
