/// Numbers as if by chance: the same in every run.
#[derive(Drop)]
pub struct Dice {
    state: u64,
}

impl Dice {
    pub(crate) fn new(seed: u64) -> Dice {
        Dice { state: seed }
    }

    /// The low bits of the state repeat soon, so only the high ones are given out.
    fn roll(&mut self) -> u64 {
        self.state = self
            .state
            .wrapping_mul(6_364_136_223_846_793_005)
            .wrapping_add(1_442_695_040_888_963_407);
        self.state >> 20
    }

    /// A number below the bound, or 0 where there is none.
    pub(crate) fn below(&mut self, bound: u64) -> u64 {
        self.roll().checked_rem(bound).unwrap_or(0)
    }

    /// Whether one chance out of so many came up.
    pub(crate) fn one_in(&mut self, chances: u64) -> bool {
        self.below(chances) == 0
    }

    /// A number from `low` to `high`, often near one of them, and now and then just outside.
    pub(crate) fn near<N: TryFrom<u64> + Default>(&mut self, low: u64, high: u64) -> N
    where
        N::Error: Drop,
    {
        let wide = high.saturating_sub(low).saturating_add(1);
        fitting(match self.below(32) {
            0 => low.saturating_sub(1),
            1 => high.saturating_add(1),
            2..=4 => low,
            5..=7 => high,
            8 | 9 => low.saturating_add(1),
            10 | 11 => high.saturating_sub(1),
            _ => low.saturating_add(self.below(wide)),
        })
    }

    /// A number below the bound, of any type that has those below it.
    pub(crate) fn pick<N: TryFrom<u64> + Default>(&mut self, bound: u64) -> N
    where
        N::Error: Drop,
    {
        fitting(self.below(bound))
    }
}

/// The number in another type. Each is asked for where it fits, so none becomes a zero.
fn fitting<N: TryFrom<u64> + Default>(number: u64) -> N
where
    N::Error: Drop,
{
    N::try_from(number).unwrap_or_default()
}
