ghost use Rattle.std.specs.Prelude.{◌<◌};
ghost use Rattle.lending.specs.Sound.{account_places};

/// A slip holds the notice of an account that an examination found short. It has to be spent: a program that lets one go, or
/// spends it twice, is refused before it runs.
pub struct Slip {
    pub(crate) account: u8,
    ghost known: { account < account_places },
}
