// What a slip tells.
ghost use Rattle.std.specs.Prelude.{◌≡◌};

use crate::slip::Slip;

impl Slip {
    /// The account whose notice it holds.
    pub fn account(&self) -> u8
        ensures { result ≡ self.now.account }
    {
        self.account
    }
}
