// The prices of an opening, from the part of the file that has them.
ghost use Rattle.std.specs.Prelude.{◌≡◌, ◌+◌, ◌*◌, ◌≤◌, length};
ghost use Rattle.cursor.specs.Bytes.{be32};
ghost use Rattle.instruction.specs.Prices.{EightPrices};

use cursor::Number;
use std::array;

/// How many bytes the prices take.
pub(crate) const PRICES: usize = 32;

/// The eight prices that a part of 32 bytes holds; `None` where it has another length.
pub fn read_prices(part: &[u8]) -> Option<[u32; 8]>
    ensures { EightPrices result part.now }
{
    if part.len() != PRICES {
        return None;
    }
    Some(array::from_fn(|security| price(part, 4 * security)))
}

fn price(part: &[u8], at: usize) -> u32
    requires { at + 4 ≤ length part.now }
    ensures { result ≡ be32 part.now at }
{
    u32::from_bytes(&part[at..at + 4])
}
