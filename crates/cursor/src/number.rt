ghost use Rattle.std.specs.Prelude.{◌≡◌, ℕ, ◌+◌, ◌≤◌, List, length};
ghost use Rattle.std.proofs.Common.{rules};
ghost use Rattle.std.proofs.lemmas.Grind.{common_steps};
ghost use Rattle.cursor.specs.Bytes.{byte, be16, be32, be64, part};

/// A number that a file writes in so many bytes, the high one first.
pub trait Number: Copy {
    ghost WIDTH: { ℕ };

    /// The number that stands at a place of a list of bytes.
    ghost read: { List ℕ → ℕ → Self };

    /// How many bytes it takes.
    const WIDTH: usize;

    /// The number that these bytes write, all of them.
    fn from_bytes(bytes: &[u8]) -> Self
        requires { length bytes.now ≡ WIDTH }
        ensures { result ≡ read bytes.now 0 };

    // A number stands at a place as it stands in the part that begins there.
    ghost stands: { (bs : List ℕ) (i : ℕ) → i + WIDTH ≤ length bs → read (part bs i WIDTH) 0 ≡ read bs i };
}

// An impl for each type, written out: std's `from_be_bytes` belongs to no trait.
impl Number for u8 {
    ghost WIDTH = { 1 };

    ghost read = { byte };

    const WIDTH: usize = 1;

    fn from_bytes(bytes: &[u8]) -> u8 {
        bytes[0]
    }

    ghost stands = { Prim.search (rules, common_steps) };
}

impl Number for u16 {
    ghost WIDTH = { 2 };

    ghost read = { be16 };

    const WIDTH: usize = 2;

    fn from_bytes(bytes: &[u8]) -> u16 {
        u16::from_be_bytes(*bytes.first_chunk().unwrap())
    }

    ghost stands = { Prim.search (rules, common_steps) };
}

impl Number for u32 {
    ghost WIDTH = { 4 };

    ghost read = { be32 };

    const WIDTH: usize = 4;

    fn from_bytes(bytes: &[u8]) -> u32 {
        u32::from_be_bytes(*bytes.first_chunk().unwrap())
    }

    ghost stands = { Prim.search (rules, common_steps) };
}

impl Number for u64 {
    ghost WIDTH = { 8 };

    ghost read = { be64 };

    const WIDTH: usize = 8;

    fn from_bytes(bytes: &[u8]) -> u64 {
        u64::from_be_bytes(*bytes.first_chunk().unwrap())
    }

    ghost stands = { Prim.search (rules, common_steps) };
}
