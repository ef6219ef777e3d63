ghost use Rattle.std.specs.Prelude.{◌≤◌, length};

/// The bytes end before the field does. `place` is the cursor's `start`.
#[derive(Clone, Copy, Debug, PartialEq, Eq)]
pub struct Short {
    pub place: usize,
}

/// Lent bytes and the place `at` of the next field in them. `start` is the place that a fault tells.
// A place and not the rest of the bytes: a memo tells where in the file it begins.
#[derive(Drop)]
pub struct Cursor<'a> {
    pub bytes: &'a [u8],
    pub at: usize,
    pub start: usize,
    ghost within: { at ≤ length bytes.now },
}
