ghost use Rattle.std.proofs.Props.{props};
ghost use Rattle.table.specs.Sound.{Sound};

use super::table::Table;

/// A table, and what always holds of it.
// That its days have begun is no part of that: eleven alone asks for it, and in the type it would be asked of every call. So the
// other calls say that they keep it.
#[derive(Drop)]
pub struct Ledger {
    pub table: Table,
    ghost sound: { Sound table } by { Prim.hlevel props },
}
