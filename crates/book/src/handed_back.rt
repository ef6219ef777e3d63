use crate::slip::Slip;
use table::Refusal;

/// A refused call hands its slip back.
pub struct HandedBack {
    pub why: Refusal,
    pub slip: Slip,
}
