// The pledges on the two shelves in plain numbers.
use std::alloc::{AllocError, Global};

/// The number of the shelf with the guarantees, and of that with the bonds.
// Numbers, since a release may name any other as well.
pub const GUARANTEED: u8 = 0;

pub const BONDED: u8 = 1;

/// A pledge in plain numbers.
#[derive(Clone, Copy)]
pub struct Lodged {
    pub account: u8,
    /// Thousands of dollars of a guarantee, or blocks of a bond.
    pub amount: u32,
    pub expiry: u16,
}

impl Lodged {
    /// The account, the expiry and the amount at so many cents for each thousand or block.
    pub(crate) fn seen(&self, cents: u64) -> (u8, u16, u64) {
        let amount = u64::from(self.amount).wrapping_mul(cents);
        (self.account, self.expiry, amount)
    }
}

/// What stands at each place of each shelf.
#[derive(Drop)]
pub struct Plain {
    pub guaranteed: Vec<Option<Lodged>>,
    pub bonded: Vec<Option<Lodged>>,
}

impl Plain {
    /// Empty shelves with so many places for guarantees and for bonds.
    pub(crate) fn empty(
        guarantees: usize,
        bonds: usize,
        heap: Global,
    ) -> Result<Plain, AllocError> {
        Ok(Plain {
            guaranteed: vec![in heap; None; guarantees]?,
            bonded: vec![in heap; None; bonds]?,
        })
    }

    /// Each shelf has 128 places.
    pub(crate) fn is_whole(&self) -> bool {
        self.guaranteed.len() == 128 && self.bonded.len() == 128
    }

    /// What stands at a place of a shelf.
    pub(crate) fn at(&self, shelf: u8, place: u8) -> Option<Lodged> {
        let shelf = match shelf {
            GUARANTEED => &self.guaranteed,
            BONDED => &self.bonded,
            _ => return None,
        };
        *shelf.get(usize::from(place))?
    }

    pub(crate) fn put(&mut self, shelf: u8, place: u8, lodged: Option<Lodged>) {
        match shelf {
            GUARANTEED => put_on(&mut self.guaranteed, place, lodged),
            BONDED => put_on(&mut self.bonded, place, lodged),
            _ => {}
        }
    }
}

fn put_on(shelf: &mut [Option<Lodged>], place: u8, lodged: Option<Lodged>) {
    if let Some(slot) = shelf.get_mut(usize::from(place)) {
        *slot = lodged;
    }
}
