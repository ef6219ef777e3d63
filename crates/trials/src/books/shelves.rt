// The two shelves, and beside them the same pledges in plain numbers.
use super::plain::{BONDED, GUARANTEED, Lodged, Plain};
use kinds::{Bond, Guarantee};
use pledge::Pledge;
use shelf::Held;
use std::alloc::{AllocError, Global};

#[derive(Drop)]
pub struct Shelves {
    pub guarantees: Vec<Option<Held<Guarantee>>>,
    pub bonds: Vec<Option<Held<Bond>>>,
    pub plain: Plain,
}

impl Shelves {
    /// Empty shelves with so many places for guarantees and for bonds.
    pub(crate) fn empty(
        guarantees: usize,
        bonds: usize,
        heap: Global,
    ) -> Result<Shelves, AllocError> {
        Ok(Shelves {
            guarantees: (0..guarantees).map(|_| None).collect(heap)?,
            bonds: (0..bonds).map(|_| None).collect(heap)?,
            plain: Plain::empty(guarantees, bonds, heap)?,
        })
    }

    /// Puts a guarantee of so many thousands at a place, or nothing where the number is no guarantee's.
    pub(crate) fn put_guarantee(&mut self, place: u8, account: u8, thousands: u32, expiry: u16) {
        let pledge = Guarantee::new(thousands, expiry);
        put(&mut self.guarantees, place, account, pledge);
        let lodged = lodged(account, thousands, 1_000_000, expiry);
        self.plain.put(GUARANTEED, place, lodged);
    }

    /// Puts a bond of so many blocks at a place, or nothing where the number is no bond's.
    pub(crate) fn put_bond(&mut self, place: u8, account: u8, blocks: u16, expiry: u16) {
        let pledge = Bond::new(blocks, expiry);
        put(&mut self.bonds, place, account, pledge);
        let lodged = lodged(account, u32::from(blocks), 10_000, expiry);
        self.plain.put(BONDED, place, lodged);
    }
}

fn put<P: Pledge>(shelf: &mut [Option<Held<P>>], place: u8, account: u8, pledge: Option<P>) {
    if let Some(slot) = shelf.get_mut(usize::from(place)) {
        *slot = pledge.map(|pledge| Held { account, pledge });
    }
}

/// A pledge of at most so much, or nothing where the amount is no pledge's.
fn lodged(account: u8, amount: u32, most: u32, expiry: u16) -> Option<Lodged> {
    let lodged = Lodged {
        account,
        amount,
        expiry,
    };
    (1..=most).contains(&amount).then_some(lodged)
}
