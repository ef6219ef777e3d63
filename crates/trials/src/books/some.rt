// Calls by chance, with values near the limits and between them.
use super::call::Call;
use super::plain::Plain;
use super::run::Run;
use super::second::Second;
use crate::dice::Dice;

pub const TOP_DEPOSIT: u64 = 10_000_000_000_000;

/// How often each call comes up that needs no shelf and no slip: the last of a die's faces, from 0 to 15, that stand for it.
/// The face before the enrols is for an opening, and those past the returns are for deposits.
pub struct Faces {
    pub enrol: u64,
    pub offer: u64,
    pub withdraw: u64,
    pub apply: u64,
    pub give_back: u64,
}

const FACES: Faces = Faces {
    enrol: 3,
    offer: 6,
    withdraw: 8,
    apply: 11,
    give_back: 12,
};

/// Mostly one of the first `few` accounts, which come up often enough to fill.
fn some_account(dice: &mut Dice, few: u64) -> u8 {
    match dice.below(24) {
        0 => dice.near(0, 63),
        1 => 64,
        _ => dice.pick(few),
    }
}

/// Mostly one with an open notice, if there is any.
fn some_called(dice: &mut Dice, second: &Second, few: u64) -> u8 {
    let any = dice.pick(few);
    if dice.one_in(4) {
        return any;
    }
    (0..64)
        .filter(|account| second.is_called(*account) && dice.one_in(3))
        .last()
        .unwrap_or(any)
}

fn some_place(dice: &mut Dice) -> u16 {
    match dice.below(16) {
        0 => dice.near(0, 255),
        1 => 256,
        _ => dice.pick(12),
    }
}

/// Mostly one of few, so that it is often taken.
fn some_shelf_place(dice: &mut Dice) -> u8 {
    match dice.below(16) {
        0 | 1 => dice.near(0, 127),
        _ => dice.pick(24),
    }
}

fn some_price(dice: &mut Dice) -> u32 {
    let high = if dice.one_in(3) { 300 } else { 1_000_000 };
    dice.near(1, high)
}

fn some_prices(dice: &mut Dice) -> [u32; 8] {
    std::array::from_fn(|_| some_price(dice))
}

pub(crate) fn good_prices(dice: &mut Dice) -> [u32; 8] {
    some_prices(dice).map(|price| price.clamp(1, 1_000_000))
}

/// Mostly at most seven per cent of the price, or just above.
fn some_rate(dice: &mut Dice, price: i128) -> u32 {
    if dice.one_in(8) {
        return dice.near(0, 70_000);
    }
    let most = price.wrapping_mul(7).wrapping_div(100);
    dice.near(0, u64::try_from(most).unwrap_or(0))
}

fn some_offer(dice: &mut Dice, second: &Second) -> Call {
    let security = dice.near(0, 7);
    let rate = some_rate(dice, second.price(security));
    Call::Offer(
        some_place(dice),
        security,
        dice.near(1, 1_000),
        rate,
        dice.near(0, 10),
    )
}

/// Small numbers as well, so that an account can take many.
fn some_units(dice: &mut Dice) -> u16 {
    let most = if dice.one_in(2) { 20 } else { 1_000 };
    dice.near(1, most)
}

fn some_cents(dice: &mut Dice, much: bool) -> u64 {
    let most = if much { TOP_DEPOSIT } else { 1_000_000 };
    dice.near(1, most)
}

/// Seldom much, which would cover all that an account can apply for.
fn seldom_much(dice: &mut Dice) -> bool {
    dice.one_in(6)
}

/// Around day 1, or much later.
fn some_expiry(dice: &mut Dice) -> u16 {
    match dice.below(8) {
        0 => 0,
        1 => 1,
        2 | 3 => 2,
        4 => u16::MAX,
        _ => dice.near(2, 60_000),
    }
}

/// Thousands for a guarantee, mostly few.
fn some_thousands(dice: &mut Dice, few: bool) -> u32 {
    dice.near(1, if few { 100 } else { 1_000_000 })
}

/// Blocks for a bond, mostly few.
fn some_blocks(dice: &mut Dice, few: bool) -> u16 {
    dice.near(1, if few { 10 } else { 10_000 })
}

fn mostly_few(dice: &mut Dice) -> bool {
    !dice.one_in(4)
}

/// The pledge of a guarantee or of bonds, of an amount that may be.
fn some_pledging(dice: &mut Dice, account: u8) -> Call {
    let place = some_shelf_place(dice);
    let expiry = some_expiry(dice);
    let is_guarantee = dice.one_in(2);
    let few = mostly_few(dice);
    if is_guarantee {
        let thousands = some_thousands(dice, few).clamp(1, 1_000_000);
        Call::Guarantee(account, place, thousands, expiry)
    } else {
        let blocks = some_blocks(dice, few).clamp(1, 10_000);
        Call::Bonds(account, place, blocks, expiry)
    }
}

fn some_release(dice: &mut Dice) -> Call {
    let shelf = if dice.one_in(16) {
        dice.near(1, 254)
    } else {
        dice.pick(2)
    };
    Call::Release(shelf, some_shelf_place(dice))
}

/// The release of a pledge that backs an account, if there is any.
fn some_own_release(dice: &mut Dice, plain: &Plain, account: u8) -> Call {
    let shelf = dice.pick(2);
    let any = dice.pick(24);
    let backs = |place: u8| {
        plain
            .at(shelf, place)
            .is_some_and(|lodged| lodged.account == account)
    };
    let place = (0..128)
        .filter(|place| backs(*place) && dice.one_in(3))
        .last()
        .unwrap_or(any);
    Call::Release(shelf, place)
}

/// A slip is only ever for an account that may be.
fn some_wait(dice: &mut Dice, account: u8) -> Call {
    if dice.one_in(8) {
        Call::WaitAstray(account)
    } else {
        Call::Wait(account)
    }
}

/// An account for a place, or an application of it for units.
pub(crate) fn some_start(dice: &mut Dice, account: u8) -> Call {
    if dice.one_in(2) {
        Call::Enrol(account, 1, dice.pick(8))
    } else {
        Call::Apply(account, some_units(dice))
    }
}

/// Numbers of places that two shelves may not have.
pub(crate) fn some_crooked_places(dice: &mut Dice) -> (usize, usize) {
    match dice.below(5) {
        0 => (127, 128),
        1 => (128, 127),
        2 => (129, 128),
        3 => (128, 129),
        _ => (dice.pick(128), dice.pick(300)),
    }
}

impl Run {
    /// A call that needs no shelf and no slip, by the faces of a die. A deposit is of much money or of little.
    pub(crate) fn some_plain_call<M: FnOnce(&mut Dice) -> bool>(
        &mut self,
        faces: &Faces,
        much: M,
    ) -> Call
        requires { M.IsAlwaysCallable much }
    {
        let few = self.few;
        let dice = &mut self.dice;
        match dice.below(16) {
            0 => Call::Open(some_prices(dice)),
            face if face <= faces.enrol => {
                Call::Enrol(
                    some_account(dice, few),
                    dice.near(1, 9_999),
                    dice.near(0, 7),
                )
            }
            face if face <= faces.offer => some_offer(dice, &self.pair.second),
            face if face <= faces.withdraw => Call::Withdraw(some_place(dice)),
            face if face <= faces.apply => Call::Apply(some_account(dice, few), some_units(dice)),
            face if face <= faces.give_back => {
                Call::Return(some_account(dice, few), some_units(dice))
            }
            _ => {
                let account = some_account(dice, few);
                let much = much(dice);
                Call::Deposit(account, some_cents(dice, much))
            }
        }
    }

    /// About what an account lacks to its target, or any deposit where it lacks nothing.
    pub(crate) fn some_payment(&mut self, account: u8) -> Call {
        let told = self
            .pair
            .second
            .statement(&self.pair.shelves.plain, account);
        let lack = told.map_or(0, |told| told.target.wrapping_sub(told.cover));
        let dice = &mut self.dice;
        let cents = match u64::try_from(lack) {
            Ok(lack) if lack > 0 => dice.near(lack, lack),
            _ => {
                let much = seldom_much(dice);
                some_cents(dice, much)
            }
        };
        Call::Deposit(account, cents)
    }

    /// A call of any kind.
    pub(crate) fn some_call(&mut self) -> Call {
        let dice = &mut self.dice;
        let account = some_account(dice, self.few);
        match dice.below(8) {
            0 => Call::Ten,
            1 => some_pledging(dice, account),
            2 => some_release(dice),
            3 => Call::Examine(account),
            4 => some_wait(dice, account.min(63)),
            _ => self.some_plain_call(&FACES, seldom_much),
        }
    }

    /// A call that leaves the hour as it is, mostly of those that count in the morning.
    pub(crate) fn some_morning_call(&mut self) -> Call {
        let dice = &mut self.dice;
        let account = some_account(dice, self.few);
        match dice.below(32) {
            0 => Call::Examine(account),
            1 => some_wait(dice, account.min(63)),
            2 | 3 => some_release(dice),
            4 | 5 => some_own_release(dice, &self.pair.shelves.plain, account),
            6..=12 => some_pledging(dice, account),
            _ => self.some_plain_call(&FACES, seldom_much),
        }
    }

    /// A call mostly of those that count in the calling hour.
    pub(crate) fn some_calling_call(&mut self) -> Call {
        let dice = &mut self.dice;
        let account = some_called(dice, &self.pair.second, self.few);
        match dice.below(32) {
            0..=2 => self.some_call(),
            3..=7 => some_pledging(dice, account),
            8..=11 => some_own_release(dice, &self.pair.shelves.plain, account),
            12..=17 => self.some_payment(account),
            18..=25 => Call::Examine(account),
            _ => some_wait(dice, account),
        }
    }

    /// Puts a pledge at some place in the place of what was there. An amount out of range leaves the place empty.
    pub(crate) fn put_pledge<E: FnOnce(&mut Dice) -> u16, F: FnOnce(&mut Dice) -> bool>(
        &mut self,
        expiry: E,
        few: F,
    )
        requires expiry { E.IsAlwaysCallable expiry }
        requires few { F.IsAlwaysCallable few }
    {
        let dice = &mut self.dice;
        let shelves = &mut self.pair.shelves;
        let place = dice.pick(128);
        let account = some_account(dice, self.few);
        let expiry = expiry(dice);
        let is_guarantee = dice.one_in(2);
        let few = few(dice);
        if is_guarantee {
            shelves.put_guarantee(place, account, some_thousands(dice, few), expiry);
        } else {
            shelves.put_bond(place, account, some_blocks(dice, few), expiry);
        }
    }

    pub(crate) fn put_some_pledge(&mut self) {
        self.put_pledge(some_expiry, mostly_few);
    }
}
