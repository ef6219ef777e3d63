// The second calculation: plain tables, amounts in i128, and for each call the list of all its causes of refusal, each worked
// out by itself, of which the first that holds is given.
use super::call::{Answer, Call, Stated};
use super::plain::{BONDED, GUARANTEED, Lodged, Plain};

mod collateral;
mod notices;

const MOST_UNITS: i128 = 1_000;

/// In cents, as all amounts of money.
const MOST_DEPOSIT: i128 = 10_000_000_000_000;

const MOST_BALANCE: i128 = 1_000_000_000_000_000;

const LAST_DAY: i128 = 60_000;

#[derive(Clone, Copy, PartialEq)]
enum Hour {
    Blank,
    Morning,
    Calling,
    Afternoon,
}

/// Where the notice of an account is.
#[derive(Clone, Copy, PartialEq)]
enum Notice {
    Open,
    /// Open, and a slip holds it.
    Held,
}

/// An account. As a new one, an empty place owes nothing, asks for nothing and has nothing.
#[derive(Clone, Copy, Default)]
struct Row {
    security: u8,
    owed: i128,
    applied: i128,
    barred: bool,
    notice: Option<Notice>,
    balance: i128,
}

#[derive(Drop)]
pub struct Second {
    day: i128,
    hour: Hour,
    prices: [i128; 8],
    accounts: [Option<Row>; 64],
    // What an offer says is never asked for again, so each place only tells whether one stands there.
    offered: [bool; 256],
}

impl Second {
    pub(crate) fn new() -> Second {
        Second {
            day: 0,
            hour: Hour::Blank,
            prices: [0; 8],
            accounts: [None; 64],
            offered: [false; 256],
        }
    }

    /// Makes the call.
    pub(crate) fn answer(&mut self, plain: &mut Plain, call: Call) -> Answer {
        self.made(plain, call).unwrap_or_else(Answer::Refused)
    }

    /// Makes the call, or gives the number of its refusal.
    fn made(&mut self, plain: &mut Plain, call: Call) -> Result<Answer, u8> {
        match call {
            Call::Open(prices) => self.open(prices),
            Call::Enrol(account, firm, security) => self.enrol(account, i128::from(firm), security),
            Call::Offer(place, security, units, rate, commission) => {
                self.offer(
                    place,
                    security,
                    i128::from(units),
                    i128::from(rate),
                    i128::from(commission),
                )
            }
            Call::Withdraw(place) => self.withdraw(place),
            Call::Apply(account, units) => self.apply(account, i128::from(units)),
            Call::Return(account, units) => self.return_units(account, i128::from(units)),
            Call::Deposit(account, cents) => self.deposit(account, i128::from(cents)),
            Call::Guarantee(account, place, amount, expiry) => {
                let lodged = Lodged {
                    account,
                    amount,
                    expiry,
                };
                self.pledge(plain, GUARANTEED, place, lodged)
            }
            Call::Bonds(account, place, blocks, expiry) => {
                let lodged = Lodged {
                    account,
                    amount: u32::from(blocks),
                    expiry,
                };
                self.pledge(plain, BONDED, place, lodged)
            }
            Call::Release(shelf, place) => self.release(plain, shelf, place),
            Call::Ten => self.ten(plain),
            Call::Examine(account) => self.examine(plain, account),
            Call::Wait(account) | Call::WaitAstray(account) => self.wait(account),
        }
    }

    fn open(&mut self, prices: [u32; 8]) -> Result<Answer, u8> {
        let is_outside = |price: &u32| outside(i128::from(*price), 1, 1_000_000);
        none_of(&[
            (2, prices.iter().any(is_outside)),
            (3, !self.is_one_of(&[Hour::Blank, Hour::Afternoon])),
            (16, self.day >= LAST_DAY),
        ])?;
        self.prices = prices.map(i128::from);
        self.hour = Hour::Morning;
        self.day = self.day.wrapping_add(1);
        Ok(Answer::Number(self.day))
    }

    fn enrol(&mut self, account: u8, firm: i128, security: u8) -> Result<Answer, u8> {
        none_of(&[
            (1, account > 63 || security > 7),
            (2, outside(firm, 1, 9_999)),
            (3, !self.is_one_of(&[Hour::Morning])),
            (4, self.account(account).is_some()),
        ])?;
        let new = Row {
            security,
            ..Row::default()
        };
        self.put(account, new);
        Ok(Answer::Done)
    }

    fn offer(
        &mut self,
        place: u16,
        security: u8,
        units: i128,
        rate: i128,
        commission: i128,
    ) -> Result<Answer, u8> {
        let hundred_rates = rate.wrapping_mul(100);
        let seven_prices = self.price(security).wrapping_mul(7);
        let in_range = !outside(units, 1, MOST_UNITS)
            && !outside(rate, 0, 70_000)
            && !outside(commission, 0, 10);
        none_of(&[
            (1, place > 255 || security > 7),
            (2, !in_range),
            (3, !self.is_one_of(&[Hour::Morning])),
            (4, self.stands(place)),
            (8, hundred_rates > seven_prices),
        ])?;
        self.stand(place, true);
        Ok(Answer::Done)
    }

    /// Nothing is lent yet, so nothing is unpaid.
    fn withdraw(&mut self, place: u16) -> Result<Answer, u8> {
        none_of(&[
            (1, place > 255),
            (3, !self.is_one_of(&[Hour::Morning])),
            (5, !self.stands(place)),
        ])?;
        self.stand(place, false);
        Ok(Answer::Unpaid(0, 0))
    }

    fn apply(&mut self, account: u8, units: i128) -> Result<Answer, u8> {
        let place = self.account(account);
        let row = place.unwrap_or_default();
        let applied = row.applied.wrapping_add(units);
        none_of(&[
            (1, account > 63),
            (2, outside(units, 1, MOST_UNITS)),
            (3, !self.is_one_of(&[Hour::Morning])),
            (5, place.is_none()),
            (6, row.barred),
            (7, applied.wrapping_add(row.owed) > MOST_UNITS),
        ])?;
        self.put(account, Row { applied, ..row });
        Ok(Answer::Number(applied))
    }

    fn return_units(&mut self, account: u8, units: i128) -> Result<Answer, u8> {
        let place = self.account(account);
        let row = place.unwrap_or_default();
        let owed = row.owed.wrapping_sub(units);
        none_of(&[
            (1, account > 63),
            (2, outside(units, 1, MOST_UNITS)),
            (3, !self.is_one_of(&[Hour::Morning])),
            (5, place.is_none()),
            (7, owed < 0),
        ])?;
        self.put(account, Row { owed, ..row });
        Ok(Answer::Number(owed))
    }

    fn deposit(&mut self, account: u8, cents: i128) -> Result<Answer, u8> {
        let place = self.account(account);
        let row = place.unwrap_or_default();
        let balance = row.balance.wrapping_add(cents);
        none_of(&[
            (1, account > 63),
            (2, outside(cents, 1, MOST_DEPOSIT)),
            (3, self.is_one_of(&[Hour::Blank])),
            (5, place.is_none()),
            (10, row.notice == Some(Notice::Held)),
            (14, balance > MOST_BALANCE),
        ])?;
        self.put(account, Row { balance, ..row });
        Ok(Answer::Number(balance))
    }

    /// The statement of an account, or the number of its refusal.
    pub(crate) fn statement(&self, plain: &Plain, account: u8) -> Result<Stated, u8> {
        let place = self.account(account);
        none_of(&[(1, account > 63 || !plain.is_whole()), (5, place.is_none())])?;
        let row = place.unwrap_or_default();
        let floor = self.floor(row);
        let cover = self.cover(plain, account);
        Ok(Stated {
            owed: row.owed,
            applied: row.applied,
            barred: row.barred,
            balance: row.balance,
            cover,
            floor,
            target: self.target(row),
            headroom: cover.wrapping_sub(floor),
        })
    }

    /// Bit n is set while account n has an open notice: from the last account to the first, each is the next binary digit.
    pub(crate) fn notice_word(&self) -> u64 {
        let digits = self
            .accounts
            .iter()
            .rev()
            .map(|place| place.is_some_and(|row| row.notice.is_some()));
        digits.fold(0, |word: u64, digit| {
            word.wrapping_mul(2).wrapping_add(u64::from(digit))
        })
    }

    fn floor(&self, row: Row) -> i128 {
        self.measure(row, 107)
    }

    fn target(&self, row: Row) -> i128 {
        self.measure(row, 114)
    }

    /// So many per cent of what is owed, and 120 per cent of what is applied for.
    fn measure(&self, row: Row, part: i128) -> i128 {
        let price = self.price(row.security);
        let owed = per_cent(part, value_of(row.owed, price));
        let applied = per_cent(120, value_of(row.applied, price));
        owed.wrapping_add(applied)
    }

    /// The balance, and what the pledges count for: a guarantee in full, a block at 90 per cent of its face of 100,000 dollars.
    fn cover(&self, plain: &Plain, account: u8) -> i128 {
        let thousands = self.alive(&plain.guaranteed, account);
        let blocks = self.alive(&plain.bonded, account);
        let guaranteed = in_cents(thousands.wrapping_mul(1_000));
        let face = in_cents(blocks.wrapping_mul(100_000));
        let pledged = guaranteed.wrapping_add(per_cent(90, face));
        let balance = self.account(account).map_or(0, |row| row.balance);
        balance.wrapping_add(pledged)
    }

    /// The amounts of the account's pledges that expire on a later day.
    fn alive(&self, shelf: &[Option<Lodged>], account: u8) -> i128 {
        let mut amounts: i128 = 0;
        // No chain: the trials by the hour look at a place some hundred million times, and with a chain they take more than twice
        // as long where every step is checked, which is past the minute that a test has.
        for place in shelf {
            if let Some(lodged) = place
                && lodged.account == account
                && i128::from(lodged.expiry) > self.day
            {
                amounts = amounts.wrapping_add(i128::from(lodged.amount));
            }
        }
        amounts
    }

    pub(crate) fn is_morning(&self) -> bool {
        self.is_one_of(&[Hour::Morning])
    }

    pub(crate) fn is_calling(&self) -> bool {
        self.is_one_of(&[Hour::Calling])
    }

    /// The price of a security in cents, or 0 where there is no such security.
    pub(crate) fn price(&self, security: u8) -> i128 {
        self.prices.get(usize::from(security)).copied().unwrap_or(0)
    }

    fn account(&self, account: u8) -> Option<Row> {
        *self.accounts.get(usize::from(account))?
    }

    fn put(&mut self, account: u8, row: Row) {
        if let Some(place) = self.accounts.get_mut(usize::from(account)) {
            *place = Some(row);
        }
    }

    fn stands(&self, place: u16) -> bool {
        self.offered.get(usize::from(place)) == Some(&true)
    }

    fn stand(&mut self, place: u16, offered: bool) {
        if let Some(known) = self.offered.get_mut(usize::from(place)) {
            *known = offered;
        }
    }

    fn is_one_of(&self, hours: &[Hour]) -> bool {
        hours.contains(&self.hour)
    }
}

/// That no cause holds, or the number of the first that does.
// A table of each cause and whether it holds is read at a glance; with a `then_some` behind each it is not.
fn none_of(causes: &[(u8, bool)]) -> Result<(), u8> {
    match causes.iter().find(|(_, holds)| *holds) {
        Some((number, _)) => Err(*number),
        None => Ok(()),
    }
}

fn outside(value: i128, low: i128, high: i128) -> bool {
    value < low || high < value
}

/// What the shares of so many units are worth, in cents.
fn value_of(units: i128, price: i128) -> i128 {
    let shares = units.wrapping_mul(1_000);
    shares.wrapping_mul(price)
}

fn per_cent(part: i128, whole: i128) -> i128 {
    whole.wrapping_mul(part).wrapping_div(100)
}

fn in_cents(dollars: i128) -> i128 {
    dollars.wrapping_mul(100)
}
