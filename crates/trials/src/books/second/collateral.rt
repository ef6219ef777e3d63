// Pledges taken onto the shelves and handed back.
use super::{Hour, Notice, Second, none_of};
use crate::books::call::Answer;
use crate::books::plain::{Lodged, Plain};

impl Second {
    pub(super) fn pledge(
        &self,
        plain: &mut Plain,
        shelf: u8,
        place: u8,
        lodged: Lodged,
    ) -> Result<Answer, u8> {
        let account = self.account(lodged.account);
        let row = account.unwrap_or_default();
        none_of(&[
            (1, !plain.is_whole() || lodged.account > 63 || place > 127),
            (3, self.is_one_of(&[Hour::Blank])),
            (4, plain.at(shelf, place).is_some()),
            (5, account.is_none()),
            (10, row.notice == Some(Notice::Held)),
            (15, i128::from(lodged.expiry) <= self.day),
        ])?;
        plain.put(shelf, place, Some(lodged));
        Ok(Answer::Number(self.cover(plain, lodged.account)))
    }

    /// The place is emptied to see what cover is left, and filled again where the call is refused.
    pub(super) fn release(&self, plain: &mut Plain, shelf: u8, place: u8) -> Result<Answer, u8> {
        let lodged = plain.at(shelf, place);
        let account = lodged.and_then(|lodged| self.account(lodged.account));
        let row = account.unwrap_or_default();
        plain.put(shelf, place, None);
        let left = lodged.map_or(0, |lodged| self.cover(plain, lodged.account));
        let pays = lodged.is_some_and(|lodged| self.day <= i128::from(lodged.expiry));
        let released = none_of(&[
            (1, !plain.is_whole() || shelf > 1 || place > 127),
            (3, self.is_one_of(&[Hour::Blank])),
            (5, account.is_none()),
            (10, row.notice == Some(Notice::Held)),
            (12, pays && left < self.target(row)),
        ]);
        if released.is_err() {
            plain.put(shelf, place, lodged);
        }
        released.map(|()| Answer::Number(left))
    }
}
