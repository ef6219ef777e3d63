// Notices, and the slips that hold them.
use super::{Hour, Notice, Row, Second, none_of};
use crate::books::call::Answer;
use crate::books::plain::Plain;

impl Second {
    pub(super) fn ten(&mut self, plain: &Plain) -> Result<Answer, u8> {
        none_of(&[
            (1, !plain.is_whole()),
            (3, !self.is_one_of(&[Hour::Morning])),
        ])?;
        self.hour = Hour::Calling;
        let mut notices: i128 = 0;
        // No chain: each account is looked at in the table that the notices before it are written into.
        for account in 0..64 {
            if self.is_short(plain, account) {
                self.set_notice(account, Some(Notice::Open));
                notices = notices.wrapping_add(1);
            }
        }
        Ok(Answer::Number(notices))
    }

    fn is_short(&self, plain: &Plain, account: u8) -> bool {
        let row = self.account(account).unwrap_or_default();
        let borrows = row.owed > 0 || row.applied > 0;
        borrows && self.cover(plain, account) < self.floor(row)
    }

    fn set_notice(&mut self, account: u8, notice: Option<Notice>) {
        if let Some(row) = self.account(account) {
            self.put(account, Row { notice, ..row });
        }
    }

    fn notice(&self, account: u8) -> Option<Notice> {
        self.account(account)?.notice
    }

    /// Whether an account has an open notice.
    pub(crate) fn is_called(&self, account: u8) -> bool {
        self.notice(account).is_some()
    }

    pub(super) fn examine(&mut self, plain: &Plain, account: u8) -> Result<Answer, u8> {
        let place = self.account(account);
        let row = place.unwrap_or_default();
        none_of(&[
            (1, !plain.is_whole() || account > 63),
            (3, !self.is_one_of(&[Hour::Calling])),
            (5, place.is_none()),
            (9, row.notice != Some(Notice::Open)),
        ])?;
        let lack = self.target(row).wrapping_sub(self.cover(plain, account));
        if lack <= 0 {
            self.set_notice(account, None);
            return Ok(Answer::Met);
        }
        self.set_notice(account, Some(Notice::Held));
        Ok(Answer::Short(lack, account))
    }

    pub(super) fn wait(&mut self, account: u8) -> Result<Answer, u8> {
        none_of(&[(9, self.notice(account) != Some(Notice::Held))])?;
        self.set_notice(account, Some(Notice::Open));
        Ok(Answer::Done)
    }
}
