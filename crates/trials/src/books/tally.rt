// How often each call was made and what it was answered, so that no cause is left out by chance.
use super::call::{Answer, Call};
use std::alloc::{AllocError, Global};
use std::collections::BTreeMap;
use std::process::Abort;

/// A call without its values.
#[derive(Clone, Copy, Debug, PartialEq, Eq, PartialOrd, Ord)]
pub enum Kind {
    Open,
    Enrol,
    Offer,
    Withdraw,
    Apply,
    Return,
    Deposit,
    Guarantee,
    Bonds,
    Release,
    Ten,
    /// An examination that finds cover short, or is refused.
    ExamineShort,
    Wait,
    /// An examination that finds cover at the target.
    ExamineMet,
}

/// A kind of call, and the causes for which it has to be refused.
pub type Row = (Kind, &'static [u8]);

/// For each kind how often the call was refused for each cause, and at `None` how often it was not refused.
#[derive(Drop)]
pub struct Tally {
    counts: BTreeMap<(Kind, Option<u8>), usize>,
}

impl Tally {
    pub(crate) fn new(heap: Global) -> Tally {
        Tally {
            counts: BTreeMap::new(heap),
        }
    }

    pub(crate) fn count(&mut self, call: Call, answer: Answer) -> Result<(), AllocError> {
        let cause = match answer {
            Answer::Refused(number) => Some(number),
            _ => None,
        };
        let count = self
            .counts
            .entry((kind_of(call, answer), cause))?
            .or_insert(0);
        *count = count.saturating_add(1);
        Ok(())
    }

    fn at(&self, kind: Kind, cause: Option<u8>) -> usize {
        self.counts.get(&(kind, cause)).copied().unwrap_or(0)
    }

    /// Every call came through fifty times, but for the return of what nobody owes, and was refused ten times for each cause.
    pub(crate) fn is_enough(&self, rt: &impl Abort, rows: &[Row]) {
        for (kind, causes) in rows {
            let accepted = self.at(*kind, None);
            let enough = if *kind == Kind::Return {
                accepted == 0
            } else {
                accepted >= 50
            };
            assert!(rt; enough, "{kind:?} came through {accepted} times");
            for cause in causes.iter() {
                let refused = self.at(*kind, Some(*cause));
                assert!(rt;
                    refused >= 10,
                    "{kind:?} was refused {refused} times for {cause}"
                );
            }
        }
    }
}

fn kind_of(call: Call, answer: Answer) -> Kind {
    match call {
        Call::Open(_) => Kind::Open,
        Call::Enrol(..) => Kind::Enrol,
        Call::Offer(..) => Kind::Offer,
        Call::Withdraw(_) => Kind::Withdraw,
        Call::Apply(..) => Kind::Apply,
        Call::Return(..) => Kind::Return,
        Call::Deposit(..) => Kind::Deposit,
        Call::Guarantee(..) => Kind::Guarantee,
        Call::Bonds(..) => Kind::Bonds,
        Call::Release(..) => Kind::Release,
        Call::Ten => Kind::Ten,
        Call::Examine(_) if answer == Answer::Met => Kind::ExamineMet,
        Call::Examine(_) => Kind::ExamineShort,
        Call::Wait(_) | Call::WaitAstray(_) => Kind::Wait,
    }
}
