// Slips that the book gave, kept until they are spent, and slips that another book gave.
use book::{Book, Examined, Slip};
use kinds::{Bond, Guarantee};
use shelf::Held;

/// A slip that may be let go, so that a test may end anywhere: a book that knows nothing of it then spends it.
pub struct Kept {
    slip: Slip,
}

impl Kept {
    pub(crate) fn new(slip: Slip) -> Kept {
        Kept { slip }
    }

    pub(crate) fn slip(self) -> Slip {
        let Kept { slip } = self;
        slip
    }
}

impl Drop for Kept {
    fn drop(self) {
        let Kept { slip } = self;
        let _ = Book::new().wait(slip);
    }
}

/// The last slip that was given for each account, if it is not spent.
#[derive(Drop)]
pub struct Slips {
    kept: [Option<Kept>; 64],
}

impl Slips {
    pub(crate) fn none() -> Slips {
        Slips {
            kept: [const { None }; 64],
        }
    }

    pub(crate) fn keep(&mut self, account: u8, kept: Kept) {
        if let Some(slot) = self.kept.get_mut(usize::from(account)) {
            *slot = Some(kept);
        }
    }

    /// The slip kept for an account, or else a slip that another book gave.
    pub(crate) fn take(&mut self, account: u8) -> Option<Kept> {
        self.own(account).or_else(|| astray(account))
    }

    fn own(&mut self, account: u8) -> Option<Kept> {
        self.kept.get_mut(usize::from(account))?.take()
    }
}

/// A slip that another book gave for an account, if it has a place for it.
pub(crate) fn astray(account: u8) -> Option<Kept> {
    let guarantees: [Option<Held<Guarantee>>; 128] = [const { None }; 128];
    let bonds: [Option<Held<Bond>>; 128] = [const { None }; 128];
    let mut other = Book::new();
    let _ = other.open([1; 8]);
    let _ = other.enrol(account, 1, 0);
    let _ = other.apply(account, 1);
    let _ = other.ten(&guarantees, &bonds);
    match other.examine(&guarantees, &bonds, account).ok()? {
        Examined::Met => None,
        Examined::Short(_, slip) => Some(Kept::new(slip)),
    }
}
