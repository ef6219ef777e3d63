ghost use Rattle.std.specs.Prelude.{◌≡◌, ℕ, ◌<◌, ◌==◌, count_ones};
ghost use Rattle.bits.specs.Bit.{bit, with_bit, without_bit};

use std::marker::Model;

/// A set of places, seen as the word whose bit `n` is set where place `n` is in it.
#[derive(Clone, Copy, Debug, PartialEq, Eq)]
pub struct Places {
    word: u64,
}

impl Model for Places {
    ghost Value = { ℕ };

    ghost view = { λ p. p.word };

    ghost inverse = { λ n. record { word = n } };
}

// The bound on a place stands at three methods: callers count through places with a plain number or bring one from outside that
// they have tested, and a type with the bound would be made from that number for each bit.
impl Places {
    /// No place.
    pub fn none() -> Places
        ensures { result ≡ 0 }
    {
        Places { word: 0 }
    }

    /// Whether a place is in the set.
    pub fn contains(self, place: u8) -> bool
        requires { place < 64 }
        ensures { result ≡ bit self place }
    {
        (self.word >> place) % 2 == 1
    }

    /// Puts a place into the set.
    pub fn insert(&mut self, place: u8)
        requires { place < 64 }
        ensures { self.new ≡ with_bit self.old place }
    {
        self.word |= 1 << place;
    }

    /// Takes a place out of the set.
    pub fn remove(&mut self, place: u8)
        requires { place < 64 }
        ensures { self.new ≡ without_bit self.old place }
    {
        self.word &= !(1 << place);
    }

    /// How many places are in the set.
    pub fn len(self) -> u32
        ensures { result ≡ count_ones self }
    {
        self.word.count_ones()
    }

    /// Whether no place is in the set.
    pub fn is_empty(self) -> bool
        ensures { result ≡ (self == 0) }
    {
        self.word == 0
    }
}

impl From<Places> for u64 {
    ghost from_gives = { λ places word. word ≡ places };

    fn from(places: Places) -> u64 {
        places.word
    }
}

impl From<u64> for Places {
    ghost from_gives = { λ word places. places ≡ word };

    fn from(word: u64) -> Places {
        Places { word }
    }
}
