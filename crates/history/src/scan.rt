// The words of a store, split into groups: a header of three words, then 1 to 64 changes.
ghost use Rattle.std.specs.Prelude.{◌≡◌, ◌<◌, ◌≤◌, ◌%◌, ◌/◌};
ghost use Rattle.history.specs.Scan.{takes, ends, is_change, opens, after, orbit_of, change_of};

use crate::Change;

// What a code is worth in the word of a change: it has the top four bits, the crossing number those below.
pub(crate) const CODE_WORTH: u16 = 4096;

// Where a scan stands: 0 where it begins, 1 and 2 in a header, 3 after it, 3 + n after the n-th change under it, 68 where the words
// make no group. The two words are those of the last header's orbit count.
#[derive(Clone, Copy)]
pub struct Scan {
    pub place: u8,
    pub high: u16,
    pub low: u16,
}

// Where a scan of all words ends, and how many of them are changes.
#[derive(Clone, Copy)]
pub struct Tally {
    pub scan: Scan,
    pub changes: usize,
}

impl Scan {
    pub(crate) const START: Scan = Scan {
        place: 0,
        high: 0,
        low: 0,
    };

    // Whether a change may come next.
    #[tactic(auto, unfolding(crate::specs::Scan::takes))]
    pub(crate) fn takes(self) -> bool
        ensures { result ≡ takes self }
    {
        matches!(self.place, 3..67)
    }

    // Whether the words may end here.
    #[tactic(auto, unfolding(crate::specs::Scan::ends))]
    pub(crate) fn ends(self) -> bool
        ensures { result ≡ ends self }
    {
        matches!(self.place, 0 | 4..=67)
    }

    pub(crate) fn is_change(self, word: u16) -> bool
        ensures { result ≡ is_change self word }
    {
        self.takes() && CODE_WORTH <= word
    }

    // The orbit count of the last header.
    pub(crate) fn orbit(self) -> u32
        ensures { result ≡ orbit_of self }
    {
        65536 * u32::from(self.high) + u32::from(self.low)
    }

    // The change that a word is where the scan stands.
    pub(crate) fn change(self, word: u16) -> Change
        ensures { result ≡ change_of self word }
    {
        Change {
            orbit: self.orbit(),
            number: u32::from(word % CODE_WORTH),
            code: (word / CODE_WORTH) as u8,
        }
    }

    // Whether a word is the 0 that opens a header here.
    fn opens(self, word: u16) -> bool
        ensures { result ≡ opens self word }
    {
        self.ends() && word == 0
    }

    #[tactic(auto, using(crate::proofs::Scans::takes_within), unfolding(crate::specs::Scan::after))]
    pub(crate) fn after(self, word: u16) -> Scan
        ensures { result ≡ after self word }
    {
        match self.place {
            1 => Scan {
                place: 2,
                high: word,
                ..Scan::START
            },
            2 => Scan {
                place: 3,
                low: word,
                ..self
            },
            _ if self.is_change(word) => Scan {
                place: self.place + 1,
                ..self
            },
            _ if self.opens(word) => Scan {
                place: 1,
                ..Scan::START
            },
            _ => Scan {
                place: 68,
                ..Scan::START
            },
        }
    }
}
