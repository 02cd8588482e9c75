// The status history store (document 02, P6; the manual's chapter 5): the last changes of one input's believed code, in 1,024 words.
#![tactic(auto)]

mod keep;
mod read;
mod ring;
mod scan;

ghost use Rattle.std.specs.Prelude.{◌≡◌, ◌<◌, ◌≤◌, Some, None};
ghost use Rattle.laws.specs.Base.{if};
ghost use Rattle.history.specs.Store.{fresh_store, sound_store};
ghost use Rattle.history.specs.Support.Tally.{tally_of};

pub use keep::{Change, Pen};
use ring::Ring;
pub use scan::{Scan, Tally};

pub const WORDS: usize = 1024;

// A ring: the words in use are those from the place of the oldest on.
#[derive(Clone, Copy, Debug, PartialEq, Eq)]
pub struct Store {
    pub words: [u16; WORDS],
    pub oldest: usize,
    pub used: usize,
}

impl Store {
    #[tactic(auto, unfolding(crate::specs::Store::fresh_store))]
    pub fn fresh() -> Store
        ensures { result ≡ fresh_store }
    {
        Store {
            words: [0; WORDS],
            oldest: 0,
            used: 0,
        }
    }

    // Whether its words in use can be split into groups.
    pub fn is_sound(&self) -> bool
        ensures { result ≡ sound_store self.now }
    {
        self.tally().is_some()
    }

    // Where a scan of its words in use ends and how many changes they are, if they can be split into groups.
    #[tactic(auto, unfolding(crate::specs::Store::sound_store))]
    fn tally(&self) -> Option<Tally>
        ensures { result ≡ if (sound_store self.now) (Some (tally_of self.now)) None }
    {
        if WORDS < self.used || WORDS <= self.oldest {
            return None;
        }
        let tally = self.ring().tally();
        tally.scan.ends().then_some(tally)
    }

    // The words in use, of a store whose bounds are in range.
    fn ring(&self) -> Ring<'_>
        requires { (self.now.oldest < 1024) × (self.now.used ≤ 1024) }
        ensures { (result.words.now ≡ self.now.words) × (result.oldest ≡ self.now.oldest) × (result.used ≡ self.now.used) }
    {
        Ring {
            words: &self.words,
            oldest: self.oldest,
            used: self.used,
        }
    }
}
