// One change more in a store.
ghost use Rattle.std.specs.Prelude.{◌≡◌, true, ◌+◌, ◌-◌, ◌≤◌, ◌<◌};
ghost use Rattle.history.specs.Scan.{after};
ghost use Rattle.history.specs.Store.{sound_store};
ghost use Rattle.history.specs.Keep.{Fits, under, word_of, roomed, pushed, kept_with};
ghost use Rattle.history.specs.Support.Pen.{store_at, pen_of, Aligned};

use crate::scan::CODE_WORTH;
use crate::{Ring, Scan, Store, WORDS};

// A change of the believed code: the orbit count and the number of its crossing, and the new code, 15 for disconnected.
#[derive(Clone, Copy)]
pub struct Change {
    pub orbit: u32,
    pub number: u32,
    pub code: u8,
}

// Where a store is written on: the ring's bounds, and where a scan of its words ends. The words are lent, so that none is copied.
#[derive(Clone, Copy)]
pub struct Pen {
    pub oldest: usize,
    pub used: usize,
    pub scan: Scan,
}

impl Change {
    fn word(self) -> u16
        requires { Fits self }
        ensures { result ≡ word_of self }
    {
        self.number as u16 + CODE_WORTH * u16::from(self.code)
    }

    // Whether it goes under the last header: it has the same orbit count, and fewer than 64 changes stand under it.
    #[tactic(auto, unfolding(crate::specs::Keep::under))]
    fn is_under(self, scan: Scan) -> bool
        ensures { result ≡ under scan self }
    {
        scan.takes() && scan.orbit() == self.orbit
    }
}

impl Pen {
    #[tactic(auto, using(crate::proofs::Keeps::bounds))]
    pub fn of(store: &Store) -> Pen
        requires { sound_store store.now ≡ true }
        ensures { result ≡ pen_of store.now }
    {
        Pen {
            oldest: store.oldest,
            used: store.used,
            scan: store.ring().tally().scan,
        }
    }

    // Makes room for n words more: a group has at least 4 words and a change needs at most 4, so one group less is enough.
    #[tactic(auto, using(crate::proofs::Keeps::bounds, crate::proofs::Pens::oldest_group), unfolding(crate::specs::Keep::roomed, crate::specs::Keep::less_one, crate::specs::Keep::group_in))]
    fn make_room(&mut self, words: &[u16; WORDS], n: usize)
        requires { (Aligned words.now self.old) × (n ≤ 4) }
        ensures { (store_at words.now self.new ≡ roomed n (store_at words.now self.old)) × (self.new.scan ≡ self.old.scan) × (self.new.oldest < 1024) × (self.new.used + n ≤ 1024) }
    {
        if self.used + n <= WORDS {
            return;
        }
        let ring = Ring {
            words,
            oldest: self.oldest,
            used: self.used,
        };
        let gone = 3 + ring.leading();
        self.oldest = (self.oldest + gone) % WORDS;
        self.used -= gone;
    }

    #[tactic(auto, unfolding(crate::specs::Keep::pushed))]
    fn push(&mut self, words: &mut [u16; WORDS], word: u16)
        requires { (self.old.oldest < 1024) × (self.old.used < 1024) }
        ensures { (store_at words.new self.new ≡ pushed (store_at words.old self.old) word) × (self.new.scan ≡ after self.old.scan word) }
    {
        words[(self.oldest + self.used) % WORDS] = word;
        self.used += 1;
        self.scan = self.scan.after(word);
    }

    // Under the last header, or under a header of its own.
    #[tactic(auto, unfolding(crate::specs::Keep::pushed))]
    pub fn keep(&mut self, words: &mut [u16; WORDS], change: Change)
        requires { (Aligned words.old self.old) × (Fits change) }
        ensures { (store_at words.new self.new ≡ kept_with (store_at words.old self.old) change) × (Aligned words.new self.new) }
    {
        if change.is_under(self.scan) {
            self.make_room(words, 1);
        } else {
            self.make_room(words, 4);
            self.push(words, 0);
            self.push(words, (change.orbit / 65536) as u16);
            self.push(words, (change.orbit % 65536) as u16);
        }
        self.push(words, change.word());
    }
}
