// The words in use of a store's ring.
ghost use Rattle.std.specs.Prelude.{◌≡◌, ◌<◌, ◌≤◌, ◌-◌, drop, length};

use crate::scan::CODE_WORTH;
use crate::{Scan, Tally, WORDS};

// The words in use, which it gives one after the other, oldest first.
#[derive(Drop)]
pub(crate) struct Ring<'a> {
    pub(crate) words: &'a [u16; WORDS],
    pub(crate) oldest: usize,
    pub(crate) used: usize,
    ghost placed: { oldest < 1024 },
    ghost fits: { used ≤ 1024 },
}

impl Iterator for Ring<'_> {
    type Item = u16;

    ghost use Rattle.std.specs.Iterator.{YieldsFirst, item_count};
    ghost use Rattle.history.specs.Support.Ring.{in_use};

    ghost next_gives = { YieldsFirst in_use };

    ghost remaining = { item_count in_use };

    #[tactic(auto, using(crate::proofs::Content::content_first, crate::proofs::Content::content_none, crate::proofs::Content::content_long))]
    fn next(&mut self) -> Option<u16> {
        if self.used == 0 {
            return None;
        }
        let word = self.words[self.oldest];
        self.oldest = (self.oldest + 1) % WORDS;
        self.used -= 1;
        Some(word)
    }
}

impl Ring<'_> {
    ghost use Rattle.history.specs.Scan.{start, scanned, read};
    ghost use Rattle.history.specs.Keep.{leading};
    ghost use Rattle.history.specs.Support.Ring.{in_use};

    // Where a scan of them ends, and how many are changes.
    #[tactic(auto, using(crate::proofs::Scans::read_short, crate::proofs::Scans::found_long, crate::proofs::Content::content_long), unfolding(crate::specs::Scan::scanned, crate::specs::Scan::read))]
    pub(crate) fn tally(self) -> Tally
        ensures { (result.scan ≡ scanned start (in_use self.entry)) × (result.changes ≡ length (read start (in_use self.entry))) }
    {
        let mut scan = Scan::START;
        let mut changes = 0;
        for word in self {
            changes += usize::from(scan.is_change(word));
            scan = scan.after(word);
        }
        Tally { scan, changes }
    }

    // How many changes the oldest group has.
    #[tactic(auto, using(crate::proofs::Content::content_long))]
    pub(crate) fn leading(self) -> usize
        ensures { result ≡ leading (drop 3 (in_use self.entry)) }
    {
        self.skip(3).take_while(|word| CODE_WORTH <= *word).count()
    }
}
