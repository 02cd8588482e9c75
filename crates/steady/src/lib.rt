// What the inputs are believed to carry (document 02, P1): a code counts when the same input carried it in two consecutive crossings.
#![tactic(auto)]

ghost use Rattle.std.specs.Prelude.{◌≡◌, true, ℕ, ◌<◌, length, get_or};
ghost use Rattle.words.specs.Same.{same_bytes};
ghost use Rattle.steady.specs.Steady.{steady, steady_byte, believed_of};
ghost use Rattle.steady.specs.Held.{fresh_held, sound_held};
ghost use Rattle.steady.specs.Support.News.{news_of};

// Two codes of each input, laid out as the code bytes of a record: the last that it carried and the last that was believed.
#[derive(Clone, Copy, Debug, PartialEq, Eq)]
pub struct Held {
    pub carried: [u8; 21],
    pub believed: [u8; 21],
}

// What following a crossing's codes tells: whether the believed ones stayed, and whether all that it carried are believed now.
#[derive(Clone, Copy)]
pub struct News {
    pub stays: bool,
    pub firm: bool,
}

#[tactic(auto, unfolding(crate::specs::Steady::steady))]
pub fn code(carried: u8, believed: u8, now: u8) -> u8
    requires { (believed < 16) × (now < 16) }
    ensures { (result ≡ steady carried believed now) × (result < 16) }
{
    if carried == now { now } else { believed }
}

#[tactic(auto, unfolding(crate::specs::Steady::steady_byte))]
fn byte(carried: u8, believed: u8, now: u8) -> u8
    ensures { result ≡ steady_byte carried believed now }
{
    let low = code(carried % 16, believed % 16, now % 16);
    let high = code(carried / 16, believed / 16, now / 16);
    low + 16 * high
}

impl Held {
    #[tactic(auto, unfolding(crate::specs::Held::fresh_held))]
    pub fn fresh() -> Held
        ensures { result ≡ fresh_held }
    {
        Held {
            carried: [0; 21],
            believed: [0; 21],
        }
    }

    // Two codes share a byte and are 0 to 15 in it; only the GTFE code has a byte of its own.
    #[tactic(auto, unfolding(crate::specs::Held::sound_held, status::specs::Codes::code_at))]
    pub fn is_sound(self) -> bool
        ensures { result ≡ sound_held self }
    {
        self.carried[0] < 16 && self.believed[0] < 16
    }

    // Whether all that was carried is believed. Lent codes are bytes, which is told on: two codes in a byte are 0 to 15 then.
    pub fn is_firm(&self) -> bool
        ensures { (result ≡ same_bytes 21 self.now.carried self.now.believed) × ((n : ℕ) → get_or self.now.carried n 0 < 256) × ((n : ℕ) → get_or self.now.believed n 0 < 256) }
    {
        words::same(&self.carried, &self.believed)
    }

    // Moves on what is believed, in place: a table made beside it would be copied.
    fn believe(&mut self, codes: &[u8])
        requires { length codes.now ≡ 21 }
        ensures { (self.new.believed ≡ believed_of self.old.carried self.old.believed codes.now) × (self.new.carried ≡ self.old.carried) }
    {
        for k in 0..21 {
            self.believed[k] = byte(self.carried[k], self.believed[k], codes[k]);
        }
    }

    // The held codes after a crossing with these codes. Most crossings carry what the one before carried and what is believed
    // already: then there is nothing to do.
    pub fn follow(&mut self, firm: bool, codes: &[u8]) -> News
        requires { (length codes.now ≡ 21) × (firm ≡ true → self.old.believed ≡ self.old.carried) }
        ensures { (result ≡ news_of self.old.carried self.old.believed codes.now) × (self.new.believed ≡ believed_of self.old.carried self.old.believed codes.now) × (self.new.carried ≡ codes.now) }
    {
        let same = words::same(&self.carried, codes);
        if firm && same {
            return News {
                stays: true,
                firm: true,
            };
        }
        let before = self.believed;
        self.believe(codes);
        self.carried.copy_from_slice(codes);
        News {
            stays: words::same(&before, &self.believed),
            firm: same,
        }
    }
}
