// The editions: how many lines each has, where a line stands among the lines of all, and which line gives a value.
ghost use Rattle.std.specs.Prelude.{◌≡◌, ◌<◌, ◌≤◌, eqb};
ghost use Rattle.keys.specs.Support.Lines.{line_count};
ghost use Rattle.editions.specs.Read.{laid_out, warn_blocks};
ghost use Rattle.editions.specs.Support.Tables.{number_of, count_of, numbers_in, place_of, source_of};

use settings::Settings;
use std::array;

// Those that the desk knows.
#[derive(Clone, Copy)]
pub(crate) enum Edition {
    First,
    Second,
    Third,
}

impl Edition {
    // How many lines it has.
    pub(crate) fn count(self) -> usize
        ensures { (result ≡ count_of (number_of self)) × (result ≤ 149) }
    {
        match self {
            Edition::First => 71,
            Edition::Second => 149,
            Edition::Third => 148,
        }
    }

    // Where its line n stands.
    pub(crate) fn place(self, n: usize) -> usize
        requires { n < count_of (number_of self) }
        ensures { (result ≡ place_of (number_of self) n) × (result < line_count) }
    {
        match (self, n) {
            (Edition::First, 0..=12) => n + 1,
            (Edition::First, 13) => 148,
            (Edition::First, 14..=27) => n,
            (Edition::First, 28..=38) => n + 121,
            (Edition::First, _) => n + 77,
            (Edition::Second, 14) => 148,
            (Edition::Second, 15..) => n - 1,
            _ => n,
        }
    }

    // Which line gives value n of the settings.
    fn source(self, n: usize) -> usize
        requires { n < 147 }
        ensures { result ≡ source_of (number_of self) n }
    {
        match (self, n) {
            (Edition::First, 0..=12) => n,
            (Edition::First, 13..=26) => n + 1,
            // One schedule is given to all eight.
            (Edition::First, 27..=114) => 28 + (n - 27) % 11,
            (Edition::First, _) => n - 76,
            (Edition::Second, 13..) => n + 2,
            _ => n + 1,
        }
    }

    // The values of the settings, of the numbers on its lines.
    pub(crate) fn laid_out(self, numbers: &[u32; 149]) -> Settings
        ensures { result ≡ laid_out (number_of self) (numbers_in self numbers.now) }
    {
        Settings {
            values: array::from_fn(|n| numbers[self.source(n)]),
        }
    }

    // Whether `warn_blocks`, a line of the older editions alone, is 1.
    #[tactic(auto, unfolding(crate::specs::Read::warn_blocks))]
    pub(crate) fn stops(self, numbers: &[u32; 149]) -> bool
        ensures { result ≡ eqb (warn_blocks (number_of self) (numbers_in self numbers.now)) 1 }
    {
        match self {
            Edition::First => numbers[13] == 1,
            Edition::Second => numbers[14] == 1,
            Edition::Third => false,
        }
    }
}
