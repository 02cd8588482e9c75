// The settings: their 147 values by name, the standard ones, and the check that any must pass (documents 01, "Settings text", and 02, P2 and P3).
#![tactic(auto)]

mod names;
mod relations;
mod table;

ghost use Rattle.std.specs.Prelude.{◌≡◌};
ghost use Rattle.answer.specs.Told.{told};
ghost use Rattle.settings.specs.Check.{out_of_range, checked};
ghost use Rattle.settings.specs.Standard.{standard};
ghost use Rattle.settings.specs.Support.Found.{line_found};

use answer::{Answer, Refusal};
pub use names::{Gap, Ignores, Pause, Rule, Rules, Schedule, Waits};

// The values in the order of the newest edition's lines. Only `names` knows which is which.
#[derive(Clone, Copy, Debug, PartialEq, Eq)]
pub struct Settings {
    pub values: [u32; 147],
}

impl Settings {
    pub fn standard() -> Settings
        ensures { result ≡ standard }
    {
        Settings {
            values: table::standard_values(),
        }
    }

    // The first line whose value is out of its range. The edition has line 1.
    fn first_out(&self) -> Option<usize>
        ensures { result ≡ line_found (out_of_range self.now) }
    {
        for (n, value) in self.values.iter().enumerate() {
            if !keys::range(n + 1).holds(*value) {
                return Some(n + 2);
            }
        }
        None
    }

    // RANGE by line order, then RELATION.
    pub fn check(&self) -> Answer
        ensures { told result ≡ checked self.now }
    {
        if let Some(line) = self.first_out() {
            return Err(Refusal::Range(line));
        }
        self.test_relations()
    }
}
