// The settings by name: with `specs/Names.antt`, the only place that says which value is which.
ghost use Rattle.std.specs.Prelude.{◌≡◌, ◌+◌, ◌<◌, ◌≤◌, length};
ghost use Rattle.settings.specs.Names.{orbit_of, gap_of, rule_after, rules_of, ignores_of, waits_of, slot_of, schedule_at, schedule_of, part_of};
ghost use Rattle.settings.specs.Lows.{lows_cleared};

use crate::Settings;

// The crossings from `low` to `high` are closed to requests.
#[derive(Clone, Copy, Debug, PartialEq, Eq)]
pub struct Gap {
    pub low: u32,
    pub high: u32,
}

// At most `norm` triggers in a period of crossings, or `low` under warning.
#[derive(Clone, Copy, Debug, PartialEq, Eq)]
pub struct Rule {
    pub period: u32,
    pub norm: u32,
    pub low: u32,
}

// Rule 1 is the crossings left free after a trigger.
#[derive(Clone, Copy, Debug, PartialEq, Eq)]
pub struct Rules {
    pub spacing: u32,
    pub second: Rule,
    pub third: Rule,
    pub fourth: Rule,
}

// Which members the merge leaves out.
#[derive(Clone, Copy, Debug, PartialEq, Eq)]
pub struct Ignores {
    pub disc: bool,
    pub bad: bool,
}

// Orbits to wait around a resynchronisation and around a hard reset.
#[derive(Clone, Copy, Debug, PartialEq, Eq)]
pub struct Pause {
    pub resync: u32,
    pub hard: u32,
}

// Orbits to wait before and after the signal.
#[derive(Clone, Copy, Debug, PartialEq, Eq)]
pub struct Waits {
    pub settle: Pause,
    pub recover: Pause,
}

// The crossing numbers at which the codes of these names are sent.
#[derive(Clone, Copy, Debug, PartialEq, Eq)]
pub struct Schedule {
    pub bc0: u32,
    pub te: u32,
    pub resync: u32,
    pub hard: u32,
    pub ec0: u32,
    pub oc0: u32,
    pub start: u32,
    pub stop: u32,
    pub gap: u32,
    pub wte: u32,
    pub cal: u32,
}

impl Schedule {
    // Eleven numbers, one after the other from a place on.
    pub fn read(numbers: &[u32], at: usize) -> Schedule
        requires { at + 11 ≤ length numbers.now }
        ensures { result ≡ schedule_at numbers.now at }
    {
        Schedule {
            bc0: numbers[at],
            te: numbers[at + 1],
            resync: numbers[at + 2],
            hard: numbers[at + 3],
            ec0: numbers[at + 4],
            oc0: numbers[at + 5],
            start: numbers[at + 6],
            stop: numbers[at + 7],
            gap: numbers[at + 8],
            wte: numbers[at + 9],
            cal: numbers[at + 10],
        }
    }
}

impl Settings {
    pub fn orbit(&self) -> u32
        ensures { result ≡ orbit_of self.now }
    {
        self.values[0]
    }

    pub fn gap(&self) -> Gap
        ensures { result ≡ gap_of self.now }
    {
        Gap {
            low: self.values[1],
            high: self.values[2],
        }
    }

    // The rule whose three values begin at a place.
    fn rule(&self, at: usize) -> Rule
        requires { at + 3 ≤ 147 }
        ensures { result ≡ rule_after self.now at }
    {
        Rule {
            period: self.values[at],
            norm: self.values[at + 1],
            low: self.values[at + 2],
        }
    }

    pub fn rules(&self) -> Rules
        ensures { result ≡ rules_of self.now }
    {
        Rules {
            spacing: self.values[3],
            second: self.rule(4),
            third: self.rule(7),
            fourth: self.rule(10),
        }
    }

    // The three low limits set to 0: no trigger is sent under warning.
    pub fn lows_cleared(mut self) -> Settings
        ensures { result ≡ lows_cleared self }
    {
        self.values[6] = 0;
        self.values[9] = 0;
        self.values[12] = 0;
        self
    }

    pub fn ignores(&self) -> Ignores
        ensures { result ≡ ignores_of self.now }
    {
        Ignores {
            disc: self.values[13] == 1,
            bad: self.values[14] == 1,
        }
    }

    pub fn waits(&self) -> Waits
        ensures { result ≡ waits_of self.now }
    {
        Waits {
            settle: Pause {
                resync: self.values[15],
                hard: self.values[16],
            },
            recover: Pause {
                resync: self.values[17],
                hard: self.values[18],
            },
        }
    }

    // Controller k's share of the orbits, in tens.
    pub fn slot(&self, k: usize) -> u32
        requires { k < 8 }
        ensures { result ≡ slot_of self.now k }
    {
        self.values[19 + k]
    }

    // Controller k's eleven numbers, one after the other.
    pub fn schedule(&self, k: usize) -> Schedule
        ensures { result ≡ schedule_of self.now k }
    {
        Schedule::read(&self.values, 27 + 11 * (k % 8))
    }

    // The controller of partition p, or 8 for none.
    pub fn part(&self, p: usize) -> u32
        requires { p < 32 }
        ensures { result ≡ part_of self.now p }
    {
        self.values[115 + p]
    }
}
