// The five relations between the values (documents 01, "Settings text", and 02, P2).
ghost use Rattle.std.specs.Prelude.{◌≡◌, true, ◌+◌, ◌<◌, length};
ghost use Rattle.laws.specs.Base.{first_not};
ghost use Rattle.answer.specs.Told.{told};
ghost use Rattle.settings.specs.Names.{orbit_of, schedule_of, times_of};
ghost use Rattle.settings.specs.Relations.{below, distinct, gap_inside, cycle_in_order, low_fits, lows_fit, relation, related};
ghost use Rattle.settings.specs.Check.{out_of_range};
ghost use Rattle.settings.specs.Support.Stamps.{places, Fits, Lower};
ghost use Rattle.settings.specs.Support.Found.{place_found};

use crate::Settings;
use crate::names::{Gap, Rule, Rules, Schedule};
use answer::{Answer, Refusal};

fn are_below(xs: &[u32], m: u32) -> bool
    ensures { result ≡ below m xs.now }
{
    xs.iter().all(|x| *x < m)
}

// Marks the numbers with the stamp, the last first, until one has it already. No number has it before.
fn stamp_all(seen: &mut [u8], times: &[u32], stamp: u8) -> bool
    requires { (length seen.old ≡ places) × Fits times.now × Lower stamp seen.old }
    ensures { (result ≡ distinct times.now) × (result ≡ true → Lower (stamp + 1) seen.new) }
{
    for i in (0..times.len()).rev() {
        let x = times[i] as usize;
        if seen[x] == stamp {
            return false;
        }
        seen[x] = stamp;
    }
    true
}

impl Rule {
    fn low_fits(self) -> bool
        ensures { result ≡ low_fits self }
    {
        self.low <= self.norm
    }
}

impl Gap {
    fn is_inside(self, orbit: u32) -> bool
        ensures { result ≡ gap_inside self orbit }
    {
        self.low <= self.high && self.high < orbit
    }
}

impl Schedule {
    fn cycle_in_order(self) -> bool
        ensures { result ≡ cycle_in_order self }
    {
        self.wte < self.te && self.te < self.cal
    }
}

impl Rules {
    fn lows_fit(self) -> bool
        ensures { result ≡ lows_fit self }
    {
        let third = self.third.low_fits();
        let fourth = self.fourth.low_fits();
        self.second.low_fits() && (third && fourth)
    }
}

impl Settings {
    // Controller k's eleven numbers, one after the other.
    fn times(&self, k: usize) -> &[u32]
        requires { k < 8 }
        ensures { result.now ≡ times_of self.now k }
    {
        &self.values[27 + 11 * k..38 + 11 * k]
    }

    // The first controller with a number that is not below the orbit.
    fn first_late(&self) -> Option<usize>
        ensures { result ≡ place_found (first_not (λ k. below (orbit_of self.now) (times_of self.now k)) 8 0) }
    {
        for k in 0..8 {
            if !are_below(self.times(k), self.orbit()) {
                return Some(k);
            }
        }
        None
    }

    // The first with the same number twice. Each controller has a stamp of its own, so one table serves all eight.
    fn first_doubled(&self) -> Option<usize>
        requires { out_of_range self.now ≡ 0 }
        ensures { result ≡ place_found (first_not (λ k. distinct (times_of self.now k)) 8 0) }
    {
        let mut seen = [0u8; 4096];
        for k in 0..8 {
            if !stamp_all(&mut seen, self.times(k), k as u8 + 1) {
                return Some(k);
            }
        }
        None
    }

    // The first whose cycle is out of order.
    fn first_disordered(&self) -> Option<usize>
        ensures { result ≡ place_found (first_not (λ k. cycle_in_order (schedule_of self.now k)) 8 0) }
    {
        for k in 0..8 {
            if !self.schedule(k).cycle_in_order() {
                return Some(k);
            }
        }
        None
    }

    // RELATION with the first relation that fails, and its first controller.
    pub fn test_relations(&self) -> Answer
        requires { out_of_range self.now ≡ 0 }
        ensures { told result ≡ related (relation self.now) }
    {
        if !self.gap().is_inside(self.orbit()) {
            return Err(Refusal::Relation(1, 0));
        }
        if let Some(k) = self.first_late() {
            return Err(Refusal::Relation(2, k));
        }
        if let Some(k) = self.first_doubled() {
            return Err(Refusal::Relation(3, k));
        }
        if let Some(k) = self.first_disordered() {
            return Err(Refusal::Relation(4, k));
        }
        if !self.rules().lows_fit() {
            return Err(Refusal::Relation(5, 0));
        }
        Ok(())
    }
}
