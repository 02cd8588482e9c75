// What the counts must be, among m crossings done (document 01, "Sound"; document 02, P5).
ghost use Rattle.std.specs.Prelude.{◌≡◌, ◌<◌, ◌^◌};
ghost use Rattle.counts.specs.Sound.{sound_rules, sound_lost, sound_cal, within_counts, rules_sum, lost_sum, sound_counts};

use crate::{ByRule, Calibrations, Counts, Lost};

impl ByRule {
    fn is_within(&self, m: u64) -> bool
        ensures { result ≡ sound_rules m self.now }
    {
        self.first <= m && self.second <= m && self.third <= m && self.fourth <= m
    }

    fn sum(&self) -> u64
        requires { rules_sum self.now < 2 ^ 64 }
        ensures { result ≡ rules_sum self.now }
    {
        self.first + self.second + self.third + self.fourth
    }
}

impl Lost {
    fn is_within(&self, m: u64) -> bool
        ensures { result ≡ sound_lost m self.now }
    {
        self.state <= m
            && self.slot <= m
            && self.gap <= m
            && self.cal <= m
            && self.throttle <= m
            && self.rules.is_within(m)
    }

    fn sum(&self) -> u64
        requires { lost_sum self.now < 2 ^ 64 }
        ensures { result ≡ lost_sum self.now }
    {
        self.state + self.slot + self.gap + self.cal + self.throttle
    }
}

impl Calibrations {
    fn is_within(&self, m: u64) -> bool
        ensures { result ≡ sound_cal m self.now }
    {
        self.requested <= m && self.accepted <= m && self.lost <= m
    }
}

impl Counts {
    // Whether every count is among the crossings done.
    #[tactic(auto, unfolding(crate::specs::Sound::within_counts))]
    fn is_within(&self, m: u64) -> bool
        ensures { result ≡ within_counts m self.now }
    {
        self.requested <= m && self.accepted <= m && self.lost.is_within(m) && self.cal.is_within(m)
    }

    // The sums are added up only where every count is small.
    #[tactic(auto, unfolding(crate::specs::Sound::sound_counts, crate::specs::Sound::within_counts))]
    pub fn is_sound(&self, m: u64) -> bool
        requires { m < 2 ^ 60 }
        ensures { result ≡ sound_counts m self.now }
    {
        self.is_within(m)
            && self.requested == self.accepted + self.lost.sum()
            && self.lost.throttle == self.lost.rules.sum()
            && self.cal.requested == self.cal.accepted + self.cal.lost
    }
}
