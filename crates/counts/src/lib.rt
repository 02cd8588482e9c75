// The run counts of one controller: requests by their fate, and calibration triggers (document 01, "Report"; document 02, P5).
#![tactic(auto)]

mod fates;
mod sound;

ghost use Rattle.std.specs.Prelude.{◌≡◌, ◌<◌};
ghost use Rattle.counts.specs.Counts.{ruled_to, lost_to, requested_of, calibrated_of, counted_of, no_counts};
ghost use Rattle.counts.specs.Support.Room.{RulesRoom, LostRoom, CalRoom, CountsRoom};

use fates::{CAL, FIRST, FOURTH, GAP, SECOND, SLOT, STATE, THIRD};
pub use fates::{SENT, fate};

// Requests that a rule of the throttle refused, by the first that did.
#[derive(Clone, Copy, Debug, Default, PartialEq, Eq)]
pub struct ByRule {
    pub first: u64,
    pub second: u64,
    pub third: u64,
    pub fourth: u64,
}

// Requests that were lost, by cause; those of the throttle also by rule.
#[derive(Clone, Copy, Debug, Default, PartialEq, Eq)]
pub struct Lost {
    pub state: u64,
    pub slot: u64,
    pub gap: u64,
    pub cal: u64,
    pub throttle: u64,
    pub rules: ByRule,
}

// Calibration triggers, which balance apart.
#[derive(Clone, Copy, Debug, Default, PartialEq, Eq)]
pub struct Calibrations {
    pub requested: u64,
    pub accepted: u64,
    pub lost: u64,
}

// Since START, or the fresh board.
#[derive(Clone, Copy, Debug, Default, PartialEq, Eq)]
pub struct Counts {
    pub requested: u64,
    pub accepted: u64,
    pub lost: Lost,
    pub cal: Calibrations,
}

impl ByRule {
    #[tactic(auto, unfolding(crate::specs::Counts::ruled_to))]
    fn with(self, fate: u8) -> ByRule
        requires { RulesRoom self }
        ensures { result ≡ ruled_to fate self }
    {
        ByRule {
            first: self.first + u64::from(fate == FIRST),
            second: self.second + u64::from(fate == SECOND),
            third: self.third + u64::from(fate == THIRD),
            fourth: self.fourth + u64::from(fate == FOURTH),
        }
    }
}

impl Lost {
    // One that a rule refused.
    #[tactic(auto, unfolding(crate::specs::Counts::lost_to))]
    fn with_rule(self, fate: u8) -> Lost
        requires { (LostRoom self) × (4 < fate) }
        ensures { result ≡ lost_to fate self }
    {
        Lost {
            throttle: self.throttle + 1,
            rules: self.rules.with(fate),
            ..self
        }
    }

    // Most are lost to the state or to the slot: those leave the rules alone.
    #[tactic(auto, unfolding(crate::specs::Counts::lost_to, crate::specs::Counts::ruled_to))]
    fn with(self, fate: u8) -> Lost
        requires { LostRoom self }
        ensures { result ≡ lost_to fate self }
    {
        if CAL < fate {
            return self.with_rule(fate);
        }
        Lost {
            state: self.state + u64::from(fate == STATE),
            slot: self.slot + u64::from(fate == SLOT),
            gap: self.gap + u64::from(fate == GAP),
            cal: self.cal + u64::from(fate == CAL),
            ..self
        }
    }
}

impl Calibrations {
    #[tactic(auto, unfolding(crate::specs::Counts::calibrated_of))]
    fn with(self, asks: bool, free: bool) -> Calibrations
        requires { CalRoom self }
        ensures { result ≡ calibrated_of asks free self }
    {
        if !asks {
            return self;
        }
        Calibrations {
            requested: self.requested + 1,
            accepted: self.accepted + u64::from(free),
            lost: self.lost + u64::from(!free),
        }
    }
}

impl Counts {
    pub fn none() -> Counts
        ensures { result ≡ no_counts }
    {
        Counts::default()
    }

    #[tactic(auto, unfolding(crate::specs::Counts::requested_of))]
    pub fn with_request(self, asked: bool, fate: u8) -> Counts
        requires { CountsRoom self }
        ensures { result ≡ requested_of asked fate self }
    {
        if !asked {
            return self;
        }
        Counts {
            requested: self.requested + 1,
            accepted: self.accepted + u64::from(fate == SENT),
            lost: self.lost.with(fate),
            ..self
        }
    }

    // A crossing's request and calibration trigger.
    pub fn counted(self, asked: bool, fate: u8, asks: bool, free: bool) -> Counts
        requires { CountsRoom self }
        ensures { result ≡ counted_of asked fate asks free self }
    {
        let mut counts = self.with_request(asked, fate);
        counts.cal = self.cal.with(asks, free);
        counts
    }
}
