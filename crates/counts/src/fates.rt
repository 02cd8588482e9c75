// A request's fate: sent, or the cause of its loss (document 01, "Cycle and trigger"; document 02, P5).
ghost use Rattle.std.specs.Prelude.{◌≡◌};
ghost use Rattle.counts.specs.Counts.{in_gap, ruled, fate_of};

use settings::Gap;
use states::is_running;

pub const SENT: u8 = 0;

pub(crate) const STATE: u8 = 1;

pub(crate) const SLOT: u8 = 2;

pub(crate) const GAP: u8 = 3;

pub(crate) const CAL: u8 = 4;

pub(crate) const FIRST: u8 = 5;

pub(crate) const SECOND: u8 = 6;

pub(crate) const THIRD: u8 = 7;

pub(crate) const FOURTH: u8 = 8;

fn in_gap(gap: Gap, number: u32) -> bool
    ensures { result ≡ in_gap gap number }
{
    gap.low <= number && number <= gap.high
}

// By the throttle's answer: the first refusing rule, 1 to 4, or 0.
fn of_rule(rule: u8) -> u8
    ensures { result ≡ ruled rule }
{
    match rule {
        0 => SENT,
        1 => FIRST,
        2 => SECOND,
        3 => THIRD,
        _ => FOURTH,
    }
}

// Lost under the first cause that holds: state, slot, gap, cal, the first rule that refuses; or sent.
#[tactic(auto, unfolding(crate::specs::Counts::fate_of))]
pub fn fate(gap: Gap, number: u32, state: u8, own: bool, busy: bool, rule: u8) -> u8
    ensures { result ≡ fate_of gap number state own busy rule }
{
    if !is_running(state) {
        STATE
    } else if !own {
        SLOT
    } else if in_gap(gap, number) {
        GAP
    } else if busy {
        CAL
    } else {
        of_rule(rule)
    }
}
