// The calibration cycle: 0 none, 1 armed, 2 open.
ghost use Rattle.std.specs.Prelude.{◌≡◌};
ghost use Rattle.ptc.specs.Cycle.{kept_of, opened_of, cycle_code, asks_of};

use settings::Schedule;
use states::is_running;

pub(crate) const NONE: u8 = 0;

pub(crate) const ARMED: u8 = 1;

pub(crate) const OPEN: u8 = 2;

// What is left of a cycle in the state after the move.
#[tactic(auto, unfolding(crate::specs::Cycle::kept_of))]
pub(crate) fn kept(state: u8, own: bool, cycle: u8) -> u8
    ensures { result ≡ kept_of state own cycle }
{
    match cycle {
        _ if !is_running(state) => NONE,
        OPEN if !own => NONE,
        _ => cycle,
    }
}

#[tactic(auto, unfolding(crate::specs::Cycle::opened_of))]
pub(crate) fn opened(at: Schedule, number: u32, own: bool, cycle: u8) -> u8
    ensures { result ≡ opened_of at number own cycle }
{
    if cycle == ARMED && own && number == at.wte {
        OPEN
    } else {
        cycle
    }
}

#[tactic(auto, unfolding(crate::specs::Cycle::cycle_code))]
pub(crate) fn cycle_code(at: Schedule, number: u32, before: u8, now: u8) -> u8
    ensures { result ≡ cycle_code at number before now }
{
    match (before, now) {
        (ARMED, OPEN) => 13,
        (_, OPEN) if number == at.te => 2,
        _ => 0,
    }
}

#[tactic(auto, unfolding(crate::specs::Cycle::asks_of))]
pub(crate) fn asks_trigger(at: Schedule, number: u32, cycle: u8) -> bool
    ensures { result ≡ asks_of at number cycle }
{
    cycle == OPEN && number == at.cal
}
