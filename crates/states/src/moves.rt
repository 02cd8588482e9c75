// The move of each state, by the groups that document 01 has them in.
ghost use Rattle.std.specs.Prelude.{◌≡◌, ◌-◌, eqb};
ghost use Rattle.laws.specs.Base.{if};
ghost use Rattle.states.specs.Support.Rest.{resting};
ghost use Rattle.states.specs.Moves.{goes, timed, after_resync, while_running, while_disconnected, move_of, entry_wait, moved_of, orbit_code};

use crate::{Moved, Step};
use settings::{Schedule, Waits};
use status::{RANK_BAD, RANK_ERROR, RANK_OUT_OF_SYNC, RANK_READY, RANK_WARNING};

fn to(state: u8) -> Step
    ensures { result ≡ goes state }
{
    Step { state, code: 0 }
}

// At its number a state sends its code and is left.
fn at_number(number: u32, at: u32, from: u8, code: u8, next: u8) -> Step
    ensures { result ≡ timed number at from code next }
{
    if number == at {
        Step { state: next, code }
    } else {
        to(from)
    }
}

// Out of state 2.
fn after_resync(k: u32, class: u8) -> u8
    ensures { result ≡ after_resync k class }
{
    if RANK_OUT_OF_SYNC <= class {
        18
    } else if k == 0 {
        3
    } else {
        4
    }
}

// Out of states 6, 7 and 8.
fn while_running(class: u8) -> u8
    ensures { result ≡ while_running class }
{
    match class {
        RANK_BAD.. => 9,
        RANK_OUT_OF_SYNC => 10,
        RANK_ERROR => 11,
        RANK_READY => 7,
        RANK_WARNING => 8,
        _ => 6,
    }
}

// Out of state 9, always through 6.
fn while_disconnected(class: u8) -> u8
    ensures { result ≡ while_disconnected class }
{
    if RANK_BAD <= class { 9 } else { 6 }
}

// Whether a state stays as it is, whatever the number, while the class is the same. An arm for each of 6, 7 and 8: each is one test of the class.
#[tactic(auto, unfolding(crate::specs::Support::Rest::resting))]
pub fn rests(class: u8, state: u8) -> bool
    ensures { result ≡ resting class state }
{
    match state {
        0 | 10 | 11 | 18 => true,
        6 => while_running(class) == 6,
        7 => while_running(class) == 7,
        8 => while_running(class) == 8,
        9 => RANK_BAD <= class,
        _ => false,
    }
}

#[tactic(auto, unfolding(crate::specs::Moves::move_of))]
fn next_step(at: Schedule, k: u32, number: u32, class: u8, state: u8) -> Step
    ensures { result ≡ move_of at k number class state }
{
    match state {
        1 => at_number(number, at.resync, 1, 5, 2),
        2 => to(after_resync(k, class)),
        3 => at_number(number, at.oc0, 3, 8, 4),
        4 => at_number(number, at.start, 4, 9, 5),
        5 => at_number(number, at.ec0, 5, 7, 6),
        6..=8 => to(while_running(class)),
        9 => to(while_disconnected(class)),
        12 => to(13),
        13 => at_number(number, at.hard, 13, 6, 14),
        14 => to(15),
        15 => to(16),
        16 => at_number(number, at.resync, 16, 5, 17),
        17 => to(5),
        19 => at_number(number, at.stop, 19, 10, 0),
        _ => to(state),
    }
}

// The orbits that a state waits, set on entry.
#[tactic(auto, unfolding(crate::specs::Moves::entry_wait))]
pub fn entry_wait(waits: Waits, state: u8) -> u32
    ensures { result ≡ entry_wait waits state }
{
    match state {
        2 | 17 => waits.recover.resync,
        12 => waits.settle.hard,
        14 => waits.recover.hard,
        15 => waits.settle.resync,
        _ => 0,
    }
}

// A wait falls at a crossing number 0.
fn fallen(number: u32, wait: u32) -> u32
    ensures { result ≡ if (eqb number 0) (wait - 1) wait }
{
    if number == 0 {
        wait.saturating_sub(1)
    } else {
        wait
    }
}

// A crossing either moves or lets the wait fall.
#[tactic(auto, unfolding(crate::specs::Moves::moved_of))]
pub fn advance(
    at: Schedule,
    waits: Waits,
    k: u32,
    number: u32,
    class: u8,
    state: u8,
    wait: u32,
) -> Moved
    ensures { result ≡ moved_of at waits k number class state wait }
{
    if wait == 0 {
        let Step { state, code } = next_step(at, k, number, class, state);
        let wait = entry_wait(waits, state);
        Moved { state, wait, code }
    } else {
        let wait = fallen(number, wait);
        Moved {
            state,
            wait,
            code: 0,
        }
    }
}

// Codes 1 and 11, which every state sends.
#[tactic(auto, unfolding(crate::specs::Moves::orbit_code))]
pub fn orbit_code(at: Schedule, number: u32) -> u8
    ensures { result ≡ orbit_code at number }
{
    if number == at.bc0 {
        1
    } else if number == at.gap {
        11
    } else {
        0
    }
}
