// The states of a partition controller: their moves, their waits, and the commands that they take (document 01, "States").
#![tactic(auto)]

mod commands;
mod moves;
mod sound;

ghost use Rattle.std.specs.Prelude.{◌≡◌};
ghost use Rattle.states.specs.Names.{status_of};

pub use commands::{CALIBRATE, START, WARN, is_running, state_after, takes};
pub use moves::{advance, entry_wait, orbit_code, rests};
pub use sound::is_sound;

// A state, and the code that is sent on the way to it, or 0.
#[derive(Clone, Copy)]
pub struct Step {
    pub state: u8,
    pub code: u8,
}

#[derive(Clone, Copy)]
pub struct Moved {
    pub state: u8,
    pub wait: u32,
    pub code: u8,
}

// The status that a state shows.
#[tactic(auto, unfolding(crate::specs::Names::status_of))]
pub fn status(state: u8) -> u8
    ensures { result ≡ status_of state }
{
    match state {
        0 => 10,
        7 => 8,
        8 => 1,
        9 => 0,
        10 => 2,
        11 | 18 => 12,
        _ => 4,
    }
}
