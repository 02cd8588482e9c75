// The six commands: where each is taken, and where it leads.
ghost use Rattle.std.specs.Prelude.{◌≡◌};
ghost use Rattle.states.specs.Names.{running};
ghost use Rattle.states.specs.Commands.{takes, state_after};

pub const START: u8 = 1;

const STOP: u8 = 2;

const HARD: u8 = 3;

const RESYNC: u8 = 4;

pub const CALIBRATE: u8 = 5;

const PANIC: u8 = 6;

const READY: u8 = 7;

pub const WARN: u8 = 8;

// Triggers are taken in READY and WARN.
pub fn is_running(state: u8) -> bool
    ensures { result ≡ running state }
{
    matches!(state, READY | WARN)
}

#[tactic(auto, unfolding(crate::specs::Commands::takes))]
pub fn takes(command: u8, state: u8, cycle: bool) -> bool
    ensures { result ≡ takes command state cycle }
{
    match command {
        START => state == 0,
        STOP => matches!(state, 1..=18),
        HARD => matches!(state, 6..=11 | 18),
        RESYNC => matches!(state, 6..=8 | 10 | 18),
        CALIBRATE => !cycle && is_running(state),
        PANIC => true,
        _ => false,
    }
}

#[tactic(auto, unfolding(crate::specs::Commands::state_after))]
pub fn state_after(command: u8, state: u8) -> u8
    ensures { result ≡ state_after command state }
{
    match command {
        START => 1,
        STOP => 19,
        HARD => 12,
        RESYNC => 15,
        PANIC => 0,
        _ => state,
    }
}
