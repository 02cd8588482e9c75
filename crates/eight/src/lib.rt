// The eight controllers side by side: whether all are sound, and the clock after a crossing, which controller 0 may set back.
#![tactic(auto)]

ghost use Rattle.std.specs.Prelude.{◌≡◌, ◌%◌, ◌<◌, ◌^◌, eqb};
ghost use Rattle.laws.specs.Base.{if};
ghost use Rattle.clock.specs.Support.Room.{ClockRoom};
ghost use Rattle.eight.specs.Eight.{clock_of, sound_eight};

use clock::Clock;
use ptc::Ptc;

// Each of the eight among m crossings done.
pub fn are_sound(ptcs: &[Ptc; 8], holder: u32, m: u64) -> bool
    requires { m < 2 ^ 60 }
    ensures { result ≡ sound_eight holder m ptcs.now }
{
    (0..8).zip(ptcs).all(|(k, p)| p.is_sound(k, k == holder, m))
}

// Controller 0's code 8 sets the orbit count to 0.
pub fn orbit_count(first: u8, orbits: u64) -> u64
    ensures { result ≡ if (eqb (first % 16) 8) 0 orbits }
{
    if first % 16 == 8 { 0 } else { orbits }
}

// The clock after a crossing whose row has these bytes.
#[tactic(auto, unfolding(crate::specs::Eight::clock_of))]
pub fn clock_after(clock: Clock, orbit: u32, marker: bool, bytes: [u8; 8]) -> Clock
    requires { ClockRoom clock }
    ensures { result ≡ clock_of orbit clock marker bytes }
{
    let ticked = clock.ticked(orbit, marker);
    Clock {
        orbits: orbit_count(bytes[0], ticked.orbits),
        ..ticked
    }
}
