// What a board must be (document 01, "Sound"), for any values at all of its six parts.
#![tactic(auto)]

ghost use Rattle.std.specs.Prelude.{◌≡◌};
ghost use Rattle.soundness.specs.Sound.{sound_parts};

use clock::{Clock, Turn};
use ptc::Ptc;
use settings::Settings;
use steady::Held;

pub fn is_sound(
    settings: &Settings,
    clock: Clock,
    turn: Turn,
    ptcs: &[Ptc; 8],
    held: Held,
    marks: &[u64; 32],
) -> bool
    ensures { result ≡ sound_parts settings.now clock turn ptcs.now held marks.now }
{
    if settings.check().is_err() {
        return false;
    }
    if !clock.is_sound(records::LIFETIME, settings.orbit()) {
        return false;
    }
    if !turn.is_sound(&kit::slots_of(*settings)) {
        return false;
    }
    if !eight::are_sound(ptcs, turn.holder, clock.crossings) {
        return false;
    }
    if !held.is_sound() {
        return false;
    }
    throttle::is_sound(marks, clock.crossings)
}
