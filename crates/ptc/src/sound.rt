// What a controller must be, among m crossings done (document 01, "Sound").
ghost use Rattle.std.specs.Prelude.{◌≡◌, ◌<◌, ◌^◌};
ghost use Rattle.ptc.specs.Sound.{sound_cycle, sound_ptc};

use crate::Ptc;
use crate::cycle::{ARMED, NONE, OPEN};
use states::is_running;

fn is_cycle_sound(own: bool, state: u8, cycle: u8) -> bool
    ensures { result ≡ sound_cycle own state cycle }
{
    match cycle {
        NONE => true,
        ARMED => is_running(state),
        OPEN => own && is_running(state),
        _ => false,
    }
}

impl Ptc {
    #[tactic(auto, unfolding(crate::specs::Sound::sound_ptc))]
    pub fn is_sound(&self, k: u32, own: bool, m: u64) -> bool
        requires { m < 2 ^ 60 }
        ensures { result ≡ sound_ptc k own m self.now }
    {
        states::is_sound(k, self.state, self.wait)
            && is_cycle_sound(own, self.state, self.cycle)
            && self.counts.is_sound(m)
            && self.events <= m
    }
}
