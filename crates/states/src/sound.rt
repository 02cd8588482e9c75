// What a controller's state and wait must be (document 01, "Sound").
ghost use Rattle.std.specs.Prelude.{◌≡◌};
ghost use Rattle.states.specs.Sound.{waiting, sound_state};

fn is_waiting(state: u8) -> bool
    ensures { result ≡ waiting state }
{
    matches!(state, 2 | 12 | 14 | 15 | 17)
}

#[tactic(auto, unfolding(crate::specs::Sound::sound_state))]
pub fn is_sound(k: u32, state: u8, wait: u32) -> bool
    ensures { result ≡ sound_state k state wait }
{
    match state {
        3 if k != 0 => false,
        0..=19 => wait == 0 || is_waiting(state) && wait <= 255,
        _ => false,
    }
}
