// What of the settings a crossing goes by, laid out once for many crossings.
#![tactic(auto)]

ghost use Rattle.std.specs.Prelude.{◌≡◌};
ghost use Rattle.kit.specs.Kit.{slots_of};
ghost use Rattle.kit.specs.Support.Laid.{times_for, busy_of, kit_of};

use settings::{Gap, Rules, Settings, Waits};
use status::Merger;
use std::array;

#[derive(Clone, Copy)]
pub struct Kit {
    pub orbit: u32,
    pub waits: Waits,
    pub gap: Gap,
    // The schedules of all eight, eleven numbers each.
    pub times: [u32; 88],
    pub rules: Rules,
    pub lanes: [u64; 656],
    pub slots: [u32; 8],
}

pub fn slots_of(s: Settings) -> [u32; 8]
    ensures { result ≡ slots_of s }
{
    array::from_fn(|k| s.slot(k))
}

fn times_of(s: Settings) -> [u32; 88]
    ensures { result ≡ times_for s }
{
    let mut times = [0; 88];
    times.copy_from_slice(&s.values[27..115]);
    times
}

// 1 at each number at which some controller sends code 1 or 11. Beside the kit, which is handed over by value.
#[tactic(auto, unfolding(crate::specs::Support::Laid::busy_for))]
pub fn busy_of(s: Settings) -> [u8; 4096]
    ensures { result ≡ busy_of s }
{
    let mut busy = [0; 4096];
    for k in 0..8 {
        let at = s.schedule(k);
        busy[(at.bc0 % 4096) as usize] = 1;
        busy[(at.gap % 4096) as usize] = 1;
    }
    busy
}

impl Kit {
    #[tactic(auto, unfolding(crate::specs::Support::Laid::kit_of))]
    pub fn of(s: Settings) -> Kit
        ensures { result ≡ kit_of s }
    {
        Kit {
            orbit: s.orbit(),
            waits: s.waits(),
            gap: s.gap(),
            times: times_of(s),
            rules: s.rules(),
            lanes: lanes::table(Merger::of(s)),
            slots: slots_of(s),
        }
    }
}
