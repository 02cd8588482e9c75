// One input through a crossing: its believed code, and the change that a store keeps of it (document 02, P6).
#![tactic(auto)]

ghost use Rattle.std.specs.Prelude.{◌≡◌, ◌≤◌, ◌<◌, length, get_or, IfSome};
ghost use Rattle.std.specs.Option.{option_to_list};
ghost use Rattle.status.specs.Codes.{code_at};
ghost use Rattle.clock.specs.Support.Room.{ClockRoom};
ghost use Rattle.history.specs.Keep.{Fits, kept_all};
ghost use Rattle.history.specs.Support.Pen.{store_at, Aligned};
ghost use Rattle.follower.specs.Change.{one_code, change_for};
ghost use Rattle.follower.specs.Support.Follower.{change_seen, next_follower};

use clock::Clock;
use history::{Change, Pen, WORDS};

// What a run tells of one input: the clock, and the two codes that the board holds of it.
#[derive(Drop)]
pub struct Follower {
    pub clock: Clock,
    pub carried: u8,
    pub believed: u8,
}

// The code of an input, of the 21 bytes that hold all 41.
#[tactic(auto, unfolding(status::specs::Codes::code_at))]
pub fn code_at(codes: &[u8], input: usize) -> u8
    requires { (length codes.now ≡ 21) × (get_or codes.now 0 0 < 16) × (input ≤ 40) }
    ensures { (result ≡ code_at codes.now input) × (result < 16) }
{
    if input == 40 {
        return codes[0];
    }
    let byte = codes[1 + input / 2];
    if input % 2 == 0 { byte % 16 } else { byte / 16 }
}

// 0 and 15, both disconnected, are one code.
fn one_code(code: u8) -> u8
    ensures { result ≡ one_code code }
{
    if code == 0 { 15 } else { code }
}

// The change from a believed code to another, where they are not one.
#[tactic(auto, unfolding(crate::specs::Change::change_for))]
fn change_for(orbits: u64, number: u32, before: u8, after: u8) -> Option<Change>
    requires { (number < 4096) × (after < 16) }
    ensures { (option_to_list result ≡ change_for orbits number before after) × IfSome result Fits }
{
    let code = one_code(after);
    if one_code(before) == code {
        return None;
    }
    Some(Change {
        orbit: (orbits % 4294967296) as u32,
        number,
        code,
    })
}

impl Follower {
    // Through a crossing with this marker and this code of the input, whose row begins with this byte: the store keeps the orbit
    // count that step 1 leaves, and the row tells whether step 3 sets it back.
    #[tactic(auto, unfolding(crate::specs::Support::Follower::change_seen, crate::specs::Support::Follower::next_follower, history::specs::Keep::kept_all))]
    pub fn crossed(
        &mut self,
        words: &mut [u16; WORDS],
        pen: &mut Pen,
        orbit: u32,
        marker: bool,
        code: u8,
        first: u8,
    )
        requires { (Aligned words.old pen.old) × (ClockRoom self.old.clock) × (self.old.clock.next < 4096) × (self.old.believed < 16) × (code < 16) }
        ensures { (self.new ≡ next_follower orbit self.old marker code first) × (store_at words.new pen.new ≡ kept_all (store_at words.old pen.old) (change_seen orbit self.old marker code)) × (Aligned words.new pen.new) }
    {
        let believed = steady::code(self.carried, self.believed, code);
        let ticked = self.clock.ticked(orbit, marker);
        let count = eight::orbit_count(first, ticked.orbits);
        let number = self.clock.number(marker);
        let change = change_for(ticked.orbits, number, self.believed, believed);
        *self = Follower {
            clock: Clock {
                orbits: count,
                ..ticked
            },
            carried: code,
            believed,
        };
        if let Some(change) = change {
            pen.keep(words, change);
        }
    }
}
