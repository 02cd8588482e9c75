// The clock and the slot: a crossing's number, the orbit count, the holder and the hand-over (document 01, step 1 of "One crossing").
#![tactic(auto)]

ghost use Rattle.std.specs.Prelude.{◌≡◌, not, ◌&&◌, ◌+◌, ◌<◌, ◌≤◌, ◌^◌, eqb, get_or};
ghost use Rattle.laws.specs.Base.{all_b};
ghost use Rattle.clock.specs.Clock.{number_of, orbit_ends, next_of, ticked_of, sound_clock};
ghost use Rattle.clock.specs.Turn.{next_from, takes_over, fallen_of, turned_of, fresh_turn, held, sound_turn};
ghost use Rattle.clock.specs.Support.Room.{ClockRoom, SlotRoom};

#[derive(Clone, Copy, Debug, PartialEq, Eq)]
pub struct Clock {
    pub crossings: u64,
    // The number that the next crossing has where no marker comes.
    pub next: u32,
    pub orbits: u64,
    pub errors: u64,
}

// Who holds the slot, 8 for none, and for how many orbits more.
#[derive(Clone, Copy, Debug, PartialEq, Eq)]
pub struct Turn {
    pub holder: u32,
    pub left: u32,
}

fn next_number(orbit: u32, number: u32) -> u32
    requires { number + 1 < 2 ^ 32 }
    ensures { result ≡ next_of orbit number }
{
    if number + 1 < orbit { number + 1 } else { 0 }
}

// A marker where another number than 0 was expected.
fn is_error(marker: bool, next: u32) -> bool
    ensures { result ≡ (marker && not (eqb next 0)) }
{
    marker && next != 0
}

impl Clock {
    pub fn number(self, marker: bool) -> u32
        ensures { result ≡ number_of self marker }
    {
        if marker { 0 } else { self.next }
    }

    // Whether this crossing's number is a 0 that ends an orbit: any but that of the very first crossing.
    pub fn ends_orbit(self, marker: bool) -> bool
        ensures { result ≡ orbit_ends self marker }
    {
        self.number(marker) == 0 && 0 < self.crossings
    }

    pub fn ticked(self, orbit: u32, marker: bool) -> Clock
        requires { ClockRoom self }
        ensures { result ≡ ticked_of orbit self marker }
    {
        let number = self.number(marker);
        let ends = self.ends_orbit(marker);
        Clock {
            crossings: self.crossings + 1,
            next: next_number(orbit, number),
            orbits: self.orbits + plain::one(ends),
            errors: self.errors + plain::one(is_error(marker, self.next)),
        }
    }

    pub fn is_sound(self, most: u64, orbit: u32) -> bool
        ensures { result ≡ sound_clock most orbit self }
    {
        if most < self.crossings {
            return false;
        }
        if orbit <= self.next {
            return false;
        }
        if self.crossings < self.orbits {
            return false;
        }
        self.errors <= self.crossings
    }
}

// The next controller with a slot, of the `count` from `first` on, or 8.
fn next_with_slot(slots: &[u32; 8], first: usize, count: usize) -> u32
    requires { (first ≤ 8) × (count ≤ 8) }
    ensures { result ≡ next_from slots.now first count }
{
    let mut i = first;
    let mut left = count;
    while 0 < left {
        let k = i % 8;
        if 0 < slots[k] {
            return k as u32;
        }
        i += 1;
        left -= 1;
    }
    8
}

fn slot_of(slots: &[u32; 8], k: u32) -> u32
    ensures { result ≡ get_or slots.now k 0 }
{
    let all: &[u32] = slots;
    let i = k as usize;
    if i < all.len() {
        return all[i];
    }
    0
}

fn taken_over(slots: &[u32; 8], k: u32) -> Turn
    requires { SlotRoom slots.now }
    ensures { result ≡ takes_over slots.now k }
{
    Turn {
        holder: k,
        left: 10 * slot_of(slots, k),
    }
}

fn no_slots(slots: &[u32; 8]) -> bool
    ensures { result ≡ all_b (λ s. eqb s 0) slots.now }
{
    let all: &[u32] = slots;
    let mut k = 0;
    while k < all.len() {
        if 0 < all[k] {
            return false;
        }
        k += 1;
    }
    true
}

impl Turn {
    pub fn fresh(slots: &[u32; 8]) -> Turn
        requires { SlotRoom slots.now }
        ensures { result ≡ fresh_turn slots.now }
    {
        taken_over(slots, next_with_slot(slots, 0, 8))
    }

    // One orbit less; at none left the next one takes over.
    #[tactic(auto, unfolding(crate::specs::Turn::fallen_of))]
    fn fallen(self, slots: &[u32; 8]) -> Turn
        requires { (SlotRoom slots.now) × (self.holder < 8) }
        ensures { result ≡ fallen_of slots.now self }
    {
        if 1 < self.left {
            return Turn {
                holder: self.holder,
                left: self.left - 1,
            };
        }
        let first = self.holder as usize + 1;
        taken_over(slots, next_with_slot(slots, first, 8))
    }

    pub fn turned(self, slots: &[u32; 8], ends: bool) -> Turn
        requires { (SlotRoom slots.now) × (self.holder ≤ 8) }
        ensures { result ≡ turned_of slots.now ends self }
    {
        if !ends {
            return self;
        }
        if self.holder == 8 {
            return self;
        }
        self.fallen(slots)
    }

    fn is_held(self, slots: &[u32; 8]) -> bool
        requires { SlotRoom slots.now }
        ensures { result ≡ held slots.now self }
    {
        let slot = slot_of(slots, self.holder);
        0 < slot && (1 <= self.left && self.left <= 10 * slot)
    }

    pub fn is_sound(self, slots: &[u32; 8]) -> bool
        requires { SlotRoom slots.now }
        ensures { result ≡ sound_turn slots.now self }
    {
        if self.holder < 8 {
            return self.is_held(slots);
        }
        if self.holder != 8 {
            return false;
        }
        if self.left != 0 {
            return false;
        }
        no_slots(slots)
    }
}
