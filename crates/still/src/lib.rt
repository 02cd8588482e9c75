// What a crossing sees before any controller moves, and which controllers it has to look at: most crossings of a log find every
// controller where it was, and then only those that ask matter.
#![tactic(auto)]

ghost use Rattle.std.specs.Prelude.{◌≡◌, true, not, ◌||◌, ◌%◌, ◌<◌, ◌≤◌, eqb, length, get_or};
ghost use Rattle.status.specs.Codes.{Coded};
ghost use Rattle.lanes.specs.Support.Lanes.{lane_classes};
ghost use Rattle.steady.specs.Held.{next_held, AreBytes};
ghost use Rattle.throttle.specs.Rules.{Sensible};
ghost use Rattle.clock.specs.Support.Room.{SlotRoom};
ghost use Rattle.states.specs.Moves.{moved_of};
ghost use Rattle.records.specs.Records.{codes_in, asked_in};
ghost use Rattle.ptc.specs.Support.Times.{schedule_from};
ghost use Rattle.kit.specs.Support.Laid.{plain_in};
ghost use Rattle.still.specs.Support.Still.{due_of, next_due};
ghost use Rattle.still.specs.Support.Sight.{sight_of, scene_for, first_sight};

use clock::{Clock, Turn};
use kit::Kit;
use ptc::{Ptc, Scene};
use steady::Held;

// What is told from one record to the next, and what this crossing brings.
#[derive(Clone, Copy)]
pub struct Sight {
    pub turn: Turn,
    pub classes: [u8; 8],
    // This crossing has the codes of the one before it, so that all of them are believed.
    pub firm: bool,
    pub marker: bool,
    pub requests: u8,
    // A bit for each controller that is looked at.
    pub due: u8,
}

fn is_plain_number(busy: &[u8; 4096], number: u32) -> bool
    ensures { result ≡ plain_in busy.now number }
{
    busy[(number % 4096) as usize] == 0
}

// Those that ask, where no other moves or sends: all are at rest, the codes go on, and nothing falls on the number.
fn due(still: bool, busy: &[u8; 4096], number: u32, requests: u8) -> u8
    ensures { result ≡ due_of still busy.now number requests }
{
    if !still {
        return 255;
    }
    if is_plain_number(busy, number) {
        requests
    } else {
        255
    }
}

// The first of the eight from k on that is due, or 8.
pub fn next_due(due: u8, k: usize) -> usize
    requires { k ≤ 8 }
    ensures { result ≡ next_due due k }
{
    let rest = due as u64 >> k as u64;
    if rest == 0 {
        return 8;
    }
    k + u64::trailing_zeros(rest) as usize
}

// The classes: those of the crossing before, where the believed codes stayed.
fn classes_of(table: &[u64; 656], before: [u8; 8], stays: bool, believed: &[u8; 21]) -> [u8; 8]
    requires { (get_or believed.now 0 0 < 16) × (stays ≡ true → before ≡ lane_classes table.now believed.now) }
    ensures { result ≡ lane_classes table.now believed.now }
{
    if stays {
        return before;
    }
    lanes::merge(table, believed)
}

impl Sight {
    // Before the first record, by the codes that are held. That they are 21 bytes is told on.
    pub fn first(turn: Turn, kit: &Kit, held: &Held) -> Sight
        requires { get_or held.now.believed 0 0 < 16 }
        ensures { (result ≡ first_sight turn kit.now.lanes held.now.carried held.now.believed) × AreBytes held.now.carried × AreBytes held.now.believed }
    {
        Sight {
            turn,
            classes: lanes::merge(&kit.lanes, &held.believed),
            firm: held.is_firm(),
            marker: false,
            requests: 0,
            due: 0,
        }
    }

    // What a record that is a crossing brings, and the held codes after it. Whether all eight are at rest under the classes before
    // it is told.
    pub fn next(
        self,
        kit: &Kit,
        busy: &[u8; 4096],
        clock: Clock,
        calm: bool,
        held: &mut Held,
        rec: &[u8],
    ) -> Sight
        requires { (length rec.now ≡ 24) × (Coded (codes_in rec.now)) × (Coded held.old.carried) × (Coded held.old.believed) × (self.classes ≡ lane_classes kit.now.lanes held.old.believed) × (self.firm ≡ true → held.old.believed ≡ held.old.carried) × (SlotRoom kit.now.slots) × (self.turn.holder ≤ 8) }
        ensures { (result ≡ sight_of busy.now kit.now.lanes kit.now.slots clock self.turn calm held.old.carried held.old.believed rec.now) × (held.new ≡ next_held held.old (codes_in rec.now)) }
    {
        let marker = rec[1] == 1;
        let requests = rec[2];
        let news = held.follow(self.firm, &rec[3..]);
        let classes = classes_of(&kit.lanes, self.classes, news.stays, &held.believed);
        let number = clock.number(marker);
        Sight {
            turn: self.turn.turned(&kit.slots, clock.ends_orbit(marker)),
            classes,
            firm: news.firm,
            marker,
            requests,
            due: due(plain::both(calm, news.stays), busy, number, requests),
        }
    }
}

// Whether the holder asks for a trigger, or a cycle of it may.
fn asks(p: Ptc, holder: u32, requests: u8) -> bool
    ensures { result ≡ (asked_in requests (holder % 8) || not (eqb p.cycle 0)) }
{
    records::asked(requests, (holder % 8) as usize) || p.cycle != 0
}

// Whether the holder is in WARN after its move.
fn is_warned(p: Ptc, kit: &Kit, number: u32, holder: u32, class: u8) -> bool
    ensures { result ≡ eqb (moved_of (schedule_from kit.now.times holder) kit.now.waits holder number class p.state p.wait).state 8 }
{
    if p.is_at_rest(class) {
        return p.state == 8;
    }
    let at = ptc::schedule_of(&kit.times, holder);
    let step = states::advance(at, kit.waits, holder, number, class, p.state, p.wait);
    step.state == 8
}

impl Sight {
    // What all eight see of a crossing. Only the holder, whose value p is, can send: so the rules are looked at only where it asks.
    pub fn scene(self, kit: &Kit, p: Ptc, marks: &[u64; 32], clock: Clock) -> Scene
        requires { Sensible kit.now.rules }
        ensures { result ≡ scene_for kit.now.times kit.now.waits kit.now.rules p self marks.now clock }
    {
        let number = clock.number(self.marker);
        let holder = self.turn.holder;
        let mut rule = 0;
        if asks(p, holder, self.requests) {
            let class = self.classes[(holder % 8) as usize];
            let warn = is_warned(p, kit, number, holder, class);
            rule = throttle::refused_by(marks, kit.rules, clock.crossings, warn);
        }
        Scene {
            number,
            holder,
            norm: rule,
            low: rule,
        }
    }
}
