// One partition controller: through a crossing, and under a command (document 01, "States", "Cycle and trigger").
#![tactic(auto)]

mod cycle;
mod sound;

ghost use Rattle.std.specs.Prelude.{◌≡◌, ◌<◌, ◌^◌};
ghost use Rattle.ptc.specs.Support.Room.{Room};
ghost use Rattle.ptc.specs.Fresh.{fresh_ptc};
ghost use Rattle.ptc.specs.Crossing.{rule_in, code_of, events_of, crossed_of};
ghost use Rattle.states.specs.Moves.{orbit_code};
ghost use Rattle.ptc.specs.Support.Rest.{at_rest, rested_of};
ghost use Rattle.ptc.specs.Support.Times.{schedule_from, plan_from};
ghost use Rattle.ptc.specs.Command.{led_ptc, commanded_of};

use counts::Counts;
use cycle::{ARMED, NONE, OPEN, asks_trigger, cycle_code, kept, opened};
use settings::{Gap, Schedule, Waits};
use states::{CALIBRATE, START, WARN};

#[derive(Clone, Copy, Debug, Default, PartialEq, Eq)]
pub struct Ptc {
    pub state: u8,
    pub wait: u32,
    // 0 none, 1 armed, 2 open.
    pub cycle: u8,
    pub counts: Counts,
    // Triggers of both kinds since code 7.
    pub events: u64,
}

// What of the settings a controller goes by.
#[derive(Clone, Copy)]
pub struct Plan {
    pub at: Schedule,
    pub waits: Waits,
    pub gap: Gap,
}

// What all eight see of a crossing: its number, the holder, and which rule refuses a trigger at normal and at low limits, 0 where none does.
#[derive(Clone, Copy)]
pub struct Scene {
    pub number: u32,
    pub holder: u32,
    pub norm: u8,
    pub low: u8,
}

// A controller after a crossing, and what it sent in it.
#[derive(Clone, Copy)]
pub struct Crossed {
    pub ptc: Ptc,
    pub code: u8,
    pub sent: bool,
    pub cal: bool,
}

// Controller k's schedule, of those of all eight.
pub fn schedule_of(times: &[u32; 88], k: u32) -> Schedule
    ensures { result ≡ schedule_from times.now k }
{
    let a = 11 * (k % 8) as usize;
    Schedule {
        bc0: times[a],
        te: times[a + 1],
        resync: times[a + 2],
        hard: times[a + 3],
        ec0: times[a + 4],
        oc0: times[a + 5],
        start: times[a + 6],
        stop: times[a + 7],
        gap: times[a + 8],
        wte: times[a + 9],
        cal: times[a + 10],
    }
}

// The code that it sends at this number in every state.
#[tactic(auto, unfolding(states::specs::Moves::orbit_code))]
fn orbit_code_of(times: &[u32; 88], k: u32, number: u32) -> u8
    ensures { result ≡ orbit_code (schedule_from times.now k) number }
{
    let a = 11 * (k % 8) as usize;
    if number == times[a] {
        1
    } else if number == times[a + 8] {
        11
    } else {
        0
    }
}

impl Scene {
    fn rule_in(self, state: u8) -> u8
        ensures { result ≡ rule_in self state }
    {
        if state == WARN { self.low } else { self.norm }
    }
}

fn code_of(step: u8, orbit: u8, cycle: u8) -> u8
    ensures { result ≡ code_of step orbit cycle }
{
    match (step, orbit) {
        (0, 0) => cycle,
        (0, _) => orbit,
        _ => step,
    }
}

// Code 7 sets them to 0; then both kinds of trigger count.
fn events_of(step: u8, events: u64, sent: bool, cal: bool) -> u64
    requires { events < 2 ^ 41 }
    ensures { result ≡ events_of step events sent cal }
{
    let before = if step == 7 { 0 } else { events };
    before + u64::from(sent || cal)
}

impl Ptc {
    // A controller of a fresh board.
    pub fn fresh() -> Ptc
        ensures { result ≡ fresh_ptc }
    {
        Ptc::default()
    }

    // Steps 3 and 4 of a crossing. Most controllers are at rest, and then there is little to do.
    // The schedules are lent: a controller at rest looks at two numbers of its own.
    #[tactic(auto, using(crate::proofs::Rest::rest_crossed))]
    pub fn crossed(
        self,
        times: &[u32; 88],
        waits: Waits,
        gap: Gap,
        scene: Scene,
        k: u32,
        class: u8,
        asked: bool,
    ) -> Crossed
        requires { Room self }
        ensures { result ≡ crossed_of (plan_from times.now waits gap k) scene k class asked self }
    {
        if self.is_at_rest(class) {
            let code = orbit_code_of(times, k, scene.number);
            return self.rested(gap, code, scene, k, asked);
        }
        let at = schedule_of(times, k);
        self.moved(Plan { at, waits, gap }, scene, k, class, asked)
    }

    // The move, then the cycle and the trigger by the state after it.
    #[tactic(auto, unfolding(crate::specs::Crossing::crossed_of))]
    fn moved(self, plan: Plan, scene: Scene, k: u32, class: u8, asked: bool) -> Crossed
        requires { Room self }
        ensures { result ≡ crossed_of plan scene k class asked self }
    {
        let at = plan.at;
        let number = scene.number;
        let own = k == scene.holder;
        let step = states::advance(at, plan.waits, k, number, class, self.state, self.wait);
        let before = kept(step.state, own, self.cycle);
        let cycle = opened(at, number, own, before);
        let asks = asks_trigger(at, number, cycle);
        let rule = scene.rule_in(step.state);
        let free = rule == 0;
        let fate = counts::fate(plan.gap, number, step.state, own, cycle == OPEN, rule);
        let sent = asked && fate == counts::SENT;
        let cal = asks && free;
        let ptc = Ptc {
            state: step.state,
            wait: step.wait,
            // A cycle ends with the crossing in which it asks for its trigger.
            cycle: if asks { NONE } else { cycle },
            counts: self.counts.counted(asked, fate, asks, free),
            events: events_of(step.code, self.events, sent, cal),
        };
        let orbit = states::orbit_code(at, number);
        let code = code_of(step.code, orbit, cycle_code(at, number, before, cycle));
        Crossed {
            ptc,
            code,
            sent,
            cal,
        }
    }

    // Whether a crossing leaves the controller where it is: no wait, no cycle, and a state that stays.
    #[tactic(auto, unfolding(crate::specs::Support::Rest::at_rest))]
    pub fn is_at_rest(&self, class: u8) -> bool
        ensures { result ≡ at_rest class self.now }
    {
        self.wait == 0 && self.cycle == NONE && states::rests(class, self.state)
    }

    // A crossing of a controller at rest: only a request changes it.
    #[tactic(auto, unfolding(crate::specs::Support::Rest::rested_of))]
    fn rested(self, gap: Gap, code: u8, scene: Scene, k: u32, asked: bool) -> Crossed
        requires { Room self }
        ensures { result ≡ rested_of gap code scene k asked self }
    {
        let rule = scene.rule_in(self.state);
        let own = k == scene.holder;
        let fate = counts::fate(gap, scene.number, self.state, own, false, rule);
        let sent = asked && fate == counts::SENT;
        let ptc = Ptc {
            counts: self.counts.with_request(asked, fate),
            events: self.events + u64::from(sent),
            ..self
        };
        Crossed {
            ptc,
            code,
            sent,
            cal: false,
        }
    }

    // The other commands than CALIBRATE lead to a state, set its wait and drop the cycle; START begins the run counts anew.
    fn lead(&mut self, waits: Waits, command: u8)
        ensures { self.new ≡ led_ptc waits command self.old }
    {
        self.state = states::state_after(command, self.state);
        self.wait = states::entry_wait(waits, self.state);
        self.cycle = NONE;
        if command == START {
            self.counts = Counts::none();
        }
    }

    // Whether the command is taken; one that is not changes nothing. CALIBRATE arms a cycle.
    #[tactic(auto, unfolding(crate::specs::Command::commanded_of))]
    pub fn command(&mut self, waits: Waits, command: u8) -> bool
        ensures ptc { self.new ≡ (commanded_of waits command self.old).ptc }
        ensures taken { result ≡ (commanded_of waits command self.old).taken }
    {
        if !states::takes(command, self.state, self.cycle != NONE) {
            return false;
        }
        if command == CALIBRATE {
            self.cycle = ARMED;
        } else {
            self.lead(waits, command);
        }
        true
    }
}
