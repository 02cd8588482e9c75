// Boards changed one value at a time.
ghost use Rattle.std.specs.Prelude.{◌<◌};

use board::Board;
use cases::byte;
use ptc::Ptc;
use steady::Held;

pub(crate) fn small(n: u64) -> u32 {
    (n % 4294967296) as u32
}

// By field: crossings, next, orbit, errors, holder, left.
pub(crate) fn set_clock(board: &mut Board, field: u64, value: u64) {
    match field {
        0 => board.clock.crossings = value,
        1 => board.clock.next = small(value),
        2 => board.clock.orbits = value,
        3 => board.clock.errors = value,
        4 => board.turn.holder = small(value),
        5 => board.turn.left = small(value),
        _ => {}
    }
}

// By field: state, wait, cycle, events, requested, accepted, the five losses, the three of calibration, then the four of the rules.
pub(crate) fn set_ptc(ptc: &mut Ptc, field: u64, value: u64) {
    match field {
        0 => ptc.state = byte(value),
        1 => ptc.wait = small(value),
        2 => ptc.cycle = byte(value),
        3 => ptc.events = value,
        4 => ptc.counts.requested = value,
        5 => ptc.counts.accepted = value,
        6 => ptc.counts.lost.state = value,
        7 => ptc.counts.lost.slot = value,
        8 => ptc.counts.lost.gap = value,
        9 => ptc.counts.lost.cal = value,
        10 => ptc.counts.lost.throttle = value,
        11 => ptc.counts.cal.requested = value,
        12 => ptc.counts.cal.accepted = value,
        13 => ptc.counts.cal.lost = value,
        14 => ptc.counts.lost.rules.first = value,
        15 => ptc.counts.lost.rules.second = value,
        16 => ptc.counts.lost.rules.third = value,
        17 => ptc.counts.lost.rules.fourth = value,
        _ => {}
    }
}

// Byte i of the held codes, of the believed or of the carried ones.
pub(crate) fn set_held(held: &mut Held, is_believed: bool, i: usize, value: u64)
    requires { i < 21 }
{
    if is_believed {
        held.believed[i] = byte(value);
    } else {
        held.carried[i] = byte(value);
    }
}

// What is held where every input carries the code, and is believed to.
pub(crate) fn all_held(code: u64) -> Held {
    let mut codes = [byte(code % 16 * 17); 21];
    codes[0] = byte(code % 16);
    Held {
        carried: codes,
        believed: codes,
    }
}
