// Walks one controller through every state with every merged class and with every command, and prints where it goes.
#![tactic(auto)]

ghost use Rattle.ptc.specs.Support.Room.{Room};

use kit::Kit;
use ptc::{Ptc, Scene};
use settings::Settings;
use std::io::Write;
use std::{fmt, io};

// A state, its wait and the number of a crossing in which a code may be sent.
const CODES: [(u8, u32, u32); 9] = [
    (1, 0, 100),
    (3, 0, 400),
    (4, 0, 500),
    (5, 0, 300),
    (13, 0, 200),
    (16, 0, 100),
    (19, 0, 600),
    (7, 0, 0),
    (7, 0, 3444),
];

// The same of crossings in which a wait goes on or ends.
const WAITS: [(u8, u32, u32); 7] = [
    (2, 2, 0),
    (2, 1, 0),
    (2, 1, 50),
    (12, 1, 0),
    (14, 1, 0),
    (15, 1, 0),
    (17, 1, 0),
];

// Where a controller is: its state, and its wait and its cycle where it has them.
#[derive(Drop)]
struct Place(Ptc);

impl fmt::Display for Place {
    fn fmt<W: fmt::Write>(&self, f: &mut fmt::Formatter<W>) -> fmt::Result {
        let Ptc {
            state,
            wait,
            cycle,
            ..
        } = self.0;
        write!(f, "{state}")?;
        if wait != 0 {
            write!(f, "w{wait}")?;
        }
        if cycle != 0 {
            write!(f, "c{cycle}")?;
        }
        Ok(())
    }
}

fn in_state(state: u8, wait: u32, cycle: u8) -> Ptc
    ensures { Room result }
{
    Ptc {
        state,
        wait,
        cycle,
        ..Ptc::fresh()
    }
}

// Where a controller is after one crossing, and the code sent in it where there was one.
fn say_crossing<W: Write>(
    out: &mut W,
    kit: &Kit,
    k: u32,
    from: Ptc,
    number: u32,
    class: u8,
) -> io::Result<()>
    requires { Room from }
{
    let scene = Scene {
        number,
        holder: 8,
        norm: 0,
        low: 0,
    };
    let crossed = from.crossed(&kit.times, kit.waits, kit.gap, scene, k, class, false);
    let place = Place(crossed.ptc);
    let code = crossed.code;
    write!(out, " {place}")?;
    if code != 0 {
        write!(out, " sends {code}")?;
    }
    Ok(())
}

// Every state with each merged class, from none to disconnected, at a number that is no code's.
fn say_moves<W: Write>(out: &mut W, kit: &Kit, k: u32) -> io::Result<()> {
    for state in 0..20 {
        write!(out, "{state}:")?;
        for class in 0..8 {
            say_crossing(out, kit, k, in_state(state, 0, 0), 50, class)?;
        }
        writeln!(out)?;
    }
    Ok(())
}

// States, with a wait, at a number, with merged class ready.
fn say_steps<W: Write>(out: &mut W, kit: &Kit, steps: &[(u8, u32, u32)]) -> io::Result<()> {
    for &(state, wait, number) in steps {
        write!(out, "{state} at {number}:")?;
        say_crossing(out, kit, 0, in_state(state, wait, 0), number, 1)?;
        writeln!(out)?;
    }
    Ok(())
}

// Every state with each command, 0 and 7 among them, which are none: a dash where it is not taken.
fn say_commands<W: Write>(out: &mut W, kit: &Kit, cycle: u8) -> io::Result<()> {
    for state in 0..20 {
        write!(out, "{state}:")?;
        for command in 0..8 {
            let mut ptc = in_state(state, 0, cycle);
            if ptc.command(kit.waits, command) {
                let place = Place(ptc);
                write!(out, " {place}")?;
            } else {
                write!(out, " -")?;
            }
        }
        writeln!(out)?;
    }
    Ok(())
}

fn say_statuses<W: Write>(out: &mut W) -> io::Result<()> {
    for state in 0..20 {
        let status = states::status(state);
        write!(out, " {status}")?;
    }
    writeln!(out)
}

fn main(rt: HostRuntime) -> io::Result<()> {
    let out = &mut io::writer(&rt);
    let kit = Kit::of(Settings::standard());
    writeln!(
        out,
        "controller 0, by class none ready warning busy out-of-sync error bad disconnected"
    )?;
    say_moves(out, &kit, 0)?;
    writeln!(out, "controller 1")?;
    say_moves(out, &kit, 1)?;
    writeln!(out, "codes")?;
    say_steps(out, &kit, &CODES)?;
    writeln!(out, "waits")?;
    say_steps(out, &kit, &WAITS)?;
    writeln!(
        out,
        "no cycle, by command 0 START STOP HARD RESYNC CALIBRATE PANIC 7"
    )?;
    say_commands(out, &kit, 0)?;
    writeln!(out, "armed")?;
    say_commands(out, &kit, 1)?;
    writeln!(out, "statuses")?;
    say_statuses(out)
}
