// Makes logs as standard input tells, salvages them, and prints what each call answered and wrote.
// A line is a letter and up to four numbers. `#` prints the line. `n` begins an empty log, numbered from 0. `a kind b1 b2 b3` adds a
// record, a crossing having every code 8. `z at v more step` sets a byte and as many more after it, each by a step higher; `l n` sets the
// log's length. `f n` numbers its records from n, `g n` from n below the greatest number. `s log list` salvages it into buffers of
// these lengths; `p at` numbers it from 0 and salvages it in two pieces, cut there, into one pair of buffers.
#![tactic(auto)]

ghost use Rattle.std.specs.Prelude.{◌<◌, ◌≤◌};

use answer::{Answer, Refusal};
use cases::{
    Log, Words, at_most, byte, end_line, read_input, record_of, say, say_answer, say_comment,
    say_number, say_untouched, say_written, words_of,
};
use salvage::{Lengths, salvage};
use std::io;
use std::io::Write;

const ROOM: usize = 240;

// The log that the lines have made, and the number of its first record.
#[derive(Drop)]
struct Case {
    log: Log<ROOM>,
    first: u64,
}

impl Case {
    fn empty() -> Self {
        Case {
            log: Log::empty(),
            first: 0,
        }
    }

    // Bytes past the end of the buffer are set from its start on.
    fn set_bytes(&mut self, at: usize, value: u8, more: usize, step: u8)
        requires { (at < 240) × (more < 240) }
    {
        let mut v = value;
        for k in 0..more + 1 {
            self.log.set((at + k) % ROOM, v);
            v = v.wrapping_add(step);
        }
    }

    // The log after a line.
    fn obey(&mut self, w: Words) {
        match w.letter {
            b'n' => *self = Case::empty(),
            b'a' => self.log.push(&record_of(w)),
            b'z' => self.set_bytes(at_most(w.a, 239), byte(w.b), at_most(w.c, 239), byte(w.d)),
            b'l' => self.log.set_length(at_most(w.a, ROOM)),
            b'f' => self.first = w.a,
            b'g' => self.first = u64::MAX - w.a,
            _ => {}
        }
    }

    fn run<W: Write>(&self, out: &mut W, w: Words) -> io::Result<()> {
        let log = self.log.bytes();
        let mut salvaged = [170; ROOM];
        let mut changes = [170; 1280];
        match w.letter {
            b's' => salvage_whole(out, self.first, log, &mut salvaged, &mut changes, w),
            b'p' => salvage_pieces(out, log, &mut salvaged, &mut changes, w),
            _ => Ok(()),
        }
    }
}

// The text in one line: a `/` stands for a newline, and no list has one of its own.
fn say_text<W: Write>(out: &mut W, text: &[u8]) -> io::Result<()> {
    if !text.is_empty() {
        say(out, b" ")?;
    }
    for b in text {
        say(out, &[if *b == b'\n' { b'/' } else { *b }])?;
    }
    Ok(())
}

// What came back, and the buffers after it, which held 170 everywhere.
fn say_salvaged<W: Write>(
    out: &mut W,
    a: Answer,
    wrote: Lengths,
    salvaged: &[u8],
    changes: &[u8],
) -> io::Result<()> {
    let done = a.is_ok();
    say_answer(out, b"answer ", a)?;
    end_line(out)?;
    say_number(out, b"  log ", wrote.log as u64)?;
    let end = at_most(wrote.log as u64, salvaged.len());
    say_written(out, b", buffer", salvaged, done, end, 24)?;
    say_number(out, b"  list ", wrote.list as u64)?;
    let end = at_most(wrote.list as u64, changes.len());
    say_text(out, &changes[..end])?;
    let what: &[u8] = if done { b", later bytes" } else { b", buffer" };
    say_untouched(out, what, &changes[end..])?;
    end_line(out)
}

// How many bytes were written: a refusal writes none.
fn wrote(r: Result<Lengths, Refusal>) -> Lengths {
    r.unwrap_or(Lengths { log: 0, list: 0 })
}

// Salvages into the first bytes of the buffers.
fn salvage_whole<W: Write>(
    out: &mut W,
    first: u64,
    log: &[u8],
    salvaged: &mut [u8],
    changes: &mut [u8],
    w: Words,
) -> io::Result<()> {
    let room = at_most(w.a, salvaged.len());
    let list = at_most(w.b, changes.len());
    let r = salvage(first, log, &mut salvaged[..room], &mut changes[..list]);
    say_salvaged(out, r.map(|_| ()), wrote(r), salvaged, changes)
}

// Where bytes that were written from a place on end, in a buffer of this length.
fn end_of(at: usize, wrote: usize, long: usize) -> usize
    requires { at ≤ long }
{
    at + at_most(wrote as u64, long - at)
}

// The second piece is numbered on, and written behind what the first one wrote; its answer is told.
fn salvage_pieces<W: Write>(
    out: &mut W,
    log: &[u8],
    salvaged: &mut [u8],
    changes: &mut [u8],
    w: Words,
) -> io::Result<()> {
    let cut = at_most(w.a, log.len());
    let a = wrote(salvage(0, &log[..cut], salvaged, changes));
    let m = at_most(a.log as u64, salvaged.len());
    let k = at_most(a.list as u64, changes.len());
    let b = salvage(
        (cut / 24) as u64,
        &log[cut..],
        &mut salvaged[m..],
        &mut changes[k..],
    );
    let more = wrote(b);
    let both = Lengths {
        log: end_of(m, more.log, salvaged.len()),
        list: end_of(k, more.list, changes.len()),
    };
    say_salvaged(out, b.map(|_| ()), both, salvaged, changes)
}

fn obey_all<W: Write>(out: &mut W, input: &[u8]) -> io::Result<()> {
    let mut case = Case::empty();
    for line in input.split(|b| *b == b'\n') {
        let w = words_of(line);
        say_comment(out, line)?;
        case.obey(w);
        case.run(out, w)?;
    }
    Ok(())
}

fn main(rt: HostRuntime) -> io::Result<()> {
    let mut input = [0; 8192];
    let n = read_input(rt.stdin(), &mut input)?;
    obey_all(&mut io::writer(&rt), &input[..n])
}
