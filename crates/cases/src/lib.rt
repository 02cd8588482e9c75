// What the case programs share: the lines of their input, and how they print texts, numbers, answers and bytes.
#![tactic(auto)]

mod bytes;
mod line;
mod log;
mod record;

ghost use Rattle.std.specs.Prelude.{◌≡◌, ◌+◌, ◌≤◌, min, length, IfOk};

use answer::{Answer, Refusal};
pub use bytes::{say_left, say_untouched, say_written};
use files::read_piece;
pub use line::{Words, at_most, words_of};
pub use log::Log;
pub use record::{byte, record_of};
use std::io;
use std::io::{Read, Write};

// The front of a buffer that the whole input lies in, or as much of it as has room there.
pub fn read_input<R: Read + Drop>(input: R, room: &mut [u8]) -> io::Result<usize>
    ensures { IfOk result (λ n. n ≤ length room.new) }
{
    let got = read_piece(&mut Some(input), room);
    match got.failed {
        None => Ok(got.count),
        Some(error) => Err(error),
    }
}

// No contract says what is printed: `stdout` does.
pub fn say<W: Write>(out: &mut W, text: &[u8]) -> io::Result<()> {
    out.write_all(text)
}

// No contract says what is printed: `stdout` does.
pub fn end_line<W: Write>(out: &mut W) -> io::Result<()> {
    writeln!(out)
}

// The line, where it is a comment. No contract says what is printed: `stdout` does.
pub fn say_comment<W: Write>(out: &mut W, line: &[u8]) -> io::Result<()> {
    if line.starts_with(b"#") {
        out.write_all(line)?;
        writeln!(out)?;
    }
    Ok(())
}

// A number after a text. No contract says what is printed: `stdout` does.
pub fn say_number<W: Write>(out: &mut W, before: &[u8], n: u64) -> io::Result<()> {
    say(out, before)?;
    write!(out, "{n}")
}

// The refusal's number or 0 after a text, and what it carries. No contract says what is printed: `stdout` does.
pub fn say_answer<W: Write>(out: &mut W, before: &[u8], answer: Answer) -> io::Result<()> {
    say_number(out, before, answer::number(answer))?;
    match answer {
        Err(
            Refusal::Text(value)
            | Refusal::Range(value)
            | Refusal::Room(value)
            | Refusal::Record(value),
        ) => write!(out, " carries {value}"),
        Err(Refusal::Relation(which, controller)) => {
            write!(out, " carries {which} {controller}")
        }
        Ok(()) | Err(Refusal::Board | Refusal::Length | Refusal::Life | Refusal::Store) => Ok(()),
    }
}
