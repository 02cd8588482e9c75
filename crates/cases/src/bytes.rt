// How the bytes that a call wrote, and what it left as it was, are told.
ghost use Rattle.std.specs.Prelude.{◌<◌, ◌≤◌, length};

use std::io;
use std::io::Write;

fn hex(n: u8) -> u8
    requires { n < 16 }
{
    if n < 10 { b'0' + n } else { b'a' + (n - 10) }
}

// The bytes in groups. A byte's two digits go out at once: standard output holds nothing back, so each write is a call of the system.
fn say_bytes<W: Write>(out: &mut W, bytes: &[u8], group: usize) -> io::Result<()>
    requires { 0 < group }
{
    for part in bytes.chunks(group) {
        write!(out, " ")?;
        for byte in part {
            out.write_all(&[hex(*byte / 16), hex(*byte % 16)])?;
        }
    }
    Ok(())
}

// Whether a call left something as it was. No contract says what is printed: `stdout` does.
pub fn say_left<W: Write>(out: &mut W, what: &[u8], same: bool) -> io::Result<()> {
    let left = if same { " kept" } else { " changed" };
    out.write_all(what)?;
    out.write_all(left.as_bytes())
}

// Whether bytes that were 170 everywhere still are. No contract says what is printed: `stdout` does.
pub fn say_untouched<W: Write>(out: &mut W, what: &[u8], bytes: &[u8]) -> io::Result<()> {
    // To the end in any case: a look that may stop early is one byte at a time.
    let same = bytes.iter().fold(true, |same, b| same & (*b == 170));
    say_left(out, what, same)
}

// The bytes before a place, in groups, and whether a call that was done wrote nothing after them, or a refused one nothing at
// all: the buffer held 170 everywhere. No contract says what is printed: `stdout` does.
pub fn say_written<W: Write>(
    out: &mut W,
    what: &[u8],
    bytes: &[u8],
    done: bool,
    end: usize,
    group: usize,
) -> io::Result<()>
    requires { (end ≤ length bytes.now) × (0 < group) }
{
    let (written, rest) = bytes.split_at(end);
    say_bytes(out, written, group)?;
    say_untouched(out, if done { b", later bytes" } else { what }, rest)?;
    writeln!(out)
}
