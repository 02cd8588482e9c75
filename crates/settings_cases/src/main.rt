// Runs the settings' reader, writer and check on cases that documents 01 and 02 name, and prints what each answers.
// Standard input has a text of the first edition and one of the second, then three lines for each text that is read: the case's name, a
// part of a text, and what is put in its place; the text is the first edition's where the name begins with a 1, the second's where it
// begins with a 2, else the standard one. In all of these a `/` stands for a newline and a `^` for a carriage return. An accepted text
// is written back, and what that reads as is told too.
#![tactic(auto)]

ghost use Rattle.std.specs.Prelude.{◌≤◌, length};

use answer::Answer;
use cases::{end_line, read_input, say, say_answer, say_number};
use settings::Settings;
use std::io;
use std::io::Write;

// A line: the name of the case, and its answer.
fn say_case<W: Write>(to: &mut W, name: &[u8], a: Answer) -> io::Result<()> {
    say(to, name)?;
    say_answer(to, b": ", a)?;
    end_line(to)
}

fn plain(b: u8) -> u8 {
    match b {
        b'/' => b'\n',
        b'^' => b'\r',
        _ => b,
    }
}

// The part with newlines and carriage returns as they are, and how long it is.
fn decoded(part: &[u8], out: &mut [u8]) -> usize
    ensures { result ≤ length out.new }
{
    let n = part.len().min(out.len());
    for i in 0..n {
        out[i] = plain(part[i]);
    }
    n
}

// Where the part first stands in the text, or the text's end.
fn find(text: &[u8], part: &[u8]) -> usize
    ensures { result ≤ length text.now }
{
    for at in 0..text.len() {
        if text[at..].starts_with(part) {
            return at;
        }
    }
    text.len()
}

// Lays bytes into the buffer from a place on, where there is room, and answers the place after them.
fn put(out: &mut [u8], at: usize, s: &[u8]) -> usize
    requires { at ≤ length out.old }
    ensures { result ≤ length out.new }
{
    if out.len() - at < s.len() {
        return at;
    }
    let end = at + s.len();
    out[at..end].copy_from_slice(s);
    end
}

// The text with `new` for the first `old`, and how long that is.
fn replaced(text: &[u8], old: &[u8], new: &[u8], out: &mut [u8]) -> usize
    ensures { result ≤ length out.new }
{
    let at = find(text, old);
    let a = put(out, 0, &text[..at]);
    let b = put(out, a, new);
    if text.len() - at < old.len() {
        return b;
    }
    put(out, b, &text[at + old.len()..])
}

fn say_low_limits<W: Write>(to: &mut W, s: Settings) -> io::Result<()> {
    let rules = s.rules();
    say_number(to, b", low limits ", rules.second.low as u64)?;
    say_number(to, b" ", rules.third.low as u64)?;
    say_number(to, b" ", rules.fourth.low as u64)?;
    end_line(to)
}

// What the settings write, read back.
fn say_back<W: Write>(to: &mut W, s: &Settings, out: &mut [u8]) -> io::Result<()> {
    let _ = editions::write_text(s, out);
    let n = editions::text_length(s);
    if out.len() < n {
        return Ok(());
    }
    let back = editions::read_text(&out[..n]);
    let a = back.answer;
    say_answer(to, b"  read back: ", a)?;
    say_low_limits(to, back.settings)
}

// Reads a text with `new` for the first `old`. The buffer is lent, since a part of it is read.
fn read_edited<W: Write>(
    to: &mut W,
    name: &[u8],
    base: &[u8],
    old: &[u8],
    new: &[u8],
    text: &mut [u8],
) -> io::Result<()> {
    let m = replaced(base, old, new, text);
    let r = editions::read_text(&text[..m]);
    let a = r.answer;
    say_case(to, name, a)?;
    if a.is_ok() {
        say_back(to, &r.settings, text)?;
    }
    Ok(())
}

fn read_case<W: Write>(
    to: &mut W,
    name: &[u8],
    base: &[u8],
    old: &[u8],
    new: &[u8],
) -> io::Result<()> {
    let mut was = [0u8; 128];
    let mut is = [0u8; 128];
    let mut text = [0u8; 4096];
    let n = decoded(old, &mut was);
    let m = decoded(new, &mut is);
    read_edited(to, name, base, &was[..n], &is[..m], &mut text)
}

// The texts of the three editions.
#[derive(Clone, Copy)]
struct Bases<'a> {
    first: &'a [u8],
    second: &'a [u8],
    newest: &'a [u8],
}

impl<'a> Bases<'a> {
    // The name of a case begins with the number of an older edition.
    fn of(self, name: &[u8]) -> &'a [u8] {
        if name.starts_with(b"1 ") {
            self.first
        } else if name.starts_with(b"2 ") {
            self.second
        } else {
            self.newest
        }
    }
}

// How many bytes are other than 7, which no settings text has.
fn changed(out: &[u8]) -> u64 {
    out.iter().filter(|b| **b != 7).count() as u64
}

// The standard settings with another value on a line.
fn with(line: usize, value: u32) -> Settings {
    let mut s = Settings::standard();
    if (2..=148).contains(&line) {
        s.values[line - 2] = value;
    }
    s
}

// Writes settings into the first bytes of a buffer of sevens, and tells how many bytes changed.
fn write_part<W: Write>(
    to: &mut W,
    name: &[u8],
    s: &Settings,
    out: &mut [u8],
    room: usize,
) -> io::Result<()> {
    if out.len() < room {
        return Ok(());
    }
    let a = editions::write_text(s, &mut out[..room]);
    say_case(to, name, a)?;
    say_number(to, b"  bytes changed: ", changed(out))?;
    end_line(to)
}

// Writes the standard settings with another value on a line.
fn write_case<W: Write>(
    to: &mut W,
    name: &[u8],
    line: usize,
    value: u32,
    room: usize,
) -> io::Result<()> {
    let mut out = [7u8; 4096];
    let s = with(line, value);
    write_part(to, name, &s, &mut out, room)
}

// Checks the standard settings with another value on a line.
fn check_case<W: Write>(to: &mut W, name: &[u8], line: usize, value: u32) -> io::Result<()> {
    let s = with(line, value);
    let a = s.check();
    say_case(to, name, a)
}

// The first two lines are texts of the first and the second edition; that of the newest is the standard one.
fn reads<W: Write>(to: &mut W, input: &[u8]) -> io::Result<()> {
    let input = input.strip_suffix(b"\n").unwrap_or(input);
    let mut lines = input.split(|b| *b == b'\n');
    let mut first = [0u8; 1024];
    let mut second = [0u8; 4096];
    let mut newest = [0u8; 4096];
    let m = decoded(lines.next().unwrap_or(b""), &mut first);
    let k = decoded(lines.next().unwrap_or(b""), &mut second);
    let s = Settings::standard();
    let _ = editions::write_text(&s, &mut newest);
    let n = editions::text_length(&s);
    if newest.len() < n {
        return Ok(());
    }
    let bases = Bases {
        first: &first[..m],
        second: &second[..k],
        newest: &newest[..n],
    };
    while let Some(name) = lines.next() {
        let old = lines.next().unwrap_or(b"");
        let new = lines.next().unwrap_or(b"");
        read_case(to, name, bases.of(name), old, new)?;
    }
    Ok(())
}

fn writes<W: Write>(to: &mut W) -> io::Result<()> {
    write_case(to, b"write with room", 6, 25, 4096)?;
    write_case(to, b"write with just room", 6, 25, 1710)?;
    write_case(to, b"write one byte short", 6, 25, 1709)?;
    write_case(to, b"write without a buffer", 6, 25, 0)?;
    write_case(to, b"write r2_period 64", 6, 64, 4096)?;
    write_case(to, b"write orbit 3563, RELATION before ROOM", 2, 3563, 0)?;
    write_case(
        to,
        b"write orbit 4097, RANGE before RELATION",
        2,
        4097,
        4096,
    )?;
    write_case(to, b"write at6_cal 3600", 105, 3600, 4096)
}

fn checks<W: Write>(to: &mut W) -> io::Result<()> {
    check_case(to, b"check r2_period 63", 6, 63)?;
    check_case(to, b"check r2_period 64", 6, 64)?;
    check_case(to, b"check part31 8", 148, 8)?;
    check_case(to, b"check part31 9", 148, 9)?;
    check_case(to, b"check orbit 63, RANGE before RELATION", 2, 63)?;
    check_case(to, b"check orbit 64", 2, 64)?;
    check_case(to, b"check at0_stop 3564", 36, 3564)?;
    check_case(to, b"check at0_stop 500", 36, 500)?;
    check_case(to, b"check at0_wte 3400", 38, 3400)?;
    check_case(to, b"check at7_cal 3564", 116, 3564)?;
    check_case(to, b"check at7_cal 4096", 116, 4096)?;
    check_case(to, b"check at4_bc0 3400", 73, 3400)?;
    check_case(to, b"check at2_te 2999", 52, 2999)?;
    check_case(to, b"check at1_cal 3491", 50, 3491)?;
    check_case(to, b"check r4_norm 1", 13, 1)
}

fn main(rt: HostRuntime) -> io::Result<()> {
    let mut input = [0u8; 65536];
    let n = read_input(rt.stdin(), &mut input)?;
    let mut to = io::writer(&rt);
    reads(&mut to, &input[..n])?;
    writes(&mut to)?;
    checks(&mut to)
}
