// Brings a bench's settings to the newest edition: reads `board.set` of the folder that it is run in and prints it in that edition, or
// the number of its refusal.
#![tactic(auto)]

ghost use Rattle.std.specs.Prelude.{◌≤◌, length, take};
ghost use Rattle.editions.specs.Support.Prefix.{text_most};
ghost use Rattle.desk_edition.specs.Printed.{ReadOfSome, Upgrading, OfSomeText};

use editions::Read;
use ending::Stop;
use settings::Settings;
use std::io;
use std::io::{Error, Write};
use std::process::ExitCode;

// What was read of the file, and the error where reading it failed.
#[derive(Drop)]
struct Opened {
    failed: Option<Error>,
    read: Read,
}

// 4,096 bytes are read: what a longer text gets is decided by those (`read_by_start`, editions/proofs/Prefix.antt).
fn open_settings<R: io::Read>(file: &mut Option<R>) -> Opened
    ensures { ReadOfSome result.read }
{
    let mut text = [0u8; 4096];
    let got = files::read_piece(file, &mut text);
    let n = got.count;
    let read = editions::read_text(&text[..n]);
    Opened {
        failed: got.failed,
        read,
    }
}

// The text at the front of a buffer that has room for every text, and how many bytes it has. Writing it is never refused here.
fn lay_text(s: &Settings, text: &mut [u8]) -> usize
    requires { (Upgrading s.now) × (text_most ≤ length text.old) }
    ensures { (result ≤ length text.new) × (OfSomeText (take result text.new)) }
{
    let _ = editions::write_text(s, text);
    editions::text_length(s)
}

fn print_text<W: Write>(out: &mut W, s: &Settings) -> io::Result<()>
    requires { Upgrading s.now }
{
    let mut text = [0u8; 4096];
    let n = lay_text(s, &mut text);
    out.write_all(&text[..n])
}

fn run(rt: &HostRuntime) -> Result<(), Stop<'static>> {
    let mut file = files::open(rt, "board.set");
    let opened = open_settings(&mut file);
    let read = opened.read;
    ending::accepted(b"board.set", opened.failed, read.answer)?;
    print_text(&mut io::writer(rt), &read.settings).map_err(|error| Stop::At(
        b"standard output",
        error,
    ))
}

fn main(rt: HostRuntime) -> ExitCode {
    ending::end(&rt, run(&rt))
}
