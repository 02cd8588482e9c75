// Replays the log of a bench: reads `board.set` and `run.rec` of the folder that it is run in, and prints the report, or the
// number of the first refusal.
#![tactic(auto)]

ghost use Rattle.std.specs.Prelude.{◌≤◌, length, take};
ghost use Rattle.report.specs.Fits.{report_room};
ghost use Rattle.desk.specs.Printed.{Closing, OfSomeFiles};

use board::Board;
use ending::Stop;
use std::io;
use std::io::Write;
use std::process::ExitCode;
use std::rt::Files;

// The report at the front of a buffer that has room for every report, and how many bytes it has: what is printed for some text
// and some log. Writing it is never refused here.
fn lay_report(board: &Board, text: &mut [u8]) -> usize
    requires { (Closing board.now) × (report_room ≤ length text.old) }
    ensures { (result ≤ length text.new) × (OfSomeFiles (take result text.new)) }
{
    let _ = report::write(board, text);
    report::text_length(board)
}

fn print_report<W: Write>(out: &mut W, board: &Board) -> io::Result<()>
    requires { Closing board.now }
{
    let mut text = [0u8; 8192];
    let n = lay_report(board, &mut text);
    out.write_all(&text[..n])
}

fn run<R: Files + Print>(rt: &R) -> Result<(), Stop<'static>> {
    let mut text = files::open(rt, "board.set");
    let opened = shell::open_board(&mut text);
    ending::accepted(b"board.set", opened.failed, opened.made.answer)?;
    let mut board = opened.made.board;
    let mut log = files::open(rt, "run.rec");
    let last = shell::replay_log(&mut log, &mut board);
    ending::accepted(b"run.rec", last.got.failed, last.answer)?;
    print_report(&mut io::writer(rt), &board).map_err(|error| Stop::At(b"standard output", error))
}

fn main(rt: HostRuntime) -> ExitCode {
    ending::end(&rt, run(&rt))
}
