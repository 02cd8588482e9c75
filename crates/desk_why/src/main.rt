// Why a bench is refused: reads `board.set` and `run.rec` of the folder that it is run in, and prints the desk's answer as lines: its
// number, what it carries, and the block of the log that is refused.
#![tactic(auto)]

ghost use Rattle.std.specs.Prelude.{◌≡◌, ◌+◌, ◌≤◌, length, is_some};
ghost use Rattle.answer.specs.Told.{told};
ghost use Rattle.text.specs.Bytes.{put};
ghost use Rattle.reason.specs.Support.Room.{answer_most, block_most};
ghost use Rattle.desk_why.specs.Why.{why_text, goes_on, OpenedBy, FoundInSomeLog, OfSomeFiles};

use answer::Answer;
use board::Board;
use shell::Step;
use std::io;
use std::io::{Error, ErrorKind, Read, Write};
use std::process::ExitCode;

// The bytes of a block of 64 records.
const BLOCK: usize = 1536;

// What going through the log gives: the error where reading it failed, its answer, and how many blocks were run before the last.
#[derive(Clone, Copy)]
struct Found {
    failed: Option<Error>,
    answer: Answer,
    block: u64,
}

// Whether more of the log may follow: the block was read, is full and was accepted.
fn goes_on(step: &Step) -> bool
    ensures { result ≡ goes_on (is_some step.now.got.failed) step.now.got.«count» (told step.now.answer) }
{
    if step.got.failed.is_some() {
        return false;
    }
    if step.got.count < BLOCK {
        return false;
    }
    step.answer.is_ok()
}

// Runs the log one block at a time, so that the blocks before a refusal are counted. No file has as many blocks as the loop has turns.
fn find<R: Read>(log: &mut Option<R>, fresh: Board) -> Found
    ensures { FoundInSomeLog fresh result.answer result.block }
{
    let mut piece = [0u8; BLOCK];
    let mut rows = [0u8; BLOCK / 2];
    let mut board = fresh;
    for block in 0..u64::MAX {
        let step = shell::run_piece(&mut board, log, &mut piece, &mut rows);
        if !goes_on(&step) {
            return Found {
                failed: step.got.failed,
                answer: step.answer,
                block,
            };
        }
    }
    Found {
        failed: Some(Error::from(ErrorKind::FileTooLarge)),
        answer: Ok(()),
        block: u64::MAX,
    }
}

// The lines at the front of a buffer that has room for those of every answer, and how many bytes they have.
fn lay_why(a: Answer, refuses: bool, block: u64, text: &mut [u8]) -> usize
    requires { answer_most + block_most ≤ length text.old }
    ensures { (result ≤ length text.new) × (result ≡ length (why_text (told a) refuses block)) × (text.new ≡ put text.old 0 (why_text (told a) refuses block)) }
{
    let n = reason::put_answer(text, a);
    if !refuses {
        return n;
    }
    reason::put_block(text, n, block)
}

// What is printed for some text and some log.
fn print_why<W: Write>(out: &mut W, a: Answer, refuses: bool, block: u64) -> io::Result<()>
    requires { OfSomeFiles (why_text (told a) refuses block) }
{
    let mut text = [0u8; 128];
    let n = lay_why(a, refuses, block, &mut text);
    out.write_all(&text[..n])
}

// The answer to the log, over the board of a text that is accepted.
fn tell_log<F: Read, R: Print + Eprint>(rt: &R, log: &mut Option<F>, fresh: Board) -> ExitCode
    requires { OpenedBy fresh }
{
    let found = find(log, fresh);
    if let Some(error) = found.failed {
        return ending::stop(rt, b"run.rec", error);
    }
    let a = found.answer;
    ending::finish(
        rt,
        print_why(&mut io::writer(rt), a, a.is_err(), found.block),
    )
}

fn main(rt: HostRuntime) -> ExitCode {
    let mut text = files::open(&rt, "board.set");
    let opened = shell::open_board(&mut text);
    if let Some(error) = opened.failed {
        return ending::stop(&rt, b"board.set", error);
    }
    let made = opened.made;
    let read = made.answer;
    if read.is_err() {
        return ending::finish(&rt, print_why(&mut io::writer(&rt), read, false, 0));
    }
    let mut log = files::open(&rt, "run.rec");
    tell_log(&rt, &mut log, made.board)
}
