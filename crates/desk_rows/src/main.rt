// The decisions themselves: reads `board.set` and `run.rec` of the folder that it is run in, and writes the rows of the whole
// log, or the number of the first refusal and no row. So the log goes through twice: once to see that it is accepted.
#![tactic(auto)]

ghost use Rattle.std.specs.Prelude.{◌≡◌};
ghost use Rattle.shell.specs.Logs.{AnswerToSomeLog};

use answer::Answer;
use board::Board;
use ending::Stop;
use shell::{PIECE, Step};
use std::io;
use std::io::{Error, ErrorKind, Read, Write};
use std::process::ExitCode;
use std::rt::Files;

// What one time through the log gives. Two times are held against each other by their bytes and the sum of their rows.
#[derive(Clone, Copy)]
struct Pass {
    failed: Option<Error>,
    written: io::Result<()>,
    answer: Answer,
    bytes: u64,
    sum: u64,
}

// The rows' bytes, four at a time, as digits of a number to the base 16,777,213, of which 40 bits are kept. It goes by four since
// by single bytes it would cost a good part of what running a record does.
fn summed(before: u64, rows: &[u8]) -> u64 {
    let mut sum = before % 1099511627776;
    let (digits, _) = rows.as_chunks::<4>();
    for digit in digits {
        sum = (sum * 16777213 + u64::from(u32::from_le_bytes(*digit))) % 1099511627776;
    }
    sum
}

impl Pass {
    // What a piece adds, its rows written where they are wanted. One that was not read, or is refused, adds nothing.
    fn after<W: Write>(self, step: &Step, rows: &[u8], writes: bool, out: &mut W) -> Pass
        ensures { result.answer ≡ step.now.answer }
    {
        let got = step.got;
        let answer = step.answer;
        if got.failed.is_some() || answer.is_err() {
            return Pass {
                failed: got.failed,
                written: Ok(()),
                answer,
                ..self
            };
        }
        let written = if writes { out.write_all(rows) } else { Ok(()) };
        Pass {
            failed: None,
            written,
            answer,
            bytes: self.bytes.wrapping_add(got.count as u64),
            sum: summed(self.sum, rows),
        }
    }

    fn is_same(&self, other: &Pass) -> bool {
        self.answer.is_ok()
            && other.answer.is_ok()
            && (self.bytes, self.sum) == (other.bytes, other.sum)
    }
}

// Runs the log, and writes its rows where they are wanted. No file has as many pieces as the loop has turns.
fn go_through<R: Read, W: Write>(
    log: &mut Option<R>,
    fresh: Board,
    writes: bool,
    out: &mut W,
) -> Pass
    ensures { AnswerToSomeLog fresh result.answer }
{
    let mut piece = [0u8; PIECE];
    let mut rows = [0u8; PIECE / 2];
    let mut board = fresh;
    let unread = Pass {
        failed: Some(Error::from(ErrorKind::FileTooLarge)),
        written: Ok(()),
        answer: Ok(()),
        bytes: 0,
        sum: 0,
    };
    let mut pass = unread;
    for _ in 0..u64::MAX {
        let step = shell::run_piece(&mut board, log, &mut piece, &mut rows);
        let n = step.got.count;
        pass = pass.after(&step, &rows[..n / 2], writes, out);
        if pass.written.is_err() || !step.is_full() {
            return pass;
        }
    }
    unread
}

// Writes the rows, and answers whether the log was the same in both readings. The log stays open while it is opened again, so that
// one can see from outside how far each reading is (tools/progress).
fn run<R: Files + Print>(rt: &R) -> Result<bool, Stop<'static>> {
    let mut text = files::open(rt, "board.set");
    let opened = shell::open_board(&mut text);
    ending::accepted(b"board.set", opened.failed, opened.made.answer)?;
    let fresh = opened.made.board;
    let mut out = io::writer(rt);
    let mut log = files::open(rt, "run.rec");
    let first = go_through(&mut log, fresh, false, &mut out);
    ending::accepted(b"run.rec", first.failed, first.answer)?;
    let mut again = files::open(rt, "run.rec");
    let second = go_through(&mut again, fresh, true, &mut out);
    if let Some(error) = second.failed {
        return Err(Stop::At(b"run.rec", error));
    }
    match second.written {
        Ok(()) => Ok(first.is_same(&second)),
        Err(error) => Err(Stop::At(b"standard output", error)),
    }
}

fn main(rt: HostRuntime) -> ExitCode {
    match run(&rt) {
        Ok(true) => ExitCode::SUCCESS,
        Ok(false) => ending::complain(
            &rt,
            b"run.rec: changed between its two readings: the rows are of no use\n",
        ),
        Err(stop) => ending::end(&rt, Err(stop)),
    }
}
