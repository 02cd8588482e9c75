// The status history of one input: reads `board.set` and `run.rec` of the folder that it is run in, follows the input that its argument
// names through the log, and writes the changes that the store retains, or the number of the first refusal.
#![tactic(auto)]

ghost use Rattle.std.specs.Prelude.{◌≡◌, true, false, ◌≤◌, length, take, is_some};
ghost use Rattle.answer.specs.Told.{told, succeeded};
ghost use Rattle.history.specs.Store.{sound_store};
ghost use Rattle.board.specs.Sound.{sound_board};
ghost use Rattle.beside.specs.Support.Through.{Through};
ghost use Rattle.desk_history.specs.Printed.{kept_after, OpenedBy, FollowedSomeLog, Closing, OfSomeFiles};

use answer::{Answer, Refusal};
use beside::LAST_INPUT;
use board::Board;
use ending::Stop;
use history::Store;
use shell::{PIECE, Step};
use std::env::FillError;
use std::io;
use std::io::{Error, ErrorKind, Read, Write};
use std::process::ExitCode;
use std::rt::{Env, Files};
use text::Range;

const USAGE: &[u8] = b"usage: desk_history INPUT\n";

// What going through the log gives: the error where reading it failed, its answer, and the store.
#[derive(Clone, Copy)]
struct Pass {
    failed: Option<Error>,
    answer: Answer,
    store: Store,
}

// The store after a piece that was run over the board: one that was not read, or is refused, leaves it.
fn follow_piece(
    board: Board,
    store: &mut Store,
    input: usize,
    step: Step,
    piece: &[u8],
    rows: &[u8],
)
    requires { (is_some step.got.failed ≡ false → succeeded (told step.answer) ≡ true → Through board piece.now rows.now) × (sound_store store.old ≡ true) × (input ≤ 40) }
    ensures { (store.new ≡ kept_after input board (is_some step.got.failed) (told step.answer) piece.now store.old) × (sound_store store.new ≡ true) }
{
    if step.got.failed.is_some() {
        return;
    }
    beside::keep_if(step.answer, board, store, input, piece, rows);
}

// Follows the input through the log. No file has as many pieces as the loop has turns.
fn go_through<R: Read>(log: &mut Option<R>, fresh: Board, input: usize) -> Pass
    requires { (sound_board fresh ≡ true) × (input ≤ 40) }
    ensures { FollowedSomeLog input fresh result.answer result.store }
{
    let mut piece = [0; PIECE];
    let mut rows = [0; PIECE / 2];
    let mut board = fresh;
    let mut store = Store::fresh();
    for _ in 0..u64::MAX {
        let before = board;
        let step = shell::run_piece(&mut board, log, &mut piece, &mut rows);
        let read = &piece[..step.got.count];
        follow_piece(before, &mut store, input, step, read, &rows);
        if !step.is_full() {
            return Pass {
                failed: step.got.failed,
                answer: step.answer,
                store,
            };
        }
    }
    Pass {
        failed: Some(Error::from(ErrorKind::FileTooLarge)),
        answer: Ok(()),
        store,
    }
}

// The read-out at the front of a buffer that has room for every read-out, and how many bytes it has: what is printed for some text and
// some log. Reading is never refused here.
fn lay_history(store: &Store, input: usize, out: &mut [u8]) -> usize
    requires { (Closing input store.now) × (7168 ≤ length out.old) }
    ensures { (result ≤ length out.new) × (OfSomeFiles input (take result out.new)) }
{
    let _ = store.read(out);
    store.read_length()
}

fn print_history<W: Write>(to: &mut W, store: &Store, input: usize) -> Result<(), Stop<'static>>
    requires { Closing input store.now }
{
    let mut out = [0; 7168];
    let n = lay_history(store, input, &mut out);
    to.write_all(&out[..n])
        .map_err(|error| Stop::At(b"standard output", error))
}

fn run<R: Files + Print>(rt: &R, input: usize) -> Result<(), Stop<'static>> {
    let opened = shell::open_board(&mut files::open(rt, "board.set"));
    ending::accepted(b"board.set", opened.failed, opened.made.answer)?;
    if LAST_INPUT < input {
        return Err(Stop::Refused(Refusal::Range(input)));
    }
    let mut log = files::open(rt, "run.rec");
    let pass = go_through(&mut log, opened.made.board, input);
    ending::accepted(b"run.rec", pass.failed, pass.answer)?;
    print_history(&mut io::writer(rt), &pass.store, input)
}

// The input that the only argument names, a number as the settings text has them. An argument that has no room before a newline has
// more digits than any number.
fn input_of(rt: &impl Env) -> Option<usize> {
    let mut arg = [b'\n'; 16];
    let n = rt.arg(1, &mut arg).ok()?;
    let only = matches!(rt.arg(2, &mut []), Err(FillError::NotPresent));
    if !only || arg.len() <= n {
        return None;
    }
    let range = Range {
        low: 0,
        high: 99_999_999,
        digits: 8,
    };
    let (input, next) = text::read_line(&arg[..n + 1], 0, b"", range).ok()?;
    (next == n + 1).then_some(input as usize)
}

fn main(rt: HostRuntime) -> ExitCode {
    let Some(input) = input_of(&rt) else {
        return ending::misuse(&rt, USAGE);
    };
    ending::end(&rt, run(&rt, input))
}
