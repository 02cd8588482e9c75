// Sets up boards and logs as standard input tells, runs blocks over them, and prints what each call answered and left.
// A line is a letter and up to four numbers. `#` prints the line. `n` begins a fresh board and an empty log. `s i v` sets a
// setting, `v f v` a value of the clock or the slot, `p k f v` one of a controller, `m i v` a word of marks, `h w i v` a byte of
// the held codes (w is 0: carried, 1: believed), and `c v` holds code v for every input. `a kind b1 b2 b3`
// adds a record, a crossing having every code 8; `z at v` sets a byte of the log, `l n` its length. `b room` runs the log as
// a block with a rows buffer of that length, and goes on with the board that it leaves. `f` makes a fresh board of the settings.
#![tactic(auto)]

mod boards;

ghost use Rattle.std.specs.Prelude.{◌≤◌};

use board::Board;
use boards::{all_held, set_clock, set_held, set_ptc, small};
use cases::{
    Log, Words, at_most, byte, end_line, read_input, record_of, say_answer, say_comment, say_left,
    say_written, words_of,
};
use settings::Settings;
use std::io;
use std::io::Write;

// The bytes of the longest log.
const LOG: usize = 960;

fn fresh_board() -> Board {
    Board::fresh(Settings::standard()).board
}

// Runs a log as a block over the first bytes of a rows buffer, and tells what it left.
fn run_block<W: Write>(out: &mut W, board: &mut Board, log: &[u8], room: usize) -> io::Result<()>
    requires { room ≤ 480 }
{
    let mut rows = [170; 480];
    let before = *board;
    let answer = board.block(log, &mut rows[..room]);
    let done = answer.is_ok();
    let end = if done {
        (log.len() / 24).min(room / 12) * 12
    } else {
        0
    };
    say_answer(out, b"answer ", answer)?;
    say_left(out, b", board", *board == before)?;
    say_written(out, b", rows", &rows, done, end, 12)
}

fn remake<W: Write>(out: &mut W, board: &mut Board) -> io::Result<()> {
    let before = board.settings;
    let made = Board::fresh(before);
    *board = made.board;
    say_answer(out, b"answer ", made.answer)?;
    say_left(out, b", settings", board.settings == before)?;
    end_line(out)
}

// Does what a line tells of the log.
fn change_log(log: &mut Log<LOG>, w: Words) {
    match w.letter {
        b'n' => *log = Log::empty(),
        b'a' => log.push(&record_of(w)),
        b'z' => log.set(at_most(w.a, LOG), byte(w.b)),
        b'l' => log.set_length(at_most(w.a, LOG)),
        _ => {}
    }
}

// Does what a line tells of the board.
fn obey<W: Write>(out: &mut W, board: &mut Board, log: &Log<LOG>, w: Words) -> io::Result<()> {
    match w.letter {
        b'n' => *board = fresh_board(),
        b's' => board.settings.values[at_most(w.a, 146)] = small(w.b),
        b'v' => set_clock(board, w.a, w.b),
        b'p' => set_ptc(&mut board.ptcs[at_most(w.a, 7)], w.b, w.c),
        b'm' => board.marks[at_most(w.a, 31)] = w.b,
        b'h' => set_held(&mut board.held, w.a == 1, at_most(w.b, 20), w.c),
        b'c' => board.held = all_held(w.a),
        b'b' => run_block(out, board, log.bytes(), at_most(w.a, 480))?,
        b'f' => remake(out, board)?,
        _ => {}
    }
    Ok(())
}

fn obey_all<W: Write>(out: &mut W, input: &[u8]) -> io::Result<()> {
    let mut board = fresh_board();
    let mut log = Log::empty();
    for line in input.split(|b| *b == b'\n') {
        let w = words_of(line);
        say_comment(out, line)?;
        change_log(&mut log, w);
        obey(out, &mut board, &log, w)?;
    }
    Ok(())
}

fn main(rt: HostRuntime) -> io::Result<()> {
    let mut input = [0; 8192];
    let n = read_input(rt.stdin(), &mut input)?;
    obey_all(&mut io::writer(&rt), &input[..n])
}
