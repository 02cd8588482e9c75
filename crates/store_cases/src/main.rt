// Sets up status history stores as standard input tells, reads them out, runs blocks beside them, and prints what each call answered
// and left. A line is a letter and up to three numbers. `#` prints the line. `n` begins a fresh store. `w i v more` sets word i, and
// as many more after it round the ring, `o v` the place of the oldest, `u v` the words in use. `r room` reads out into a buffer of
// that length. `b input` runs four crossings on a fresh board with the store beside it and goes on with the store that it leaves;
// `x input` does so on a board that is not sound.
#![tactic(auto)]

ghost use Rattle.std.specs.Prelude.{◌<◌, ◌≤◌, length};

use answer::Refusal;
use board::Board;
use cases::{
    Words, at_most, end_line, read_input, say_answer, say_comment, say_left, say_untouched,
    say_written, words_of,
};
use history::{Store, WORDS};
use settings::Settings;
use std::io;
use std::io::Write;

fn word(n: u64) -> u16 {
    (n % 65536) as u16
}

fn set_words(store: &mut Store, i: usize, value: u16, more: usize)
    requires { (i < 1024) × (more < 1024) }
{
    for k in i..=i + more {
        store.words[k % WORDS] = value;
    }
}

// The bytes that a read-out needs, as it tells where it gets no room.
fn needed(store: &Store) -> usize {
    match store.read(&mut []) {
        Err(Refusal::Room(bytes)) => bytes,
        _ => 0,
    }
}

// Reads out into the first bytes of a buffer, and tells what was written: a refused read-out writes nothing.
fn read_into<W: Write>(to: &mut W, store: &Store, out: &mut [u8], room: usize) -> io::Result<()>
    requires { room ≤ length out.old }
{
    let answer = store.read(&mut out[..room]);
    let done = answer.is_ok();
    let end = if done { needed(store).min(room) } else { 0 };
    say_answer(to, b"answer ", answer)?;
    say_written(to, b", buffer", out, done, end, 7)
}

// A crossing in which every input carries code 8: of four of them, each is believed to from the second on.
fn crossing() -> [u8; 24] {
    let mut record = [0x88; 24];
    record[..4].copy_from_slice(&[0, 0, 0, 8]);
    record
}

fn fresh_board() -> Board {
    Board::fresh(Settings::standard()).board
}

// Its next crossing has a number that no orbit has.
fn unsound_board() -> Board {
    let mut board = fresh_board();
    board.clock.next = 5000;
    board
}

fn run_block<W: Write>(
    out: &mut W,
    mut board: Board,
    store: &mut Store,
    input: u64,
) -> io::Result<()> {
    let log = [crossing(); 4];
    let mut rows = [170; 48];
    let crossings = board.clock.crossings;
    let before = *store;
    let answer = beside::block(
        &mut board,
        store,
        input as usize,
        log.as_flattened(),
        &mut rows,
    );
    say_answer(out, b"answer ", answer)?;
    // Every crossing is counted, so the count tells whether the board was run.
    say_left(out, b", board", board.clock.crossings == crossings)?;
    say_left(out, b", store", *store == before)?;
    say_untouched(out, b", rows", &rows)?;
    end_line(out)
}

// Does what a line tells.
fn obey<W: Write>(out: &mut W, store: &mut Store, w: Words) -> io::Result<()> {
    match w.letter {
        b'n' => *store = Store::fresh(),
        b'w' => set_words(
            store,
            at_most(w.a, WORDS - 1),
            word(w.b),
            at_most(w.c, WORDS - 1),
        ),
        b'o' => store.oldest = w.a as usize,
        b'u' => store.used = w.a as usize,
        b'r' => read_into(out, store, &mut [170; 480], at_most(w.a, 480))?,
        b'b' => run_block(out, fresh_board(), store, w.a)?,
        b'x' => run_block(out, unsound_board(), store, w.a)?,
        _ => {}
    }
    Ok(())
}

fn obey_all<W: Write>(out: &mut W, input: &[u8]) -> io::Result<()> {
    let mut store = Store::fresh();
    for line in input.split(|b| *b == b'\n') {
        say_comment(out, line)?;
        obey(out, &mut store, words_of(line))?;
    }
    Ok(())
}

fn main(rt: HostRuntime) -> io::Result<()> {
    let mut input = [0; 8192];
    let n = read_input(rt.stdin(), &mut input)?;
    obey_all(&mut io::writer(&rt), &input[..n])
}
