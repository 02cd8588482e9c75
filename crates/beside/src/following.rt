// One input over the records of a block that was run, by its records and its rows. The block's own loop has no part in it: a run
// without a store is as it was.
ghost use Rattle.std.specs.Prelude.{◌≡◌, true, ◌≤◌};
ghost use Rattle.laws.specs.Base.{if};
ghost use Rattle.answer.specs.Told.{told, succeeded};
ghost use Rattle.board.specs.Sound.{sound_board};
ghost use Rattle.history.specs.Store.{sound_store};
ghost use Rattle.beside.specs.Beside.{followed};
ghost use Rattle.beside.specs.Support.Through.{Through, Tracks};

use answer::Answer;
use board::Board;
use follower::Follower;
use history::{Pen, Store};
use records::{RECORD, ROW};

// Before the first record, by the codes that the board holds.
fn first(board: Board, input: usize) -> Follower
    requires { (sound_board board ≡ true) × (input ≤ 40) }
    ensures { Tracks input board result }
{
    Follower {
        clock: board.clock,
        carried: follower::code_at(&board.held.carried, input),
        believed: follower::code_at(&board.held.believed, input),
    }
}

fn follow(board: Board, store: &mut Store, input: usize, log: &[u8], rows: &[u8])
    requires { (Through board log.now rows.now) × (sound_store store.old ≡ true) × (input ≤ 40) }
    ensures { (store.new ≡ followed input board log.now store.old) × (sound_store store.new ≡ true) }
{
    let orbit = board.settings.orbit();
    let mut pen = Pen::of(store);
    let mut seen = first(board, input);
    for i in 0..log.len() / RECORD {
        let record = &log[RECORD * i..RECORD * i + RECORD];
        if record[0] == 0 {
            let code = follower::code_at(&record[3..], input);
            seen.crossed(
                &mut store.words,
                &mut pen,
                orbit,
                record[1] == 1,
                code,
                rows[ROW * i],
            );
        }
    }
    store.oldest = pen.oldest;
    store.used = pen.used;
}

// The store after a block with this answer, over the board before it: a refused one leaves it.
pub fn keep_if(
    answer: Answer,
    board: Board,
    store: &mut Store,
    input: usize,
    log: &[u8],
    rows: &[u8],
)
    requires { (succeeded (told answer) ≡ true → Through board log.now rows.now) × (sound_store store.old ≡ true) × (input ≤ 40) }
    ensures { (store.new ≡ if (succeeded (told answer)) (followed input board log.now store.old) store.old) × (sound_store store.new ≡ true) }
{
    if answer.is_ok() {
        follow(board, store, input, log, rows);
    }
}
