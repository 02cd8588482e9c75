// A block run with a store beside the board, which follows one input's believed code (document 02, P6).
#![tactic(auto)]

mod following;

ghost use Rattle.std.specs.Prelude.{◌≡◌};
ghost use Rattle.answer.specs.Told.{told};
ghost use Rattle.beside.specs.Beside.{beside_out, beside_answer, beside_of};

use answer::{Answer, Refusal};
use board::Board;
pub use following::keep_if;
use history::Store;

// The last input, the GTFE code.
pub const LAST_INPUT: usize = 40;

// BOARD, STORE, RANGE with the input, in that order.
#[tactic(auto, unfolding(crate::specs::Beside::beside_answer))]
fn test(board: &Board, store: &Store, input: usize) -> Answer
    ensures { told result ≡ beside_answer board.now store.now input }
{
    if !board.is_sound() {
        return Err(Refusal::Board);
    }
    if !store.is_sound() {
        return Err(Refusal::Store);
    }
    if LAST_INPUT < input {
        return Err(Refusal::Range(input));
    }
    Ok(())
}

// A refused call leaves the board and the store as they were and writes nothing.
pub fn block(
    board: &mut Board,
    store: &mut Store,
    input: usize,
    log: &[u8],
    rows: &mut [u8],
) -> Answer
    ensures { beside_out result board.new store.new rows.new ≡ beside_of board.old store.old input log.now rows.old }
{
    test(board, store, input)?;
    let before = *board;
    let answer = board.block(log, rows);
    keep_if(answer, before, store, input, log, rows);
    answer
}
