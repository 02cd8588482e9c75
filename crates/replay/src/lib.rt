// A bench's files through the desk: the board that a settings text opens, and a log run in blocks of 64 records.
#![tactic(auto)]

ghost use Rattle.std.specs.Prelude.{◌≡◌, length};
ghost use Rattle.board.specs.Fresh.{made_out};
ghost use Rattle.board.specs.Block.{ran_out};
ghost use Rattle.replay.specs.Replay.{opened_of, blocks_in, in_blocks};

use answer::Answer;
use board::{Board, Made};
use editions::Read;
use ptc::Ptc;
use settings::Settings;

// The fresh board of a settings text, or the first refusal.
pub fn opened(text: &[u8]) -> Made
    ensures { made_out result ≡ opened_of text.now }
{
    let Read { answer, settings } = editions::read_text(text);
    match answer {
        Ok(()) => Board::fresh(settings),
        Err(_) => Made {
            answer,
            ..Board::fresh(Settings::standard())
        },
    }
}

// No code: what the arrays' types tell, said of a board behind a reference.
pub fn eight(ptcs: &[Ptc; 8], marks: &[u64; 32])
    ensures { (length ptcs.now ≡ 8) × (length marks.now ≡ 32) }
{}

// The blocks of a log one after the other, each writing its rows where those of the last ended. The first refusal ends it: the
// board is then the one after the blocks before, whose rows are written.
pub fn run_blocks(board: &mut Board, log: &[u8], rows: &mut [u8]) -> Answer
    ensures { ran_out result board.new rows.new ≡ in_blocks (blocks_in log.now) board.old log.now rows.old }
{
    if log.is_empty() {
        return Ok(());
    }
    eight(&board.ptcs, &board.marks);
    board.blocks(log, rows)
}
