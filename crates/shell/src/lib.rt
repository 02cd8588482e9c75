// What the programs share: the files of a bench, of which an error in reading is never taken for the end. The board is that of
// `board.set`, and the log of `run.rec` goes through one piece of 40 blocks at a time, so memory does not grow with it.
#![tactic(auto)]

ghost use Rattle.std.specs.Prelude.{take, ◌≡◌, is_some};
ghost use Rattle.answer.specs.Told.{told};
ghost use Rattle.board.specs.Block.{ran_out};
ghost use Rattle.shell.specs.Opened.{OfSomeText};
ghost use Rattle.files.specs.Read.{ReadFrom};
ghost use Rattle.shell.specs.Pieces.{piece_run, is_full};
ghost use Rattle.shell.specs.Logs.{OfSomeLog};

use answer::Answer;
use board::{Board, Made};
use files::{Got, read_piece};
use std::io::{Error, ErrorKind, Read};

// The bytes of 40 blocks.
pub const PIECE: usize = 61440;

// A piece of the log, and what its blocks were answered: nothing is run where reading failed.
#[derive(Clone, Copy)]
pub struct Step {
    pub got: Got,
    pub answer: Answer,
}

// The board of a settings text, and the error where reading the text failed.
#[derive(Clone, Copy)]
pub struct Opened {
    pub failed: Option<Error>,
    pub made: Made,
}

// 4,096 bytes are read. A good text of any edition has fewer, and what a longer one gets is decided by those 4,096: proved as
// `opened_by_start` (replay/proofs/Laws.antt).
pub fn open_board<R: Read>(file: &mut Option<R>) -> Opened
    ensures { OfSomeText result.made }
{
    let mut text = [0u8; 4096];
    let Got { count, failed } = read_piece(file, &mut text);
    Opened {
        failed,
        made: replay::opened(&text[..count]),
    }
}

// Reads the next piece of the log and runs its blocks.
pub fn run_piece<R: Read>(
    board: &mut Board,
    log: &mut Option<R>,
    piece: &mut [u8],
    rows: &mut [u8],
) -> Step
    ensures { ReadFrom (is_some log.old) piece.new result.got.«count» (is_some result.got.failed) × (ran_out result.answer board.new rows.new ≡ piece_run (is_some result.got.failed) board.old (take result.got.«count» piece.new) rows.old) }
{
    let got = read_piece(log, piece);
    let answer = if got.failed.is_some() {
        Ok(())
    } else {
        replay::run_blocks(board, &piece[..got.count], rows)
    };
    Step { got, answer }
}

impl Step {
    // Whether more of the log may follow: the piece was read, is full and was accepted.
    pub fn is_full(&self) -> bool
        ensures { result ≡ is_full (is_some self.now.got.failed) self.now.got.«count» (told self.now.answer) }
    {
        if self.got.failed.is_some() {
            return false;
        }
        if self.got.count < PIECE {
            return false;
        }
        self.answer.is_ok()
    }
}

// Runs the log, and hands back its last step: answer and board are those of the bytes that were read, in blocks of 64 records. Where
// reading failed, they are those of the pieces before. No file has as many pieces as the loop has turns.
pub fn replay_log<R: Read>(log: &mut Option<R>, board: &mut Board) -> Step
    ensures { OfSomeLog board.old result.answer board.new }
{
    replay::eight(&board.ptcs, &board.marks);
    let mut piece = [0u8; PIECE];
    let mut rows = [0u8; PIECE / 2];
    for _ in 0..u64::MAX {
        let step = run_piece(board, log, &mut piece, &mut rows);
        if !step.is_full() {
            return step;
        }
    }
    Step {
        got: Got {
            count: 0,
            failed: Some(Error::from(ErrorKind::FileTooLarge)),
        },
        answer: Ok(()),
    }
}
