// The board: settings, clock, slot, eight controllers, held codes and marks, through one crossing, one command and one block of records.
#![tactic(auto)]

mod run;

ghost use Rattle.std.specs.Prelude.{◌≡◌};
ghost use Rattle.answer.specs.Told.{told, DONE};
ghost use Rattle.settings.specs.Check.{checked};
ghost use Rattle.board.specs.Sound.{sound_board};
ghost use Rattle.board.specs.Fresh.{fresh_board, made_out, fresh_of};
ghost use Rattle.board.specs.Block.{ran_out, answer_of, block_of};
ghost use Rattle.board.specs.Support.Blocks.{blocks_of};

use answer::{Answer, Refusal};
use clock::{Clock, Turn};
use ptc::Ptc;
use records::RECORD;
use settings::Settings;
use steady::Held;

#[derive(Clone, Copy, Debug, PartialEq, Eq)]
pub struct Board {
    pub settings: Settings,
    pub clock: Clock,
    pub turn: Turn,
    pub ptcs: [Ptc; 8],
    pub held: Held,
    // Which of the last 2,047 crossings carried a trigger.
    pub marks: [u64; 32],
}

// What making a fresh board gives back: a board in either case.
#[derive(Clone, Copy)]
pub struct Made {
    pub answer: Answer,
    pub board: Board,
}

// A board from settings that pass the checks.
fn from_checked(settings: Settings) -> Board
    requires { checked settings ≡ DONE }
    ensures { result ≡ fresh_board settings }
{
    let clock = Clock {
        crossings: 0,
        next: 0,
        orbits: 0,
        errors: 0,
    };
    Board {
        settings,
        clock,
        turn: Turn::fresh(&kit::slots_of(settings)),
        ptcs: [Ptc::fresh(); 8],
        held: Held::fresh(),
        marks: [0u64; 32],
    }
}

impl Board {
    // RANGE by line order, RELATION; a refused board is the one made from the standard values.
    pub fn fresh(settings: Settings) -> Made
        ensures { made_out result ≡ fresh_of settings }
    {
        let answer = settings.check();
        if answer.is_ok() {
            return Made {
                answer,
                board: from_checked(settings),
            };
        }
        Made {
            answer,
            board: from_checked(Settings::standard()),
        }
    }

    // What a board must be (document 01, "Sound"), for any board value at all.
    pub fn is_sound(&self) -> bool
        ensures { result ≡ sound_board self.now }
    {
        soundness::is_sound(
            &self.settings,
            self.clock,
            self.turn,
            &self.ptcs,
            self.held,
            &self.marks,
        )
    }

    // BOARD, LENGTH, ROOM, RECORD, LIFE, in that order.
    fn test_block(&self, log: &[u8], room: usize) -> Answer
        ensures { told result ≡ answer_of self.now log.now room }
    {
        if !self.is_sound() {
            return Err(Refusal::Board);
        }
        records::test_block(self.clock.crossings, log, room)
    }

    // A refused call leaves the board as it was and writes nothing.
    pub fn block(&mut self, log: &[u8], rows: &mut [u8]) -> Answer
        ensures { ran_out result self.new rows.new ≡ block_of self.old log.now rows.old }
    {
        self.test_block(log, rows.len())?;
        self.run(log, rows);
        Ok(())
    }

    // The blocks of 64 records of a log. All are tested before any is run, so that a sound board and its kit are looked at once for
    // all of them. The first refusal ends it: the board is then the one after the blocks before, whose rows are written.
    pub fn blocks(&mut self, log: &[u8], rows: &mut [u8]) -> Answer
        ensures { ran_out result self.new rows.new ≡ blocks_of self.old log.now rows.old }
    {
        if !self.is_sound() {
            return Err(Refusal::Board);
        }
        let tested = records::test_blocks(self.clock.crossings, log, rows.len());
        self.run(&log[..RECORD * tested.records], rows);
        tested.answer
    }
}
