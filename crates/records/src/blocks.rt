// The blocks of 64 records of a log, tested in one pass before any of them is run.
ghost use Rattle.std.specs.Prelude.{◌≡◌, ◌≤◌};
ghost use Rattle.records.specs.Refusal.{LIFETIME};
ghost use Rattle.records.specs.Support.Blocks.{block_count, tested_out, tested_of};

use crate::{RECORD, ROW, crossings_in, test_block};
use answer::Answer;

// How many records a block has, their bytes, and those of their rows.
const RECORDS: usize = 64;

const BLOCK: usize = RECORDS * RECORD;

const BLOCK_ROWS: usize = RECORDS * ROW;

// The first refusal, and how many records stand before its block; or Ok, and all records.
#[derive(Clone, Copy)]
pub struct Tested {
    pub answer: Answer,
    pub records: usize,
}

// Each block is tested as if those before it had been run: their crossings are done, and their rows written.
pub fn test_blocks(first: u64, log: &[u8], room: usize) -> Tested
    requires { first ≤ LIFETIME }
    ensures { tested_out result ≡ tested_of (block_count log.now) first log.now room }
{
    let mut done = first;
    for (i, block) in log.chunks(BLOCK).enumerate() {
        let answer = test_block(done, block, room - BLOCK_ROWS * i);
        let refused = answer.is_err();
        if refused {
            return Tested {
                answer,
                records: RECORDS * i,
            };
        }
        let (records, _) = block.as_chunks();
        let crossings = crossings_in(records);
        done += crossings;
    }
    Tested {
        answer: Ok(()),
        records: log.len() / RECORD,
    }
}
