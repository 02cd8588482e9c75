// The 24-byte records of a log, and the 12-byte rows that answer them (document 01, "Records and rows").
#![tactic(auto)]

mod blocks;
mod rows;

ghost use Rattle.std.specs.Prelude.{◌≡◌, ◌≤◌, ◌<◌, not, count_by, position};
ghost use Rattle.answer.specs.Told.{told};
ghost use Rattle.records.specs.Records.{asked_in, is_crossing, well};
ghost use Rattle.records.specs.Refusal.{LIFETIME, refusal_of};

use answer::{Answer, Refusal};
pub use blocks::{Tested, test_blocks};
pub use rows::{carries, command_row, crossing_row, put_row, row_byte};

pub const RECORD: usize = 24;

pub const ROW: usize = 12;

// A board's life in crossings.
pub const LIFETIME: u64 = (1 << 40) - 1;

// Whether controller k's bit stands in the requests of a crossing.
#[tactic(auto, unfolding(crate::specs::Records::asked_in))]
pub fn asked(requests: u8, k: usize) -> bool
    requires { k < 8 }
    ensures { result ≡ asked_in requests k }
{
    (requests >> k) % 2 == 1
}

#[tactic(auto, using(std::proofs::lemmas::Bool::Decides::nat_tests), unfolding(crate::specs::Records::well, crate::specs::Records::well_crossing, crate::specs::Records::well_command))]
fn is_well(rec: &[u8; RECORD]) -> bool
    ensures { result ≡ well rec.now }
{
    match rec {
        [0, 0..=1, _, 0..=15, ..] => true,
        [1, 0..=7, 1..=6, ..] => rec[3..].iter().all(|b| *b == 0),
        _ => false,
    }
}

// The index of the first ill-formed record.
fn first_ill(records: &[[u8; RECORD]]) -> Option<usize>
    ensures { result ≡ position (λ rec. not (well rec)) records.now }
{
    records.iter().position(|rec| !is_well(rec))
}

pub(crate) fn crossings_in(records: &[[u8; RECORD]]) -> u64
    ensures { result ≡ count_by is_crossing records.now }
{
    records.iter().map(|rec| u64::from(rec[0] == 0)).sum()
}

// What a block is refused for on a sound board: LENGTH, ROOM, RECORD, LIFE, in that order. It touches nothing.
#[tactic(auto, using(std::proofs::lemmas::Bool::Decides::nat_tests), unfolding(crate::specs::Refusal::refusal_of))]
pub fn test_block(done: u64, log: &[u8], room: usize) -> Answer
    requires { done ≤ LIFETIME }
    ensures { told result ≡ refusal_of done log.now room }
{
    let (records, tail) = log.as_chunks();
    let needed = ROW * records.len();
    if !tail.is_empty() {
        return Err(Refusal::Length);
    }
    if room < needed {
        return Err(Refusal::Room(needed));
    }
    if let Some(ill) = first_ill(records) {
        return Err(Refusal::Record(ill));
    }
    if LIFETIME < done + crossings_in(records) {
        return Err(Refusal::Life);
    }
    Ok(())
}
