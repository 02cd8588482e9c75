// The report's text (document 01, "Report"; document 02, P5).
#![tactic(auto)]

ghost use Rattle.std.specs.Prelude.{◌≡◌, ◌+◌, ◌<◌, ◌≤◌, ltb, length};
ghost use Rattle.text.specs.Bytes.{put};
ghost use Rattle.settings.specs.Names.{slot_of};
ghost use Rattle.report.specs.Report.{common_values, block_values, controller_text, blocks_from, report_text, report_out, reported};

use answer::{Answer, Refusal};
use board::Board;
use ptc::Ptc;
use settings::Settings;

// Where the report's keys begin in the table, its common ones and those of a block.
const COMMON: usize = 160;

const BLOCK: usize = 164;

fn common_values(b: &Board) -> [u64; 4]
    ensures { result ≡ common_values b.now }
{
    [
        b.clock.crossings,
        b.clock.orbits,
        b.clock.errors,
        u64::from(b.turn.holder),
    ]
}

fn block_values(k: usize, ptc: &Ptc) -> [u64; 17]
    ensures { result ≡ block_values k ptc.now }
{
    let c = &ptc.counts;
    [
        k as u64,
        u64::from(ptc.state),
        c.requested,
        c.accepted,
        c.lost.state,
        c.lost.slot,
        c.lost.gap,
        c.lost.cal,
        c.lost.throttle,
        c.lost.rules.first,
        c.lost.rules.second,
        c.lost.rules.third,
        c.lost.rules.fourth,
        c.cal.requested,
        c.cal.accepted,
        c.cal.lost,
        ptc.events,
    ]
}

// Only a controller with a slot has a block.
fn has_block(s: &Settings, k: usize) -> bool
    requires { k < 8 }
    ensures { result ≡ ltb 0 (slot_of s.now k) }
{
    0 < s.slot(k)
}

// How long the block of a controller is.
#[tactic(auto, using(crate::proofs::Laws::block_by_block))]
fn block_length(s: &Settings, k: usize, ptc: &Ptc) -> usize
    requires { k < 8 }
    ensures { (result ≡ length (controller_text s.now k ptc.now)) × (result ≤ 131072) }
{
    if !has_block(s, k) {
        return 0;
    }
    keys::lines_length(BLOCK, &block_values(k, ptc))
}

// Lays the block of a controller, and answers the place after it.
#[tactic(auto, using(crate::proofs::Laws::block_by_block))]
fn put_block(out: &mut [u8], at: usize, s: &Settings, k: usize, ptc: &Ptc) -> usize
    requires { (k < 8) × (at + length (controller_text s.now k ptc.now) ≤ length out.old) }
    ensures { (result ≡ at + length (controller_text s.now k ptc.now)) × (out.new ≡ put out.old at (controller_text s.now k ptc.now)) }
{
    if !has_block(s, k) {
        return at;
    }
    keys::put_lines(out, at, BLOCK, &block_values(k, ptc))
}

// How long the blocks of all eight are.
#[tactic(auto, using(crate::proofs::Laws::block_by_block))]
fn blocks_length(s: &Settings, ptcs: &[Ptc; 8]) -> usize
    ensures { (result ≡ length (blocks_from s.now 0 ptcs.now)) × (result ≤ 1048576) }
{
    let mut sum = 0;
    for (k, ptc) in ptcs.iter().enumerate() {
        sum += block_length(s, k, ptc);
    }
    sum
}

// Lays them one behind the other.
#[tactic(auto, using(crate::proofs::Laws::block_by_block))]
fn put_blocks(out: &mut [u8], at: usize, s: &Settings, ptcs: &[Ptc; 8])
    requires { at + length (blocks_from s.now 0 ptcs.now) ≤ length out.old }
    ensures { out.new ≡ put out.old at (blocks_from s.now 0 ptcs.now) }
{
    let mut place = at;
    for (k, ptc) in ptcs.iter().enumerate() {
        place = put_block(out, place, s, k, ptc);
    }
}

#[tactic(auto, using(crate::proofs::Laws::block_by_block))]
pub fn text_length(board: &Board) -> usize
    ensures { result ≡ length (report_text board.now) }
{
    let common = keys::lines_length(COMMON, &common_values(board));
    common + blocks_length(&board.settings, &board.ptcs)
}

#[tactic(auto, using(crate::proofs::Laws::block_by_block))]
fn put_text(board: &Board, out: &mut [u8])
    requires { length (report_text board.now) ≤ length out.old }
    ensures { out.new ≡ put out.old 0 (report_text board.now) }
{
    let at = keys::put_lines(out, 0, COMMON, &common_values(board));
    put_blocks(out, at, &board.settings, &board.ptcs);
}

// BOARD, then ROOM with the bytes needed; a success writes exactly the report.
#[tactic(auto, using(crate::proofs::Laws::written))]
pub fn write(board: &Board, out: &mut [u8]) -> Answer
    ensures { report_out result out.new ≡ reported board.now out.old }
{
    if !board.is_sound() {
        return Err(Refusal::Board);
    }
    let needed = text_length(board);
    if out.len() < needed {
        return Err(Refusal::Room(needed));
    }
    put_text(board, out);
    Ok(())
}
