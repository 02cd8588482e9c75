// Salvage of a log (document 02, P7): any bytes in, a log of well-formed records and a list of what was changed out.
#![tactic(auto)]

mod list;
mod mending;

ghost use Rattle.std.specs.Prelude.{◌≡◌, ◌+◌, ◌≤◌, min, length};
ghost use Rattle.text.specs.Bytes.{put};
ghost use Rattle.salvage.specs.Mending.{parts_in, salvaged_log, salvaged_part};
ghost use Rattle.salvage.specs.Changes.{changes_in, list_text};
ghost use Rattle.salvage.specs.Salvage.{MOST, salvage_out, salvage_of};

use answer::Refusal;
use list::{ENTRIES, put_changes};
use mending::{is_kept, put_part};
use records::RECORD;

// How many bytes the salvaged log and the list of changes have.
#[derive(Clone, Copy)]
pub struct Lengths {
    pub log: usize,
    pub list: usize,
}

#[tactic(auto, using(crate::proofs::Laws::kept_whole, crate::proofs::Laws::mended_long, crate::proofs::Laws::part_kept, crate::proofs::Laws::part_dropped))]
fn kept_length(part: &[u8]) -> usize
    ensures kept { result ≡ length (salvaged_part part.now) }
    ensures short { result ≤ 24 }
{
    if is_kept(part) { RECORD } else { 0 }
}

fn measure(first: u64, log: &[u8]) -> Lengths
    requires { first + parts_in log.now ≤ MOST }
    ensures log { result.log ≡ length (salvaged_log log.now) }
    ensures list { result.list ≡ min (length (list_text (changes_in first log.now))) MOST }
{
    let mut entries = [0; ENTRIES];
    let mut needed = Lengths { log: 0, list: 0 };
    for (i, part) in log.chunks(RECORD).enumerate() {
        needed.log += kept_length(part);
        let n = put_changes(&mut entries, first + i as u64, part);
        needed.list = needed.list.saturating_add(n);
    }
    needed
}

fn write(first: u64, log: &[u8], salvaged: &mut [u8], changes: &mut [u8])
    requires numbers { first + parts_in log.now ≤ MOST }
    requires log_room { length (salvaged_log log.now) ≤ length salvaged.old }
    requires list_room { length (list_text (changes_in first log.now)) ≤ length changes.old }
    ensures log { salvaged.new ≡ put salvaged.old 0 (salvaged_log log.now) }
    ensures list { changes.new ≡ put changes.old 0 (list_text (changes_in first log.now)) }
{
    let mut entries = [0; ENTRIES];
    let mut kept = 0;
    let mut list = 0;
    for (i, part) in log.chunks(RECORD).enumerate() {
        let number = first + i as u64;
        kept = put_part(salvaged, kept, part);
        let n = put_changes(&mut entries, number, part);
        list = text::put_bytes(changes, list, &entries[..n]);
    }
}

// The records of the log are numbered from `first` on. RANGE where the numbers would pass the greatest; ROOM with the bytes needed, the
// log's first. A refusal writes nothing.
#[tactic(auto, using(std::proofs::lemmas::Bool::Decides::nat_tests), unfolding(crate::specs::Salvage::salvage_of))]
pub fn salvage(
    first: u64,
    log: &[u8],
    salvaged: &mut [u8],
    changes: &mut [u8],
) -> Result<Lengths, Refusal>
    ensures { salvage_out result salvaged.new changes.new ≡ salvage_of first log.now salvaged.old changes.old }
{
    if u64::MAX - first < log.len().div_ceil(RECORD) as u64 {
        return Err(Refusal::Range(first as usize));
    }
    let needed = measure(first, log);
    if salvaged.len() < needed.log {
        return Err(Refusal::Room(needed.log));
    }
    if changes.len() < needed.list {
        return Err(Refusal::Room(needed.list));
    }
    write(first, log, salvaged, changes);
    Ok(needed)
}
