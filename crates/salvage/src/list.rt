// The list of changes: its entries as text, four lines each.
ghost use Rattle.std.specs.Prelude.{◌≡◌, ◌+◌, ◌<◌, ◌≤◌, length};
ghost use Rattle.salvage.specs.Changes.{drops, place_text, change_text, change_at, changes_to, changes_of, list_text};
ghost use Rattle.salvage.specs.Laid.{Laid};

use crate::mending::{is_kept, mend};
use records::RECORD;

// The bytes that an entry may have, and those of one part.
const ENTRY: usize = 52;

pub(crate) const ENTRIES: usize = RECORD * ENTRY;

// Where a change is, and what was there.
#[tactic(auto, using(crate::proofs::Laws::place_parts), unfolding(text::specs::Bytes::bytes))]
fn put_place(list: &mut [u8], at: usize, number: u64, byte: usize, was: u8) -> usize
    requires { at + length (place_text number byte was) ≤ length list.old }
    ensures { Laid list.old at (place_text number byte was) result list.new }
{
    let byte_at = text::put_line(list, at, b"record=", number);
    let was_at = text::put_line(list, byte_at, b"byte=", byte as u64);
    text::put_line(list, was_at, b"was=", u64::from(was))
}

// The entry of byte k of a kept record, if that is mended.
#[tactic(auto, using(crate::proofs::Laws::place_most, crate::proofs::Laws::new_most), unfolding(text::specs::Bytes::bytes))]
fn put_mend(list: &mut [u8], at: usize, number: u64, kind: u8, k: usize, was: u8) -> usize
    requires inside { k < 24 }
    requires room { at + 52 ≤ length list.old }
    ensures laid { Laid list.old at (list_text (change_at number kind k was)) result list.new }
    ensures short { result ≤ at + 52 }
{
    let becomes = mend(kind, k, was);
    if becomes == was {
        return at;
    }
    let now_at = put_place(list, at, number, k, was);
    text::put_line(list, now_at, b"now=", u64::from(becomes))
}

// The entry of a part that is dropped.
#[tactic(auto, using(crate::proofs::Laws::drop_place_most))]
fn put_drop(list: &mut [u8], number: u64, was: u8) -> usize
    requires { 52 ≤ length list.old }
    ensures laid { Laid list.old 0 (change_text (drops number was)) result list.new }
    ensures short { result ≤ 52 }
{
    let now_at = put_place(list, 0, number, 0, was);
    text::put_bytes(list, now_at, b"now=drop\n")
}

fn put_mends(list: &mut [u8], number: u64, rec: &[u8]) -> usize
    requires whole { length rec.now ≡ 24 }
    requires room { 1248 ≤ length list.old }
    ensures laid { Laid list.old 0 (list_text (changes_to 24 number rec.now)) result list.new }
    ensures short { result ≤ 1248 }
{
    let kind = rec[0];
    let mut at = 0;
    // Over a number of turns that is known where it is compiled: over the record's bytes a list of many entries takes longer.
    for k in 0..RECORD {
        at = put_mend(list, at, number, kind, k, rec[k]);
    }
    at
}

// Lays a part's entries at the front of a buffer that has room for those of any part, and answers their length.
#[tactic(auto, using(crate::proofs::Laws::kept_whole, crate::proofs::Laws::text_one, crate::proofs::Laws::entries_kept, crate::proofs::Laws::entries_dropped))]
pub(crate) fn put_changes(list: &mut [u8], number: u64, part: &[u8]) -> usize
    requires some { 0 < length part.now }
    requires room { 1248 ≤ length list.old }
    ensures laid { Laid list.old 0 (list_text (changes_of number part.now)) result list.new }
    ensures short { result ≤ 1248 }
{
    if is_kept(part) {
        return put_mends(list, number, part);
    }
    put_drop(list, number, part[0])
}
