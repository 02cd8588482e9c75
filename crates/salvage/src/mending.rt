// What is kept of a log's part, a record or a tail, and how a kept record is mended.
ghost use Rattle.std.specs.Prelude.{◌≡◌, ◌+◌, ◌≤◌, length};
ghost use Rattle.salvage.specs.Laid.{Laid};
ghost use Rattle.salvage.specs.Mending.{is_kept, mend, mended, salvaged_part};

use records::RECORD;
use std::array;

// A part is kept if it is a record of known kind, controller and command.
#[tactic(auto, using(std::proofs::lemmas::Bool::Decides::nat_tests), unfolding(crate::specs::Mending::is_kept, crate::specs::Mending::known_command))]
pub(crate) fn is_kept(part: &[u8]) -> bool
    ensures { result ≡ is_kept part.now }
{
    part.len() == RECORD && matches!(part, [0, ..] | [1, 0..=7, 1..=6, ..])
}

// What byte k of a kept record of this kind becomes.
#[tactic(auto, using(std::proofs::lemmas::Bool::Decides::nat_tests), unfolding(crate::specs::Mending::mend))]
pub(crate) fn mend(kind: u8, k: usize, b: u8) -> u8
    ensures { result ≡ mend kind k b }
{
    match (kind, k) {
        (0, 1) => b % 2,
        (0, 3) => b % 16,
        (0, _) | (_, 0..=2) => b,
        _ => 0,
    }
}

fn mended(rec: &[u8]) -> [u8; RECORD]
    requires { length rec.now ≡ 24 }
    ensures { result ≡ mended rec.now }
{
    array::from_fn(|k| mend(rec[0], k, rec[k]))
}

// Lays what is kept of a part into the salvaged log, and answers the place after it.
#[tactic(auto, using(text::proofs::Bytes::put_nil, crate::proofs::Laws::kept_whole, crate::proofs::Laws::part_kept, crate::proofs::Laws::part_dropped))]
pub(crate) fn put_part(salvaged: &mut [u8], at: usize, part: &[u8]) -> usize
    requires { at + length (salvaged_part part.now) ≤ length salvaged.old }
    ensures { Laid salvaged.old at (salvaged_part part.now) result salvaged.new }
{
    if !is_kept(part) {
        return at;
    }
    text::put_bytes(salvaged, at, &mended(part))
}
