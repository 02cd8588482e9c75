// The merge of status codes by lanes: byte k of a word, its lane k, has bit r where a member of controller k has class r. Or-ing two
// words merges them for all eight controllers at once.
#![tactic(auto)]

ghost use Rattle.std.specs.Prelude.{◌≡◌, ◌≤◌, ◌<◌, get_or};
ghost use Rattle.status.specs.Support.Merger.{half};
ghost use Rattle.lanes.specs.Support.Lanes.{bit_of, in_lane, in_all, rank_of, entry_of, table_of, pair_of, lanes_of, top_of, class_in, lane_classes};

use status::Merger;
use std::array;

#[tactic(auto, unfolding(crate::specs::Support::Lanes::bit_of))]
fn bit(rank: u8) -> u64
    ensures { (result ≡ bit_of rank) × (result < 256) }
{
    match rank {
        1..=7 => 1 << rank,
        _ => 0,
    }
}

#[tactic(auto, unfolding(crate::specs::Support::Lanes::in_lane))]
fn in_lane(bit: u64, k: u32) -> u64
    requires { bit < 256 }
    ensures { result ≡ in_lane bit k }
{
    if k < 8 { bit << 8 * k } else { 0 }
}

#[tactic(auto, unfolding(crate::specs::Support::Lanes::in_all))]
fn in_all(bit: u64) -> u64
    requires { bit < 256 }
    ensures { result ≡ in_all bit }
{
    bit * 0x0101010101010101
}

fn half_at(input: usize) -> usize
    ensures { (result ≡ half input) × (result ≤ 16) }
{
    if status::is_emulator(input) { 16 } else { 0 }
}

#[tactic(auto, unfolding(crate::specs::Support::Lanes::rank_of))]
fn rank_at(ranks: &[u8; 32], n: usize) -> u8
    requires { n < 656 }
    ensures { result ≡ rank_of ranks.now n }
{
    ranks[half_at(n / 16) + n % 16]
}

#[tactic(auto, unfolding(crate::specs::Support::Lanes::entry_of))]
fn entry(m: &Merger, n: usize) -> u64
    requires { n < 656 }
    ensures { result ≡ entry_of m.now.owners m.now.ranks n }
{
    let b = bit(rank_at(&m.ranks, n));
    if n < 640 {
        in_lane(b, m.owners[n / 16])
    } else {
        in_all(b)
    }
}

// For each input and code the word that it merges in, made once for many crossings; at 640 those of the GTFE code. The merger is
// lent, since by value it would be copied at each of the places.
pub fn table(m: Merger) -> [u64; 656]
    ensures { result ≡ table_of m }
{
    array::from_fn(|n| entry(&m, n))
}

#[tactic(auto, unfolding(crate::specs::Support::Lanes::pair_of))]
fn pair(t: &[u64; 656], codes: &[u8; 21], j: usize) -> u64
    requires { j < 20 }
    ensures { result ≡ pair_of t.now codes.now j }
{
    let b = usize::from(codes[1 + j]);
    t[32 * j + b % 16] | t[32 * j + 16 + b / 16]
}

#[tactic(auto, unfolding(crate::specs::Support::Lanes::lanes_of))]
fn lanes(t: &[u64; 656], codes: &[u8; 21]) -> u64
    requires { get_or codes.now 0 0 < 16 }
    ensures { result ≡ lanes_of t.now codes.now 20 }
{
    let mut all = t[640 + usize::from(codes[0])];
    for j in 0..20 {
        all |= pair(t, codes, j);
    }
    all
}

// Bit 0 is set so that there is a highest bit; it is no class.
#[tactic(auto, using(crate::proofs::Tops::odd, crate::proofs::Tops::top_from))]
fn top(x: u64) -> u32
    ensures { (result ≡ top_of x) × (result ≤ 63) }
{
    (1 | x).ilog2()
}

#[tactic(auto, unfolding(crate::specs::Support::Lanes::class_in))]
fn class_in(lanes: u64, k: usize) -> u8
    requires { k < 8 }
    ensures { result ≡ class_in lanes k }
{
    top((lanes >> 8 * k) % 256) as u8
}

// The classes of all eight controllers, by the codes of a record, its bytes 3 to 23.
pub fn merge(t: &[u64; 656], codes: &[u8; 21]) -> [u8; 8]
    requires { get_or codes.now 0 0 < 16 }
    ensures { result ≡ lane_classes t.now codes.now }
{
    let all = lanes(t, codes);
    array::from_fn(|k| class_in(all, k))
}
