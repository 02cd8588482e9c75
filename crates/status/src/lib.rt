// The status of a controller: a code's class, and the merge of all its members (document 01, step 2 of "One crossing").
#![tactic(auto)]

ghost use Rattle.std.specs.Prelude.{◌≡◌, ◌<◌};
ghost use Rattle.laws.specs.Base.{tabulate};
ghost use Rattle.status.specs.Class.{emulator, class_of, counted};
ghost use Rattle.status.specs.Support.Merger.{owner_of, rank_at, merger_of};

use settings::{Ignores, Settings};
use std::array;

// The classes, numbered by rank.
pub const RANK_NONE: u8 = 0;

pub const RANK_READY: u8 = 1;

pub const RANK_WARNING: u8 = 2;

pub const RANK_BUSY: u8 = 3;

pub const RANK_OUT_OF_SYNC: u8 = 4;

pub const RANK_ERROR: u8 = 5;

pub const RANK_BAD: u8 = 6;

pub const RANK_DISCONNECTED: u8 = 7;

// Partitions 24 to 31 may be emulators.
pub fn is_emulator(input: usize) -> bool
    ensures { result ≡ emulator input }
{
    (24..=31).contains(&input)
}

// The class of a code, by the kind of its input: 0 to 31 partitions, 32 to 39 aTTS, 40 GTFE.
// It is Table 1 of the manual (document 003, 2.1.1) row by row, so that the two can be laid side by side.
#[tactic(auto, unfolding(crate::specs::Class::class_of))]
fn class(input: usize, code: u8) -> u8
    ensures { result ≡ class_of input code }
{
    match code {
        0b0000 => RANK_DISCONNECTED,
        0b0001 => RANK_WARNING,
        0b0010 => RANK_OUT_OF_SYNC,
        0b0011 => RANK_BAD,
        0b0100 => RANK_BUSY,
        0b0101 => RANK_BAD,
        0b0110 => RANK_BAD,
        0b0111 => RANK_BAD,
        0b1000 => RANK_READY,
        0b1001 => RANK_BAD,
        0b1010 => RANK_BAD,
        0b1011 if is_emulator(input) => RANK_BUSY,
        0b1011 => RANK_BAD,
        0b1100 => RANK_ERROR,
        0b1101 => RANK_BAD,
        0b1110 => RANK_BAD,
        0b1111 => RANK_DISCONNECTED,
        _ => RANK_BAD,
    }
}

// What a member of that class counts: nothing where the settings ignore it.
#[tactic(auto, unfolding(crate::specs::Class::counted))]
fn counts(ignores: Ignores, class: u8) -> u8
    ensures { result ≡ counted ignores class }
{
    match class {
        RANK_DISCONNECTED if ignores.disc => RANK_NONE,
        RANK_BAD if ignores.bad => RANK_NONE,
        _ => class,
    }
}

// What of the settings the merge needs, made once for many crossings.
#[derive(Clone, Copy)]
pub struct Merger {
    pub owners: [u32; 40],
    pub ranks: [u8; 32],
}

#[tactic(auto, unfolding(crate::specs::Support::Merger::owner_of))]
fn owner(s: Settings, input: usize) -> u32
    requires { input < 40 }
    ensures { result ≡ owner_of s input }
{
    if input < 32 {
        s.part(input)
    } else {
        (input - 32) as u32
    }
}

fn owners(s: Settings) -> [u32; 40]
    ensures { result ≡ tabulate (owner_of s) 0 40 }
{
    array::from_fn(|n| owner(s, n))
}

#[tactic(auto, unfolding(crate::specs::Support::Merger::rank_at))]
fn rank(ignores: Ignores, place: usize) -> u8
    requires { place < 32 }
    ensures { result ≡ rank_at ignores place }
{
    let code = (place % 16) as u8;
    counts(ignores, class(24 * (place / 16), code))
}

fn ranks(ignores: Ignores) -> [u8; 32]
    ensures { result ≡ tabulate (rank_at ignores) 0 32 }
{
    array::from_fn(|n| rank(ignores, n))
}

impl Merger {
    #[tactic(auto, unfolding(crate::specs::Support::Merger::merger_of))]
    pub fn of(s: Settings) -> Merger
        ensures { result ≡ merger_of s }
    {
        Merger {
            owners: owners(s),
            ranks: ranks(s.ignores()),
        }
    }
}
