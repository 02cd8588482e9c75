// A record of a log, as a line tells it.
ghost use Rattle.std.specs.Prelude.{◌≡◌, ◌%◌, eqb};
ghost use Rattle.laws.specs.Base.{if};
ghost use Rattle.cases.specs.Record.{record_of};

use crate::line::Words;

pub fn byte(n: u64) -> u8
    ensures { result ≡ n % 256 }
{
    (n % 256) as u8
}

// A crossing has every code 8 but the GTFE's, which is the last number; another kind has 0 there.
#[tactic(auto, unfolding(crate::specs::Record::record_of))]
pub fn record_of(w: Words) -> [u8; 24]
    ensures { result ≡ record_of w.a w.b w.c w.d }
{
    let kind = byte(w.a);
    let mut rec = [if kind == 0 { 0x88 } else { 0 }; 24];
    rec[..4].copy_from_slice(&[kind, byte(w.b), byte(w.c), byte(w.d)]);
    rec
}
