// The letter and the numbers of a line.
ghost use Rattle.std.specs.Prelude.{◌≡◌, min, eqb, get_or};
ghost use Rattle.laws.specs.Base.{if, one};
ghost use Rattle.cases.specs.Words.{digit_more, number_after};

// A line's letter, or 0, and its numbers.
#[derive(Clone, Copy)]
pub struct Words {
    pub letter: u8,
    pub a: u64,
    pub b: u64,
    pub c: u64,
    pub d: u64,
}

// The numbers of 17 digits: of a longer one the last 18 count.
const BEFORE_ONE_MORE: u64 = 100_000_000_000_000_000;

// The number after `skip` spaces of a line, or 0: what is no digit changes nothing.
#[tactic(auto, unfolding(crate::specs::Words::digit_more, crate::specs::Words::spaces_in, crate::specs::Words::number_in, crate::specs::Words::number_after))]
fn number(line: &[u8], skip: usize) -> u64
    ensures { result ≡ number_after skip line.now }
{
    let mut spaces = 0;
    let mut value = 0;
    for b in line {
        if spaces == skip && b.is_ascii_digit() {
            value = value % BEFORE_ONE_MORE * 10 + u64::from(*b - b'0');
        }
        spaces += usize::from(*b == b' ');
    }
    value
}

pub fn words_of(line: &[u8]) -> Words
    ensures { (result.letter ≡ get_or line.now 0 0) × (result.a ≡ number_after 1 line.now) × (result.b ≡ number_after 2 line.now) × (result.c ≡ number_after 3 line.now) × (result.d ≡ number_after 4 line.now) }
{
    Words {
        letter: line.first().copied().unwrap_or(0),
        a: number(line, 1),
        b: number(line, 2),
        c: number(line, 3),
        d: number(line, 4),
    }
}

// The number, or the most that it may be.
pub fn at_most(n: u64, most: usize) -> usize
    ensures { result ≡ min n most }
{
    n.min(most as u64) as usize
}
