// The throttle: the marks of the last 2,047 crossings, and the four rules over them (document 01, "Throttle").
// The marks are a ring of bits: crossing c has bit c % 64 of word c / 64 % 32. They are lent, since a copy costs more than a rule.
#![tactic(auto)]

ghost use Rattle.std.specs.Prelude.{◌≡◌, ◌+◌, ◌-◌, ◌/◌, ◌<◌, ◌≤◌, ◌^◌, leb};
ghost use Rattle.std.specs.Int.Count.{ones_in};
ghost use Rattle.throttle.specs.Marks.{bit_at, put_bit, mark_at, marked, passed, among};
ghost use Rattle.throttle.specs.Sound.{sound_marks};
ghost use Rattle.throttle.specs.Rules.{limit_of, Sensible, refused_by};

use settings::{Rule, Rules};

#[tactic(auto, unfolding(crate::specs::Marks::bit_at))]
fn bit(w: u64, k: u64) -> u64
    requires { k < 64 }
    ensures { result ≡ bit_at w k }
{
    (w >> k) % 2
}

// w with x for its bit k.
#[tactic(auto, using(crate::proofs::Bits::put_is))]
fn put_bit(w: u64, k: u64, x: u64) -> u64
    requires { (k < 64) × (x < 2) }
    ensures { result ≡ put_bit w k x }
{
    w & !(1 << k) | x << k
}

// How many of the `taken` bits below bit `used` are set.
#[tactic(auto, using(crate::proofs::Words::ones_between))]
fn ones_below(w: u64, used: u64, taken: u64) -> u64
    requires { (0 < taken) × (taken ≤ used) × (used ≤ 64) }
    ensures { result ≡ ones_in taken (w / 2 ^ (used - taken)) }
{
    u64::from((w << (64 - used) >> (64 - taken)).count_ones())
}

// The mark of crossing c: 1 where it carried a trigger.
#[tactic(auto, unfolding(crate::specs::Marks::mark_at))]
fn mark(marks: &[u64; 32], c: u64) -> u64
    ensures { result ≡ mark_at marks.now c }
{
    let i = (c / 64 % 32) as usize;
    bit(marks[i], c % 64)
}

#[tactic(auto, unfolding(crate::specs::Marks::marked))]
fn put_mark(marks: &mut [u64; 32], c: u64, x: u64)
    requires { x < 2 }
    ensures { marks.new ≡ marked marks.old c x }
{
    let i = (c / 64 % 32) as usize;
    marks[i] = put_bit(marks[i], c % 64, x);
}

// Marks crossing c, which carried a trigger where x is 1, and clears the next place, the oldest.
#[tactic(auto, unfolding(crate::specs::Marks::passed))]
pub fn pass(marks: &mut [u64; 32], c: u64, x: u64)
    requires { (x < 2) × (c + 1 < 2 ^ 64) }
    ensures { marks.new ≡ passed marks.old c x }
{
    put_mark(marks, c, x);
    put_mark(marks, c + 1, 0);
}

// After n crossings, how many of the last k are marked. It goes by words, from the newest.
#[tactic(auto, using(crate::proofs::Words::among_all, crate::proofs::Words::among_none, crate::proofs::Words::count_turn, crate::proofs::Words::count_bounded))]
fn count(marks: &[u64; 32], n: u64, k: u64) -> u64
    ensures { result ≡ among marks.now n k }
{
    let mut left = k.min(n);
    let mut end = n;
    let mut sum: u64 = 0;
    while 0 < left {
        let last = end - 1;
        let i = (last / 64 % 32) as usize;
        let used = last % 64 + 1;
        let taken = left.min(used);
        sum += ones_below(marks[i], used, taken);
        end -= taken;
        left -= taken;
    }
    sum
}

// After n crossings: whether the places that belong to none of the last 2,047 are clear.
pub fn is_sound(marks: &[u64; 32], n: u64) -> bool
    requires { n < 2 ^ 63 }
    ensures { result ≡ sound_marks n marks.now }
{
    (0..2048 - n.min(2047)).all(|d| mark(marks, n + d) == 0)
}

fn limit(rule: Rule, warn: bool) -> u32
    ensures { result ≡ limit_of rule warn }
{
    if warn { rule.low } else { rule.norm }
}

// How many of the last crossings are marked.
#[derive(Clone, Copy)]
struct Counted {
    crossings: u64,
    marked: u64,
}

impl Counted {
    // The count that a rule goes by. Where its period is longer, what is counted already is not counted again.
    #[tactic(auto, using(crate::proofs::Words::goes_on, crate::proofs::Ring::among_le))]
    fn on(self, marks: &[u64; 32], n: u64, rule: Rule) -> Counted
        requires { (self.marked ≡ among marks.now n self.crossings) × (0 < rule.period) }
        ensures { (result.crossings ≡ rule.period - 1) × (result.marked ≡ among marks.now n (rule.period - 1)) }
    {
        let k = u64::from(rule.period - 1);
        if k < self.crossings {
            return Counted {
                crossings: k,
                marked: count(marks, n, k),
            };
        }
        let before = n.saturating_sub(self.crossings);
        Counted {
            crossings: k,
            marked: self.marked + count(marks, before, k - self.crossings),
        }
    }

    // Whether one more trigger now is within a rule.
    fn is_within(self, rule: Rule, warn: bool) -> bool
        ensures { result ≡ leb (self.marked + 1) (limit_of rule warn) }
    {
        self.marked < u64::from(limit(rule, warn))
    }
}

// The first of the four rules that refuses a trigger after n crossings, by the low limits under warning; 0 where none does.
#[tactic(auto, using(crate::proofs::Refusals::closed), unfolding(crate::specs::Rules::refuser, crate::specs::Rules::allows, crate::specs::Marks::among))]
pub fn refused_by(marks: &[u64; 32], rules: Rules, n: u64, warn: bool) -> u8
    requires { Sensible rules }
    ensures { result ≡ refused_by rules marks.now n warn }
{
    let spacing = Rule {
        period: rules.spacing + 1,
        norm: 1,
        low: 1,
    };
    let none = Counted {
        crossings: 0,
        marked: 0,
    };
    let first = none.on(marks, n, spacing);
    if !first.is_within(spacing, warn) {
        return 1;
    }
    if limit(rules.second, warn) == 0 {
        return 2; // Whatever is counted: text that sends nothing under warning has it so.
    }
    let second = first.on(marks, n, rules.second);
    if !second.is_within(rules.second, warn) {
        return 2;
    }
    let third = second.on(marks, n, rules.third);
    if !third.is_within(rules.third, warn) {
        return 3;
    }
    let fourth = third.on(marks, n, rules.fourth);
    if fourth.is_within(rules.fourth, warn) {
        0
    } else {
        4
    }
}
