// The ranges of the lines of the settings text, by the places of their keys.
ghost use Rattle.std.specs.Prelude.{◌≡◌, ◌<◌, ◌≤◌};
ghost use Rattle.keys.specs.Support.Lines.{line_count, limits_of, range_at};

use text::Range;

// The least and the greatest value of line n.
fn limits(n: usize) -> (u32, u32)
    ensures { result ≡ limits_of n }
{
    match n {
        // edition
        0 => (2, 3),
        // orbit
        1 => (64, 4096),
        // r1_gap
        4 => (2, 7),
        // r2_period, r2_norm, r2_low
        5 => (1, 63),
        6 | 7 => (0, 15),
        // r3_period, r3_norm, r3_low
        8 => (64, 176),
        9 | 10 => (0, 63),
        // r4_period, r4_norm, r4_low
        11 => (1, 2047),
        12 | 13 => (0, 511),
        // ignore_disc, ignore_bad, warn_blocks
        14 | 15 | 148 => (0, 1),
        // settle_resync to recover_hard, slot0 to slot7
        16..=27 => (0, 255),
        // part0 to part31
        116..=147 => (0, 8),
        // gap_low, gap_high, and the schedules
        _ => (0, 4095),
    }
}

// Every line has at most five digits.
pub fn range(n: usize) -> Range
    requires { n < line_count }
    ensures { (result ≡ range_at n) × (0 < result.digits) × (result.digits ≤ 8) }
{
    let (low, high) = limits(n);
    Range {
        low,
        high,
        digits: 5,
    }
}
