// The standard values, in the order of the newest edition's lines.
ghost use Rattle.std.specs.Prelude.{◌≡◌};
ghost use Rattle.settings.specs.Standard.{standard_values};

const STANDARD: [u32; 147] = [
    // orbit
    3564,
    // gap_low, gap_high
    3444, 3563,
    // r1_gap
    2,
    // r2_period, r2_norm, r2_low
    25, 2, 1,
    // r3_period, r3_norm, r3_low
    100, 3, 2,
    // r4_period, r4_norm, r4_low
    240, 4, 2,
    // ignore_disc, ignore_bad
    0, 0,
    // settle_resync, settle_hard, recover_resync, recover_hard
    12, 12, 1, 1,
    // slot0 to slot7
    255, 0, 0, 0, 0, 0, 0, 0,
    // at0_bc0 to at0_cal
    0, 3400, 100, 200, 300, 400, 500, 600, 3444, 3000, 3490,
    // at1_bc0 to at1_cal
    0, 3400, 100, 200, 300, 400, 500, 600, 3444, 3000, 3490,
    // at2_bc0 to at2_cal
    0, 3400, 100, 200, 300, 400, 500, 600, 3444, 3000, 3490,
    // at3_bc0 to at3_cal
    0, 3400, 100, 200, 300, 400, 500, 600, 3444, 3000, 3490,
    // at4_bc0 to at4_cal
    0, 3400, 100, 200, 300, 400, 500, 600, 3444, 3000, 3490,
    // at5_bc0 to at5_cal
    0, 3400, 100, 200, 300, 400, 500, 600, 3444, 3000, 3490,
    // at6_bc0 to at6_cal
    0, 3400, 100, 200, 300, 400, 500, 600, 3444, 3000, 3490,
    // at7_bc0 to at7_cal
    0, 3400, 100, 200, 300, 400, 500, 600, 3444, 3000, 3490,
    // part0 to part31
    0, 0, 0, 0, 0, 0, 0, 0, 0, 0, 0, 0, 0, 0, 0, 0, 0, 0, 0, 0, 0, 0, 0, 0, 0, 0, 0, 0, 0, 0, 0, 0,
];

pub(crate) fn standard_values() -> [u32; 147]
    ensures { result ≡ standard_values }
{
    STANDARD
}
