// The one table of fixed byte strings: every key of the settings text and of the report, each with its `=`, lent in parts to readers and writers.
#![tactic(auto)]

mod ranges;

ghost use Rattle.std.specs.Prelude.{◌≡◌, ◌+◌, ◌*◌, ◌<◌, ◌≤◌, length, drop};
ghost use Rattle.text.specs.Bytes.{put, starts};
ghost use Rattle.text.specs.Lines.{line_head, line_text, lines_text};
ghost use Rattle.text.specs.Support.Seen.{LineIs};
ghost use Rattle.keys.specs.Keys.{keys, key_at, key_count, line_most};

pub use ranges::range;

static KEYS: [u8; 1489] = *b"edition=\
    orbit=gap_low=gap_high=\
    r1_gap=r2_period=r2_norm=r2_low=r3_period=r3_norm=r3_low=r4_period=r4_norm=r4_low=\
    ignore_disc=ignore_bad=settle_resync=settle_hard=recover_resync=recover_hard=\
    slot0=slot1=slot2=slot3=slot4=slot5=slot6=slot7=\
    at0_bc0=at0_te=at0_resync=at0_hard=at0_ec0=at0_oc0=at0_start=at0_stop=at0_gap=at0_wte=at0_cal=\
    at1_bc0=at1_te=at1_resync=at1_hard=at1_ec0=at1_oc0=at1_start=at1_stop=at1_gap=at1_wte=at1_cal=\
    at2_bc0=at2_te=at2_resync=at2_hard=at2_ec0=at2_oc0=at2_start=at2_stop=at2_gap=at2_wte=at2_cal=\
    at3_bc0=at3_te=at3_resync=at3_hard=at3_ec0=at3_oc0=at3_start=at3_stop=at3_gap=at3_wte=at3_cal=\
    at4_bc0=at4_te=at4_resync=at4_hard=at4_ec0=at4_oc0=at4_start=at4_stop=at4_gap=at4_wte=at4_cal=\
    at5_bc0=at5_te=at5_resync=at5_hard=at5_ec0=at5_oc0=at5_start=at5_stop=at5_gap=at5_wte=at5_cal=\
    at6_bc0=at6_te=at6_resync=at6_hard=at6_ec0=at6_oc0=at6_start=at6_stop=at6_gap=at6_wte=at6_cal=\
    at7_bc0=at7_te=at7_resync=at7_hard=at7_ec0=at7_oc0=at7_start=at7_stop=at7_gap=at7_wte=at7_cal=\
    part0=part1=part2=part3=part4=part5=part6=part7=part8=part9=\
    part10=part11=part12=part13=part14=part15=part16=part17=part18=part19=\
    part20=part21=part22=part23=part24=part25=part26=part27=part28=part29=\
    part30=part31=\
    warn_blocks=\
    at_bc0=at_te=at_resync=at_hard=at_ec0=at_oc0=at_start=at_stop=at_gap=at_wte=at_cal=\
    crossings=orbit=bc_errors=holder=\
    ptc=state=requested=accepted=lost_state=lost_slot=lost_gap=lost_cal=lost_throttle=\
    lost_r1=lost_r2=lost_r3=lost_r4=\
    cal_requested=cal_accepted=cal_lost=events=";

// Where each key begins, and where the last ends.
static STARTS: [usize; 182] = [
    0, 8, 14, 22, 31, 38, 48, 56, 63, 73, 81, 88, 98, 106, 113, 125, 136, 150, 162, 177, 190, 196,
    202, 208, 214, 220, 226, 232, 238, 246, 253, 264, 273, 281, 289, 299, 308, 316, 324, 332, 340,
    347, 358, 367, 375, 383, 393, 402, 410, 418, 426, 434, 441, 452, 461, 469, 477, 487, 496, 504,
    512, 520, 528, 535, 546, 555, 563, 571, 581, 590, 598, 606, 614, 622, 629, 640, 649, 657, 665,
    675, 684, 692, 700, 708, 716, 723, 734, 743, 751, 759, 769, 778, 786, 794, 802, 810, 817, 828,
    837, 845, 853, 863, 872, 880, 888, 896, 904, 911, 922, 931, 939, 947, 957, 966, 974, 982, 990,
    996, 1002, 1008, 1014, 1020, 1026, 1032, 1038, 1044, 1050, 1057, 1064, 1071, 1078, 1085, 1092,
    1099, 1106, 1113, 1120, 1127, 1134, 1141, 1148, 1155, 1162, 1169, 1176, 1183, 1190, 1197, 1204,
    1216, 1223, 1229, 1239, 1247, 1254, 1261, 1270, 1278, 1285, 1292, 1299, 1309, 1315, 1325, 1332,
    1336, 1342, 1352, 1361, 1372, 1382, 1391, 1400, 1414, 1422, 1430, 1438, 1446, 1460, 1473, 1482,
    1489,
];

// Key n with its `=`.
fn key(n: usize) -> &'static [u8]
    requires { n < key_count }
    ensures { result.now ≡ line_head (key_at n) }
{
    &KEYS[STARTS[n]..STARTS[n + 1]]
}

// Whether the text begins with key n and its `=`.
pub fn begins(text: &[u8], n: usize) -> bool
    requires { n < key_count }
    ensures { result ≡ starts (line_head (key_at n)) text.now }
{
    text::starts_with(text, 0, key(n))
}

// Reads the line of key n at a place of the text.
pub fn read_line(
    text: &[u8],
    at: usize,
    n: usize,
    range: text::Range,
) -> Result<(u32, usize), text::LineFault>
    requires { (n < key_count) × (at ≤ length text.now) × (0 < range.digits) × (range.digits ≤ 8) }
    ensures { LineIs text.now at (line_head (key_at n)) range result }
{
    text::read_line(text, at, key(n), range)
}

// Lays the line of key n into the buffer, and answers the place after it.
pub fn put_line(out: &mut [u8], at: usize, n: usize, v: u64) -> usize
    requires { (n < key_count) × (at + length (line_text (line_head (key_at n)) v) ≤ length out.old) }
    ensures { (result ≡ at + length (line_text (line_head (key_at n)) v)) × (out.new ≡ put out.old at (line_text (line_head (key_at n)) v)) }
{
    text::put_line(out, at, key(n), v)
}

// How long that line is.
#[tactic(auto, using(crate::proofs::Parts::short, text::proofs::Decimal::digits_most, text::proofs::Rows::row_length))]
pub fn line_length(n: usize, v: u64) -> usize
    requires { n < key_count }
    ensures { (result ≡ length (line_text (line_head (key_at n)) v)) × (result ≤ line_most) }
{
    key(n).len() + text::width(v) + 1
}

// Lays the lines of the keys from `first` on, one for each value, and answers the place after them.
#[tactic(auto, using(crate::proofs::Writing::line_after_line))]
pub fn put_lines(out: &mut [u8], at: usize, first: usize, values: &[u64]) -> usize
    requires { (first + length values.now ≤ key_count) × (at + length (lines_text (drop first keys) values.now) ≤ length out.old) }
    ensures { (result ≡ at + length (lines_text (drop first keys) values.now)) × (out.new ≡ put out.old at (lines_text (drop first keys) values.now)) }
{
    let mut place = at;
    for (n, value) in values.iter().enumerate() {
        place = put_line(out, place, first + n, *value);
    }
    place
}

// How long those lines are.
#[tactic(auto, using(crate::proofs::Writing::line_after_line))]
pub fn lines_length(first: usize, values: &[u64]) -> usize
    requires { first + length values.now ≤ key_count }
    ensures { (result ≡ length (lines_text (drop first keys) values.now)) × (result ≤ line_most * length values.now) }
{
    let mut sum = 0;
    for (n, value) in values.iter().enumerate() {
        sum += line_length(first + n, *value);
    }
    sum
}
