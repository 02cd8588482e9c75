// The row of a crossing and the row of a command, and the writer of one row.
ghost use Rattle.std.specs.Prelude.{◌≡◌, ◌++◌, true, ◌+◌, ◌*◌, ◌<◌, ◌≤◌, ltb, length, drop};
ghost use Rattle.laws.specs.Base.{all_b};
ghost use Rattle.records.specs.Rows.{row_byte, crossing_row, command_row, carries};

use crate::ROW;

// What a controller's byte says: its code, a request sent, a calibration trigger sent.
#[tactic(auto, unfolding(crate::specs::Rows::row_byte))]
pub fn row_byte(code: u8, sent: bool, cal: bool) -> u8
    requires { code < 16 }
    ensures { result ≡ row_byte code sent cal }
{
    code + (16 * u8::from(sent) + 32 * u8::from(cal))
}

// The even controller has the low nibble.
fn pair(even: u8, odd: u8) -> u8
    requires even { even < 16 }
    requires odd { odd < 16 }
    ensures { result ≡ even + 16 * odd }
{
    even + 16 * odd
}

#[tactic(auto, using(crate::proofs::Laws::code_at, crate::proofs::Laws::row_made))]
pub fn crossing_row(bytes: [u8; 8], shown: [u8; 8]) -> [u8; ROW]
    requires { all_b (λ s. ltb s 16) shown ≡ true }
    ensures { result ≡ crossing_row bytes shown }
{
    [
        bytes[0],
        bytes[1],
        bytes[2],
        bytes[3],
        bytes[4],
        bytes[5],
        bytes[6],
        bytes[7],
        pair(shown[0], shown[1]),
        pair(shown[2], shown[3]),
        pair(shown[4], shown[5]),
        pair(shown[6], shown[7]),
    ]
}

#[tactic(auto, unfolding(crate::specs::Rows::command_row))]
pub fn command_row(taken: bool) -> [u8; ROW]
    ensures { result ≡ command_row taken }
{
    let mut row = [0; ROW];
    row[0] = if taken { 0xF0 } else { 0xF1 };
    row
}

// Writes one row where the lent part begins, and leaves the bytes after it. `copy_from_slice` would first test whether the two overlap.
pub fn put_row(rows: &mut [u8], row: [u8; ROW])
    requires { 12 ≤ length rows.old }
    ensures { rows.new ≡ row ++ drop 12 rows.old }
{
    for (k, byte) in row.iter().enumerate() {
        rows[k] = *byte;
    }
}

// Whether a crossing carried a trigger, by the bytes of its row.
pub fn carries(bytes: [u8; 8]) -> bool
    ensures { result ≡ carries bytes }
{
    bytes.iter().any(|b| *b >= 16)
}
