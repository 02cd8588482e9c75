// Lines of text: bytes compared, decimal numbers read and written, and lines `key=value` over a key and a range.
#![tactic(auto)]

ghost use Rattle.std.specs.Prelude.{◌≡◌, ◌+◌, ◌<◌, ◌≤◌, length, drop, IsTrue, SomeIff};
ghost use Rattle.text.specs.Bytes.{put, starts};
ghost use Rattle.text.specs.Decimal.{decimal};
ghost use Rattle.text.specs.Number.{is_digit, digit_of};
ghost use Rattle.text.specs.Lines.{line_text, within};
ghost use Rattle.text.specs.Support.Seen.{NumberIs, LineIs};

// The values that a line may have, and how many digits.
#[derive(Drop)]
pub struct Range {
    pub low: u32,
    pub high: u32,
    pub digits: usize,
}

// What a line may have wrong.
#[derive(Clone, Copy, PartialEq, Eq, Debug)]
pub enum LineFault {
    // Not of the form that a line has.
    Ill,
    // A number out of its range.
    Out,
}

impl Range {
    pub fn holds(self, v: u32) -> bool
        ensures { result ≡ within self v }
    {
        self.low <= v && v <= self.high
    }
}

// Whether the text at a place begins with the key.
#[tactic(auto, using(crate::proofs::Bytes::front_from))]
pub fn starts_with(text: &[u8], at: usize, key: &[u8]) -> bool
    requires { at ≤ length text.now }
    ensures { result ≡ starts key.now (drop at text.now) }
{
    text[at..].starts_with(key)
}

// The value of a digit.
fn digit(b: u8) -> Option<u32>
    ensures { SomeIff result (IsTrue (is_digit b)) (digit_of b) }
{
    match b {
        b'0'..=b'9' => Some(u32::from(b - b'0')),
        _ => None,
    }
}

// The number at a place, of at most `digits` digits, ended by a newline; and the place after that.
fn read_number(text: &[u8], at: usize, digits: usize) -> Option<(u32, usize)>
    requires { (at ≤ length text.now) × (0 < digits) × (digits ≤ 8) }
    ensures { NumberIs text.now at digits result }
{
    let first = *text.get(at)?;
    let mut v = digit(first)?;
    let mut left = if first == b'0' { 0 } else { digits - 1 };
    for i in at + 1..text.len() {
        let b = text[i];
        if b == b'\n' {
            return Some((v, i + 1));
        }
        if left == 0 {
            return None;
        }
        v = v * 10 + digit(b)?;
        left -= 1;
    }
    None
}

// The line at a place: `head`, a key with its `=`, then a number in range and the newline; and the place after that.
pub fn read_line(
    text: &[u8],
    at: usize,
    head: &[u8],
    range: Range,
) -> Result<(u32, usize), LineFault>
    requires { (at ≤ length text.now) × (0 < range.digits) × (range.digits ≤ 8) }
    ensures { LineIs text.now at head.now range result }
{
    if !starts_with(text, at, head) {
        return Err(LineFault::Ill);
    }
    let (v, next) = read_number(text, at + head.len(), range.digits).ok_or(LineFault::Ill)?;
    if !range.holds(v) {
        return Err(LineFault::Out);
    }
    Ok((v, next))
}

// How many digits a number has.
#[tactic(auto, using(crate::proofs::Decimal::digits_between, crate::proofs::Decimal::one_digit))]
pub fn width(n: u64) -> usize
    ensures { result ≡ length (decimal n) }
{
    n.checked_ilog10().unwrap_or(0) as usize + 1
}

// Lays bytes into the buffer, and answers the place after them.
#[tactic(auto, unfolding(crate::specs::Bytes::put))]
pub fn put_bytes(out: &mut [u8], at: usize, s: &[u8]) -> usize
    requires { at + length s.now ≤ length out.old }
    ensures { (result ≡ at + length s.now) × (out.new ≡ put out.old at s.now) }
{
    let end = at + s.len();
    out[at..end].copy_from_slice(s);
    end
}

// Lays a number's digits into the buffer, from the last to the first, and answers the place after them.
fn put_number(out: &mut [u8], at: usize, n: u64) -> usize
    requires { at + length (decimal n) ≤ length out.old }
    ensures { (result ≡ at + length (decimal n)) × (out.new ≡ put out.old at (decimal n)) }
{
    // Most numbers of a list of changes have one digit, for which there is nothing to divide.
    if n < 10 {
        out[at] = b'0' + n as u8;
        return at + 1;
    }
    let end = at + width(n);
    let mut rest = n;
    for p in (at..end).rev() {
        out[p] = b'0' + (rest % 10) as u8;
        rest /= 10;
    }
    end
}

// Lays a line into the buffer: `head`, a key with its `=`, the number and a newline. Answers the place after it.
#[tactic(auto, using(crate::proofs::Rows::row_length, crate::proofs::Rows::put_row))]
pub fn put_line(out: &mut [u8], at: usize, head: &[u8], n: u64) -> usize
    requires { at + length (line_text head.now n) ≤ length out.old }
    ensures { (result ≡ at + length (line_text head.now n)) × (out.new ≡ put out.old at (line_text head.now n)) }
{
    let digits = put_bytes(out, at, head);
    let newline = put_number(out, digits, n);
    put_bytes(out, newline, b"\n")
}
