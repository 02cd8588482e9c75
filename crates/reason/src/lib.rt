// What is told of an answer, as lines: its number, the values that it carries, and for a log the block that is refused.
#![tactic(auto)]

ghost use Rattle.std.specs.Prelude.{◌≡◌, [], ◌∷◌, ◌+◌, ◌≤◌, length};
ghost use Rattle.answer.specs.Told.{told};
ghost use Rattle.text.specs.Bytes.{put};
ghost use Rattle.reason.specs.Reason.{carries_text, answer_text, block_text};
ghost use Rattle.reason.specs.Support.Room.{value_most, answer_most, block_most};

use answer::{Answer, Refusal};

// Lays the line of one value from a place on, and answers the place after it.
#[tactic(auto, using(crate::proofs::Laws::value_line), unfolding(text::specs::Bytes::bytes))]
fn put_value(out: &mut [u8], at: usize, value: usize) -> usize
    requires { at + value_most ≤ length out.old }
    ensures { (result ≡ at + length (carries_text (value ∷ []))) × (out.new ≡ put out.old at (carries_text (value ∷ []))) × (result ≤ at + value_most) }
{
    text::put_line(out, at, b"carries=", value as u64)
}

// Lays an answer's lines at the front of the buffer, and answers their length.
#[tactic(auto, using(crate::proofs::Laws::answer_lines), unfolding(text::specs::Bytes::bytes))]
pub fn put_answer(out: &mut [u8], a: Answer) -> usize
    requires { answer_most ≤ length out.old }
    ensures { (result ≡ length (answer_text (told a))) × (out.new ≡ put out.old 0 (answer_text (told a))) × (result ≤ answer_most) }
{
    let at = text::put_line(out, 0, b"answer=", answer::number(a));
    match a {
        Err(Refusal::Relation(which, controller)) => {
            let next = put_value(out, at, which);
            put_value(out, next, controller)
        }
        Err(
            Refusal::Text(value)
            | Refusal::Range(value)
            | Refusal::Room(value)
            | Refusal::Record(value),
        ) => put_value(out, at, value),
        Ok(()) | Err(Refusal::Board | Refusal::Length | Refusal::Life | Refusal::Store) => at,
    }
}

// Lays the line of a block's number from a place on, and answers the place after it.
#[tactic(auto, using(crate::proofs::Laws::block_line), unfolding(text::specs::Bytes::bytes))]
pub fn put_block(out: &mut [u8], at: usize, block: u64) -> usize
    requires { at + block_most ≤ length out.old }
    ensures { (result ≡ at + length (block_text block)) × (out.new ≡ put out.old at (block_text block)) × (result ≤ at + block_most) }
{
    text::put_line(out, at, b"block=", block)
}
