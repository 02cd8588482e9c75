// The settings text, read in any edition that the desk knows and written in the newest (documents 01, "Settings text", and 02, P2 and P3).
#![tactic(auto)]

mod tables;

ghost use Rattle.std.specs.Prelude.{◌≡◌, length};
ghost use Rattle.answer.specs.Told.{told_refusal};
ghost use Rattle.editions.specs.Read.{edition_of, read_text, read_out};
ghost use Rattle.editions.specs.Write.{text_of, numbers_of, written, write_out};
ghost use Rattle.editions.specs.Support.Tables.{number_opened};
ghost use Rattle.editions.specs.Support.Got.{fault_at, GotIs, outcome};

use answer::{Answer, Refusal};
use settings::Settings;
use tables::Edition;
use text::LineFault;

// What a text was read as. A refused reading gives the standard values.
#[derive(Clone, Copy)]
pub struct Read {
    pub answer: Answer,
    pub settings: Settings,
}

// The edition that the first line opens.
#[tactic(auto, using(crate::proofs::Opening::opens))]
fn edition_of(text: &[u8]) -> Option<Edition>
    ensures { number_opened result ≡ edition_of text.now }
{
    if keys::begins(text, 1) {
        return Some(Edition::First);
    }
    match keys::read_line(text, 0, 0, keys::range(0)) {
        Ok((2, _)) => Some(Edition::Second),
        Ok((3, _)) => Some(Edition::Third),
        _ => None,
    }
}

fn refused(fault: LineFault, line: usize) -> Refusal
    ensures { told_refusal result ≡ fault_at line fault }
{
    match fault {
        LineFault::Ill => Refusal::Text(line),
        LineFault::Out => Refusal::Range(line),
    }
}

// The numbers of as many lines as the edition has. The first faulty line decides, then the tail.
fn read_lines(text: &[u8], edition: Edition) -> Result<[u32; 149], Refusal>
    ensures { GotIs edition text.now result }
{
    let lines = edition.count();
    let mut numbers = [0; 149];
    let mut at = 0;
    for n in 0..lines {
        let place = edition.place(n);
        let line = keys::read_line(text, at, place, keys::range(place));
        (numbers[n], at) = line.map_err(|fault| refused(fault, n + 1))?;
    }
    let has_tail = at < text.len();
    if has_tail {
        return Err(Refusal::Text(lines + 1));
    }
    Ok(numbers)
}

// Text that stopped triggers under warning gets low limits of 0, which do the same.
#[tactic(auto, using(crate::proofs::Reading::reading))]
fn read_settings(text: &[u8]) -> Result<Settings, Refusal>
    ensures { outcome result ≡ read_text text.now }
{
    let edition = edition_of(text).ok_or(Refusal::Text(1))?;
    let numbers = read_lines(text, edition)?;
    let own = edition.laid_out(&numbers);
    own.test_relations()?;
    let stopped = edition.stops(&numbers);
    Ok(if stopped { own.lows_cleared() } else { own })
}

// Any bytes at all. The first line decides the edition, then the first faulty line, the tail and the relations decide.
pub fn read_text(text: &[u8]) -> Read
    ensures { read_out result ≡ read_text text.now }
{
    match read_settings(text) {
        Ok(settings) => Read {
            answer: Ok(()),
            settings,
        },
        Err(refusal) => Read {
            answer: Err(refusal),
            settings: Settings::standard(),
        },
    }
}

// The numbers of the newest edition's lines: the edition itself, then the values.
fn numbers_of(s: &Settings) -> [u64; 148]
    ensures { result ≡ numbers_of s.now }
{
    let mut numbers = [3; 148];
    for (n, value) in s.values.iter().enumerate() {
        numbers[n + 1] = u64::from(*value);
    }
    numbers
}

// How long the text is.
#[tactic(auto, using(crate::proofs::Writing::writing))]
pub fn text_length(s: &Settings) -> usize
    ensures { result ≡ length (text_of s.now) }
{
    keys::lines_length(0, &numbers_of(s))
}

// RANGE, RELATION, ROOM; then the text, and later bytes stay.
#[tactic(auto, using(crate::proofs::Writing::writing))]
pub fn write_text(s: &Settings, out: &mut [u8]) -> Answer
    ensures { write_out result out.new ≡ written s.now out.old }
{
    s.check()?;
    let numbers = numbers_of(s);
    let need = keys::lines_length(0, &numbers);
    if out.len() < need {
        return Err(Refusal::Room(need));
    }
    keys::put_lines(out, 0, 0, &numbers);
    Ok(())
}
