// How a program ends: what it prints of a refusal or an error, and its status, 0, 1 or 2.
#![tactic(auto)]

mod cause;

ghost use Rattle.std.specs.Prelude.{◌≡◌, is_ok, is_some, not};
ghost use Rattle.std.specs.Process.{exit_status};
ghost use Rattle.laws.specs.Base.{if};
ghost use Rattle.answer.specs.Told.{told};
ghost use Rattle.ending.specs.Ends.{over, accepted_of};

use answer::Answer;
pub use cause::Stop;
use std::io::{Cursor, Error, Write};
use std::process::ExitCode;
use std::{fmt, io, str};

// An error in the system's own words: std has the error's number behind them.
#[derive(Clone, Copy)]
struct Words(Error);

impl fmt::Display for Words {
    fn fmt<W: fmt::Write>(&self, f: &mut fmt::Formatter<W>) -> fmt::Result {
        let error = self.0;
        let mut line = Cursor::new([0u8; 128]);
        let _ = write!(line, "{error}");
        let bytes = line.into_inner();
        let Ok(line) = str::from_utf8(&bytes) else {
            return write!(f, "{error}");
        };
        let text = line.trim_end_matches('\0');
        match text.split_once(" (os error ") {
            Some((words, _)) => f.write_str(words),
            None => f.write_str(text),
        }
    }
}

// What a caller says, as it is where it is text: standard error takes text alone.
#[derive(Clone, Copy)]
struct Said<'a>(&'a [u8]);

impl fmt::Display for Said<'_> {
    fn fmt<W: fmt::Write>(&self, f: &mut fmt::Formatter<W>) -> fmt::Result {
        if let Ok(text) = str::from_utf8(self.0) {
            return f.write_str(text);
        }
        for byte in self.0 {
            f.write_char(char::from(*byte))?;
        }
        Ok(())
    }
}

// The status of a program that has written all, or the error that kept it from that. No contract can say what is printed.
pub fn finish(rt: &impl Eprint, written: io::Result<()>) -> ExitCode
    ensures { exit_status result ≡ if (is_ok written) 0 1 }
{
    match written {
        Ok(()) => ExitCode::SUCCESS,
        Err(error) => stop(rt, b"standard output", error),
    }
}

// An error of the system's, after what it was about. No contract can say what is printed.
pub fn stop(rt: &impl Eprint, what: &[u8], error: Error) -> ExitCode
    ensures { exit_status result ≡ 1 }
{
    let what = Said(what);
    let words = Words(error);
    let _ = eprintln!(rt; "{what}: {words}");
    ExitCode::FAILURE
}

// An error that no call of the system has told. No contract can say what is printed.
pub fn complain(rt: &impl Eprint, line: &[u8]) -> ExitCode
    ensures { exit_status result ≡ 1 }
{
    let _ = rt.eprint(Said(line));
    ExitCode::FAILURE
}

// Words that a program was called with and cannot use. No contract can say what is printed.
pub fn misuse(rt: &impl Eprint, line: &[u8]) -> ExitCode
    ensures { exit_status result ≡ 2 }
{
    let _ = rt.eprint(Said(line));
    ExitCode::from(2)
}

// No contract can say what is printed.
pub fn refuse(rt: &(impl Print + Eprint), a: Answer) -> ExitCode
    ensures { exit_status result ≡ 1 }
{
    let number = answer::number(a);
    match println!(rt; "refused={number}") {
        Ok(()) => ExitCode::FAILURE,
        Err(error) => stop(rt, b"standard output", error),
    }
}

// The status of a program that ended so. No contract can say what is printed.
pub fn end(rt: &(impl Print + Eprint), ended: Result<(), Stop<'_>>) -> ExitCode
    ensures { exit_status result ≡ if (is_ok ended.entry) 0 1 }
{
    let Err(why) = ended else {
        return ExitCode::SUCCESS;
    };
    match why {
        Stop::At(file, error) => stop(rt, file, error),
        Stop::Refused(refusal) => refuse(rt, Err(refusal)),
    }
}

// What became of reading a file: an error in reading is told before what the file's bytes were answered.
pub fn accepted<'a>(file: &'a [u8], failed: Option<Error>, a: Answer) -> Result<(), Stop<'a>>
    ensures whole { result ≡ accepted_of file.entry failed a }
    ensures goes_on { is_ok result ≡ not (over (is_some failed) (told a)) }
{
    if let Some(error) = failed {
        return Err(Stop::At(file, error));
    }
    a?;
    Ok(())
}
