// A file read piece by piece, of which an error in reading is never taken for the end.
#![tactic(auto)]

ghost use Rattle.std.specs.Prelude.{◌<◌, length, take, is_some, IsNone};
ghost use Rattle.std.specs.Io.KnownBytes.{Consumes, IsAtEnd};
ghost use Rattle.files.specs.Read.{ReadFrom, left};

use std::fs;
use std::io::{Error, Read};
use std::rt::Files;

// How many bytes were read, and the error of a read that failed after them. A read that a signal interrupts before it moves a byte has
// failed.
#[derive(Clone, Copy)]
pub struct Got {
    pub count: usize,
    pub failed: Option<Error>,
}

// A file of the folder that the program runs in, where it can be opened. No contract can say which can.
pub fn open<F: Files>(rt: &F, name: &str) -> Option<F::File> {
    fs::open(rt, name).ok()
}

// Reads until the piece is full or the file ends. A file that could not be opened, `None`, reads as empty.
pub fn read_piece<R: Read>(file: &mut Option<R>, piece: &mut [u8]) -> Got
    ensures within { ReadFrom (is_some file.old) piece.new result.«count» (is_some result.failed) }
    ensures bytes { Consumes (left R.remaining file.old) (left R.remaining file.new) (take result.«count» piece.new) }
    ensures end { IsNone result.failed → result.«count» < length piece.new → IsAtEnd (left R.remaining file.new) }
{
    let Some(file) = file else {
        return Got {
            count: 0,
            failed: None,
        };
    };
    let mut count = 0;
    while count < piece.len() {
        match file.read(&mut piece[count..]) {
            Ok(0) => break,
            Ok(more) => count += more,
            Err(error) => {
                return Got {
                    count,
                    failed: Some(error),
                };
            }
        }
    }
    Got {
        count,
        failed: None,
    }
}
