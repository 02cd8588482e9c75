// Salvages a log: reads `run.rec` of the folder that it is run in, of any length, one piece at a time, and writes `salvaged.rec` and
// `changes.txt` beside it, each under another name until both are whole. It prints nothing, and never writes `run.rec`.
#![tactic(auto)]

ghost use Rattle.std.specs.Prelude.{◌≤◌, length};
ghost use Rattle.desk_salvage.specs.Piece.{PieceDone};

use answer::Refusal;
use files::read_piece;
use salvage::{Lengths, salvage};
use std::fs::{OpenFile, OpenOptions};
use std::io::{Error, ErrorKind, Read, Write};
use std::process::ExitCode;
use std::rt::Files;
use std::{fs, io};

// The bytes of 256 records, how many those are, and the room for their changes, 1,248 bytes for each.
const PIECE: usize = 6144;

const RECORDS: u64 = 256;

// The pieces whose records have numbers.
const PIECES: u64 = 1 << 56;

const LIST: usize = 319488;

// The names under which the files are written.
const LOG_PART: &str = "salvaged.rec.part";

const LIST_PART: &str = "changes.txt.part";

// The files under those names, open for writing.
#[derive(Drop)]
struct Parts<F> {
    log: F,
    list: F,
}

// Why a salvage ended before its files were whole.
#[derive(Clone, Copy)]
enum Stop {
    // An error of the system's, after the name of the file that it was about.
    At(&'static str, Error),
    // The log has more records than there are numbers.
    Numbers,
}

// An error is told by the file's name.
fn or_stop<T>(went: io::Result<T>, what: &'static str) -> Result<T, Stop> {
    went.map_err(|error| Stop::At(what, error))
}

// A new file, whatever had the name before: so a link to another file is not followed.
fn open_part<R: Files>(rt: &R, name: &'static str) -> Result<R::File, Stop> {
    let _ = fs::remove_file(rt, name);
    let made = OpenOptions::new()
        .write(true)
        .create_new(true)
        .open(rt, name);
    or_stop(made, name)
}

fn write_part<F: Write>(file: &mut F, bytes: &[u8], name: &'static str) -> Result<(), Stop> {
    or_stop(file.write_all(bytes), name)
}

// A file is whole once the disk has it.
fn close_part<F: OpenFile + Drop>(file: F, name: &'static str) -> Result<(), Stop> {
    or_stop(file.sync_all(), name)
}

// A piece salvaged at the front of buffers that have room for every piece.
fn salvage_piece(
    first: u64,
    piece: &[u8],
    salvaged: &mut [u8],
    changes: &mut [u8],
) -> Result<Lengths, Refusal>
    requires { (length piece.now ≤ 6144) × (6144 ≤ length salvaged.old) × (319488 ≤ length changes.old) }
    ensures { PieceDone first piece.now result salvaged.new changes.new }
{
    salvage(first, piece, salvaged, changes)
}

// Salvages the log into the parts. A full piece more than the loop has turns would be refused: its records have no numbers.
fn go_through<R: Read, F: Write>(log: &mut Option<R>, parts: &mut Parts<F>) -> Result<(), Stop> {
    let mut piece = [0u8; PIECE];
    let mut salvaged = [0u8; PIECE];
    let mut changes = [0u8; LIST];
    for k in 0..PIECES {
        let first = RECORDS * k;
        let got = read_piece(log, &mut piece);
        let n = got.count;
        if let Some(error) = got.failed {
            return Err(Stop::At("run.rec", error));
        }
        let Ok(written) = salvage_piece(first, &piece[..n], &mut salvaged, &mut changes) else {
            return Err(Stop::Numbers);
        };
        write_part(&mut parts.log, &salvaged[..written.log], LOG_PART)?;
        write_part(&mut parts.list, &changes[..written.list], LIST_PART)?;
        if n < PIECE {
            return Ok(());
        }
    }
    Err(Stop::Numbers)
}

// Gives the parts their names, the log last; one without the other is taken back.
fn name_parts<R: Files>(rt: &R) -> Result<(), Stop> {
    or_stop(fs::rename(rt, LIST_PART, "changes.txt"), "changes.txt")?;
    let named = or_stop(fs::rename(rt, LOG_PART, "salvaged.rec"), "salvaged.rec");
    if named.is_err() {
        let _ = fs::remove_file(rt, "changes.txt");
    }
    named
}

fn salvage_to<R: Files>(rt: &R, mut parts: Parts<R::File>) -> Result<(), Stop> {
    let mut log = files::open(rt, "run.rec");
    go_through(&mut log, &mut parts)?;
    let Parts { log, list } = parts;
    close_part(log, LOG_PART)?;
    close_part(list, LIST_PART)?;
    name_parts(rt)
}

// Both parts are opened before anything is read.
fn salvage_files<R: Files>(rt: &R) -> Result<(), Stop> {
    let log = open_part(rt, LOG_PART)?;
    let list = open_part(rt, LIST_PART)?;
    salvage_to(rt, Parts { log, list })
}

fn main(rt: HostRuntime) -> ExitCode {
    let ended = salvage_files(&rt);
    if ended.is_err() {
        let _ = fs::remove_file(&rt, LOG_PART);
        let _ = fs::remove_file(&rt, LIST_PART);
    }
    match ended {
        Ok(()) => ExitCode::SUCCESS,
        Err(Stop::At(what, error)) => ending::stop(&rt, what.as_bytes(), error),
        Err(Stop::Numbers) => {
            ending::complain(&rt, b"run.rec: more records than there are numbers\n")
        }
    }
}
