//! Runs scenarios: from standard input, or each file that is named.
#![tactic(auto)]

ghost use Rattle.std.specs.Prelude.{◌≡◌, [], OnOk};

use session::{Session, take_in};
use std::env;
use std::fs::File;
use std::io::{BufRead, BufReader, Read};
use std::process::ExitCode;

// Prints what a line prints, before the next one is read, and makes room for that one.
fn run_line(rt: &HostRuntime, session: &mut Session, line: &mut Vec<u8>) -> anyhow::Result<()>
    ensures { OnOk result (line.new.items ≡ []) }
{
    let mut out = Vec::new(rt.alloc());
    session.run(line.as_slice(), &mut out)?;
    rt.write_all(out.as_slice())?;
    line.clear();
    Ok(())
}

// Takes in a piece of an input, and runs each line that it ends.
fn run_piece(
    rt: &HostRuntime,
    session: &mut Session,
    line: &mut Vec<u8>,
    piece: &[u8],
) -> anyhow::Result<()> {
    for b in piece {
        if take_in(line, *b)? {
            run_line(rt, session, line)?;
        }
    }
    Ok(())
}

// Runs an input to its end, and tells whether a line was bad. It goes piece by piece through what the reader
// holds, since its `lines` would hold a line of any length whole, and its `bytes` ask it anew for each byte.
fn run_input<R: Read + Drop>(rt: &HostRuntime, input: R) -> anyhow::Result<bool> {
    let mut session = Session::new();
    let mut line = Vec::new(rt.alloc());
    let mut input = BufReader::new(rt.alloc(), input)?;
    for _ in 0..u64::MAX {
        let piece = input.fill_buf()?;
        if piece.is_empty() {
            break;
        }
        run_piece(rt, &mut session, &mut line, piece)?;
        let len = piece.len();
        input.consume(len);
    }
    if !line.is_empty() {
        run_line(rt, &mut session, &mut line)?;
    }
    Ok(session.bad)
}

fn run_file(rt: &HostRuntime, name: &str) -> anyhow::Result<bool> {
    println!(rt; "== {name}")?;
    run_input(rt, File::open(rt, name)?)
}

fn run_all(rt: &HostRuntime) -> anyhow::Result<bool> {
    let mut names = env::args(rt)?.skip(1).peekable();
    if names.peek().is_none() {
        return run_input(rt, rt.stdin());
    }
    let mut bad = false;
    for name in names {
        bad |= run_file(rt, name.as_str())?;
    }
    Ok(bad)
}

fn main(rt: HostRuntime) -> anyhow::Result<ExitCode> {
    let bad = run_all(&rt)?;
    Ok(if bad {
        ExitCode::FAILURE
    } else {
        ExitCode::SUCCESS
    })
}
