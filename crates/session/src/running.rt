ghost use Rattle.std.specs.Prelude.{◌≡◌, false, [], ◌∷◌, ◌++◌, Decides};
ghost use Rattle.scenario.specs.Steps.{meaning_of, check};
ghost use Rattle.session.specs.Printed.{Wrote};
ghost use Rattle.session.specs.Runs.{Readable, Echoed, Refused, Performed, Ran};

use crate::answers::{put_bad, put_check, put_header, put_integer};
use lexer::{BadLine, Fault, LONGEST_LINE, is_text, uncommented};
use payload_text::payload;
use scenario::{Step, read_step};
use std::alloc::AllocError;

/// What lasts from line to line.
#[derive(Clone, Copy, Debug, Default, PartialEq, Eq)]
pub struct Session {
    /// Whether each line is printed first.
    pub echo: bool,
    /// The number of the last line that was run.
    pub number: u64,
    /// Whether a line was bad.
    pub bad: bool,
}

fn put_line(out: &mut Vec<u8>, text: &[u8]) -> Result<(), AllocError>
    ensures { Wrote out.old.items result (text.now ++ (10 ∷ [])) out.new.items }
{
    out.extend_from_slice(text)?;
    out.extend_from_slice(b"\n")
}

// Whether a line is text, and not too long: told here and by `read_step`, and by no type, because both answer
// for any bytes.
fn is_readable(line: &[u8]) -> bool
    ensures { Decides result (Readable line.now) }
{
    line.len() <= LONGEST_LINE && is_text(line)
}

impl Session {
    pub fn new() -> Session
        ensures { result ≡ record { echo = false; number = 0; bad = false } }
    {
        Session::default()
    }

    // A line that can be read is printed first, without its comment, where lines are to be printed.
    fn put_echo(&self, line: &[u8], out: &mut Vec<u8>) -> Result<(), AllocError>
        ensures { Echoed self.now.echo line.now out.old.items result out.new.items }
    {
        let body = uncommented(line);
        if !self.echo || !is_readable(line) || body.is_empty() {
            return Ok(());
        }
        out.extend_from_slice(b"> ")?;
        put_line(out, body)
    }

    // What a text of this line that could not be read prints and leaves.
    fn refuse(&mut self, bad: BadLine, text: &[u8], out: &mut Vec<u8>) -> Result<(), AllocError>
        ensures { Refused self.old bad text.now out.old.items result out.new.items self.new }
    {
        self.bad = true;
        put_bad(out, self.number, bad, text)
    }

    // The verdict on a payload that is written as text.
    fn check(&mut self, text: &[u8], out: &mut Vec<u8>) -> Result<(), AllocError>
        ensures { Performed self.old (check text.now) out.old.items result out.new.items self.new }
    {
        match payload(*out.allocator(), text) {
            Ok(bytes) => put_check(out, bytes.as_slice()),
            Err(Fault::Wrong(bad)) => self.refuse(bad, text, out),
            Err(Fault::NoMemory(e)) => Err(e),
        }
    }

    // What a step prints and leaves.
    fn perform(&mut self, step: Step<'_>, out: &mut Vec<u8>) -> Result<(), AllocError>
        ensures { Performed self.old (meaning_of step.entry) out.old.items result out.new.items self.new }
    {
        match step {
            Step::Blank => Ok(()),
            Step::Echo(on) => {
                self.echo = on;
                Ok(())
            }
            Step::Say(text) => put_line(out, text),
            Step::Check(text) => self.check(text, out),
            Step::Header { tag, len } => put_header(out, tag, len as usize),
            Step::Integer(n) => put_integer(out, n),
        }
    }

    /// Runs a line, and appends what it prints to `out`.
    #[tactic(auto, using(crate::proofs::Runnings::ran))]
    pub fn run(&mut self, line: &[u8], out: &mut Vec<u8>) -> Result<(), AllocError>
        ensures { Ran self.old line.now out.old.items result out.new.items self.new }
    {
        self.number = self.number.saturating_add(1);
        self.put_echo(line, out)?;
        match read_step(line) {
            Ok(step) => self.perform(step, out),
            Err(bad) => self.refuse(bad, uncommented(line), out),
        }
    }
}
