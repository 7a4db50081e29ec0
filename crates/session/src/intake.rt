ghost use Rattle.std.specs.Prelude.{◌≡◌, IfOk};
ghost use Rattle.session.specs.Intake.{taken_in, is_whole};

use lexer::LONGEST_LINE;
use std::alloc::AllocError;

/// Takes in one byte of an input; answers whether it ends a line, which `line` then holds. Of a line that
/// is too long, one byte more than is allowed is kept, and the rest let go.
/// The answer is a flag, and the line is not handed out, because the caller keeps its room for the next line.
pub fn take_in(line: &mut Vec<u8>, b: u8) -> Result<bool, AllocError>
    ensures { IfOk result (λ whole. (whole ≡ is_whole b) × (line.new.items ≡ taken_in line.old.items b)) }
{
    if b == b'\n' {
        return Ok(true);
    }
    if line.len() <= LONGEST_LINE {
        line.push(b)?;
    }
    Ok(false)
}
