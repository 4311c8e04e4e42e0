// An answer as one number for C and Rust: a refusal's number in the high half and its place in the low half; accepted, the high half is 0.
// A cursor goes in and comes back as a number.
#![tactic(auto)]

ghost use Rattle.std.specs.Prelude.{◌≡◌};
ghost use Rattle.hbc_io.specs.Answers.{says_moved};
ghost use Rattle.hbc_c_code.specs.Code.{code_of};
ghost use Rattle.hbc_c_code.specs.Told.{Moves};

use hbc_io::{Moved, Refusal, Stopped};

pub fn code(r: Refusal) -> u64
    ensures { result ≡ code_of r }
{
    (r.number as u64) * 0x1_0000_0000 + (r.place as u64)
}

// A refusal at a cursor: where it leaves the cursor, and its number.
pub fn refused(stopped: Stopped, at: &mut usize) -> u64
    ensures { (result ≡ code_of stopped.refusal) × (at.new ≡ stopped.cursor.at) }
{
    *at = stopped.cursor.at;
    code(stopped.refusal)
}

// Where a move leaves the cursor, and 0 or the refusal.
pub fn moved(answer: Moved, at: &mut usize) -> u64
    ensures { Moves (says_moved answer) result at.new }
{
    match answer {
        Ok(next) => {
            *at = next.at;
            0
        }
        Err(stopped) => refused(stopped, at),
    }
}
