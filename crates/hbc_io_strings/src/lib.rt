// Strings as spans of the input, after io.rs: ended by a zero byte, or with their length in front.
#![tactic(auto)]

ghost use Rattle.std.specs.Prelude.{◌≡◌};
ghost use Rattle.hbc_io.specs.Answers.{says};
ghost use Rattle.hbc_io_strings.specs.Strings.{zero_ended, marked_at};

use hbc_io::{Cursor, LIMIT, Read, Reason, Span, read_bytes, stop};
use hbc_io_leb::read_uleb128;

// A string, and whether the length in front of it is exact.
#[derive(Clone, Copy)]
pub struct Prefixed {
    pub span: Span,
    pub exact: bool,
}

#[tactic(auto, unfolding(crate::specs::Strings::zero_ended))]
pub fn read_cstring(s: &[u8], c: Cursor) -> Read<Span>
    ensures { says result ≡ zero_ended s.now c }
{
    let at = c.at;
    if LIMIT < s.len() {
        return Err(stop(Reason::TooLong, c));
    }
    if s.len() < at {
        return Err(stop(Reason::PastEnd, c));
    }
    for i in at..s.len() {
        if s[i] == 0 {
            let text = Span {
                start: at,
                len: i - at,
            };
            return Ok((text, Cursor { at: i + 1 }));
        }
    }
    Err(stop(Reason::NoZero, Cursor { at: s.len() }))
}

#[tactic(auto, unfolding(crate::specs::Strings::marked_at))]
pub fn read_length_prefixed_string(s: &[u8], c: Cursor) -> Read<Prefixed>
    ensures { says result ≡ marked_at s.now c }
{
    let (n, next) = read_uleb128(s, c)?;
    let (span, end) = read_bytes(s, next, n.value as usize)?;
    let string = Prefixed {
        span,
        exact: n.exact,
    };
    Ok((string, end))
}
