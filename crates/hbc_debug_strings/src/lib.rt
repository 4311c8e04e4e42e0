// The strings of the debug section: length-prefixed, one after the other until one fails.
#![tactic(auto)]

ghost use Rattle.std.specs.Prelude.{◌≡◌, ◌+◌, ◌≤◌, length};
ghost use Rattle.std.proofs.lemmas.List.Edits.{sets};
ghost use Rattle.hbc_io.specs.Outcome.{limit};
ghost use Rattle.hbc_io.specs.Answers.{answered};
ghost use Rattle.hbc_io_leb.specs.Numbers.{exact};
ghost use Rattle.hbc_debug_parts.specs.Along.{every};
ghost use Rattle.hbc_debug_strings.specs.Strings.{strings_of, part_to_file, string_words, count_strings, WriteStrings};
ghost use Rattle.hbc_debug_strings.specs.Strings.{prefix_number, string_numbers};

use hbc_debug_parts::InFile;
use hbc_io::{Cursor, LIMIT, Reason, Refusal, refuse};
use hbc_io_leb::read_uleb128;
use hbc_io_strings::read_length_prefixed_string;
use hbc_rows::put_words;

// The words of a string's row: start in the file, byte length.
pub const STRING_WORDS: usize = 2;

// What the counting pass found: how many, and whether every number that it read was exact.
#[derive(Clone, Copy)]
pub struct StringCount {
    pub strings: usize,
    pub exact: bool,
}

// Whether the length of a string that failed is exact, if it was read: once for a part, so that the loop stays short.
#[tactic(auto, using(crate::proofs::Marks::length_mark, crate::proofs::Marks::no_length))]
fn length_exact(s: &[u8], c: Cursor) -> bool
    ensures { result ≡ every exact (prefix_number s.now c) }
{
    match read_uleb128(s, c) {
        Ok((n, _)) => n.exact,
        Err(_) => true,
    }
}

fn count(part: &[u8]) -> StringCount
    ensures strings_value { result.strings ≡ length (strings_of part.now) }
    ensures exact_value { result.exact ≡ every exact (string_numbers part.now) }
{
    let mut here = Cursor { at: 0 };
    let mut kept = true;
    for n in 0..part.len() {
        let Ok((string, next)) = read_length_prefixed_string(part, here) else {
            return StringCount {
                strings: n,
                exact: kept & length_exact(part, here),
            };
        };
        kept &= string.exact;
        here = next;
    }
    StringCount {
        strings: part.len(),
        exact: kept,
    }
}

// A place counted from the part's first byte, in the file.
fn part_to_file(base: InFile, at: usize) -> InFile
    requires { base.0 + at ≤ limit }
    ensures { result ≡ part_to_file base at }
{
    InFile(base.0 + at)
}

fn write_rows(part: &[u8], base: InFile, rows: &mut [u32])
    requires { base.0 + length part.now ≤ limit }
    ensures { rows.new ≡ sets rows.old 0 (string_words base (strings_of part.now)) }
{
    let mut here = Cursor { at: 0 };
    for n in 0..part.len() {
        let Ok((string, next)) = read_length_prefixed_string(part, here) else {
            return;
        };
        let start = part_to_file(base, string.span.start);
        let row = [start.0 as u32, string.span.len as u32];
        put_words(rows, STRING_WORDS * n, &row);
        here = next;
    }
}

// How many strings a part has, and whether every number that was read was exact.
#[tactic(auto, unfolding(crate::specs::Strings::count_strings, hbc_io::specs::Lends::below))]
pub fn count_strings(part: &[u8]) -> Result<StringCount, Refusal>
    ensures { answered result ≡ count_strings part.now }
{
    if LIMIT < part.len() {
        Err(refuse(Reason::TooLong as u32, 0))
    } else {
        Ok(count(part))
    }
}

// Writes a row for each of the first `count` strings, where `base` is the part's place in the file.
#[tactic(auto, unfolding(hbc_io::specs::Lends::below), using(hbc_debug_parts::proofs::Fronts::front_put))]
pub fn write_strings(
    part: &[u8],
    base: InFile,
    count: usize,
    rows: &mut [u32],
) -> Result<(), Refusal>
    ensures { WriteStrings part.now base count rows.old result rows.new }
{
    if LIMIT < part.len() || LIMIT - part.len() < base.0 {
        return Err(refuse(Reason::TooLong as u32, 0));
    }
    if rows.len() / STRING_WORDS < count {
        return Err(refuse(Reason::TooFewRows as u32, 0));
    }
    write_rows(part, base, &mut rows[0..count * STRING_WORDS]);
    Ok(())
}
