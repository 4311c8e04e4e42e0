// One string's text, by its row: UTF-8 of the part of the storage that the row names.
#![tactic(auto)]

ghost use Rattle.std.specs.Prelude.{◌≡◌, ◌+◌, ◌*◌, ◌≤◌, length};
ghost use Rattle.hbc_table_strings.specs.Row.{string_width};
ghost use Rattle.hbc_text.specs.StringText.{is_wide, StringText};

use hbc_io::{LIMIT, Reason, refuse};
use hbc_rows::word_of;
use hbc_table_bytes::string_bytes;
use hbc_table_strings::{STRING_MARKS, STRING_WIDTH};
use hbc_text_forms::Text;
use hbc_text_utf8::utf8_text;
use hbc_text_utf16::utf16_text;

// Whether row `index` is marked as UTF-16.
#[tactic(auto, using(crate::proofs::Laws::mark_is))]
fn is_wide(rows: &[u32], index: usize) -> bool
    requires { index * string_width + string_width ≤ length rows.now }
    ensures { result ≡ is_wide rows.now index }
{
    word_of(rows, index * STRING_WIDTH + STRING_MARKS) % 2 == 1
}

// Whether row `index` is there and marked as UTF-16.
#[tactic(auto, using(crate::proofs::Laws::mark_none))]
pub fn is_marked(rows: &[u32], index: usize) -> bool
    ensures { result ≡ is_wide rows.now index }
{
    if index < rows.len() / STRING_WIDTH {
        return is_wide(rows, index);
    }
    false
}

// The text in front of what is lent, whole or not at all.
#[tactic(auto, using(crate::proofs::Laws::too_long, crate::proofs::Laws::no_row))]
pub fn string_text(storage: &[u8], rows: &[u32], index: usize, out: &mut [u8]) -> Text
    ensures { StringText storage.now rows.now index out.old result out.new }
{
    if LIMIT < storage.len() {
        return Err(refuse(Reason::TooLong as u32, 0));
    }
    if rows.len() / STRING_WIDTH <= index {
        return Err(refuse(Reason::TooFewToRead as u32, 0));
    }
    let bytes = string_bytes(storage, rows, index);
    if is_wide(rows, index) {
        return utf16_text(bytes, out);
    }
    utf8_text(bytes, out)
}
