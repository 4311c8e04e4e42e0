// The row of a string: four words, by name, and where it stands in the lent rows.
ghost use Rattle.std.specs.Prelude.{ℕ, ◌≡◌, true, cond, ◌≤◌, ◌<◌, ◌^◌};
ghost use Rattle.hbc_rows.specs.Rows.{put_row};
ghost use Rattle.hbc_table_strings.specs.Entries.{pair_taken};
ghost use Rattle.hbc_table_strings.specs.Row.{string_width, string_words, valid, invalid, row_for, row_with};

use crate::Mode;
use crate::entries::{bytes_of, entry_of, utf16};
use hbc_rows::put_row;

// Start and byte length in the storage, both 0 if invalid; 0 valid or 1 invalid; marks, 1 UTF-16 and 2 identifier.
#[derive(Clone, Copy)]
pub struct StringRow {
    pub start: u32,
    pub bytes: u32,
    pub invalid: u32,
    pub marks: u32,
}

pub(crate) fn put_string(rows: &mut [u32], k: usize, row: StringRow)
    ensures { rows.new ≡ put_row string_width rows.old k (string_words row) }
{
    let words = [row.start, row.bytes, row.invalid, row.marks];
    put_row(rows, k, &words);
}

// Whether a string lies in the storage, by where it starts and its bytes.
#[tactic(auto, unfolding(crate::specs::Row::row_for))]
pub(crate) fn is_inside(start: u32, bytes: usize, storage: usize) -> bool
    requires { bytes < 2 ^ 33 }
    ensures fits { result ≡ true → bytes ≤ storage }
    ensures row { (marks : ℕ) → row_for start bytes marks storage ≡ cond result (valid start bytes marks) (invalid marks) }
{
    let from = start as usize;
    if from < storage {
        return from + bytes <= storage;
    }
    false
}

// That a storage is so small is said of a number in three functions, one behind the other: a type of it would be taken apart where it is made.
fn row_for(start: u32, bytes: usize, marks: u32, storage: usize) -> StringRow
    requires { (storage ≤ 2 ^ 30) × (bytes < 2 ^ 33) }
    ensures { result ≡ row_for start bytes marks storage }
{
    if is_inside(start, bytes, storage) {
        return StringRow {
            start,
            bytes: bytes as u32,
            invalid: 0,
            marks,
        };
    }
    StringRow {
        start: 0,
        bytes: 0,
        invalid: 1,
        marks,
    }
}

#[tactic(auto, unfolding(crate::specs::Row::row_with))]
pub(crate) fn row_with(
    mode: Mode,
    raw: u32,
    kind: u32,
    overflow: &[u32],
    taken: usize,
    storage: usize,
) -> StringRow
    requires { (storage ≤ 2 ^ 30) × (kind < 2) }
    ensures { result ≡ row_with raw kind overflow.now (pair_taken mode raw taken) storage }
{
    let e = entry_of(mode, raw, overflow, taken);
    let bytes = bytes_of(raw, e.units);
    let marks = utf16(raw) + 2 * kind;
    row_for(e.start, bytes, marks, storage)
}
