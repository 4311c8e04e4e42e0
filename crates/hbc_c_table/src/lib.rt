// The calls of hbc_table, hbc_table_strings and hbc_table_bytes for C and Rust, each behind an export of hbc_c. The cursor goes in and comes back at `at`.
#![tactic(auto)]

ghost use Rattle.hbc_c_table.specs.Table.{ToldTable, ToldStrings, ToldPart};

use hbc_c_code::{code, moved};
use hbc_io::Cursor;
use hbc_table_strings::Mode;

pub fn read_u32_table(s: &[u8], at: &mut usize, count: u32, table: &mut [u32]) -> u64
    ensures { ToldTable 1 s.now at.old count table.old result at.new table.new }
{
    let answer = hbc_table::read_u32_table(s, Cursor { at: *at }, count, table);
    moved(answer, at)
}

pub fn read_pair_table(s: &[u8], at: &mut usize, count: u32, table: &mut [u32]) -> u64
    ensures { ToldTable 2 s.now at.old count table.old result at.new table.new }
{
    let answer = hbc_table::read_pair_table(s, Cursor { at: *at }, count, table);
    moved(answer, at)
}

// Accepted, the answer is the number of rows written. Each mode has an export of its own.
pub fn decode_strings(
    mode: Mode,
    count: u32,
    kinds: &[u32],
    small: &[u32],
    overflow: &[u32],
    storage: &[u8],
    rows: &mut [u32],
) -> u64
    ensures { ToldStrings mode count kinds.now small.now overflow.now storage.now rows.old
        result rows.new }
{
    match hbc_table_strings::decode_strings(mode, count, kinds, small, overflow, storage, rows) {
        Ok(n) => n as u64,
        Err(r) => code(r),
    }
}

// A part does not cross the boundary: the caller takes it out of the storage by its start and length.
pub fn string_bytes(storage: &[u8], rows: &[u32], index: usize, start: &mut usize, len: &mut usize)
    ensures { ToldPart storage.now rows.now index start.new len.new }
{
    let p = hbc_table_bytes::string_span(storage, rows, index);
    *start = p.start;
    *len = p.len;
}
