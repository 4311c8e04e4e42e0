// Tables of u32 and of pairs of u32, after table.rs: from a cursor into a table that the caller lends.
// A kind run is one u32, in the file as in the table, so that kind runs are read as a table of u32.
#![tactic(auto)]

ghost use Rattle.std.specs.Prelude.{◌≡◌, ◌+◌, ◌*◌, ◌^◌, ◌≤◌, ◌<◌, length};
ghost use Rattle.hbc_bits.specs.Bits.{le_at};
ghost use Rattle.hbc_rows.specs.Rows.{filled};
ghost use Rattle.hbc_table.specs.Table.{words_from, ReadWords, ReadTable};

use hbc_io::{Cursor, LIMIT, Moved, Reason, Stopped, refuse, stop};

// The u32 at a place whose four bytes are there. As a sum it is compiled to one load.
#[tactic(auto, using(crate::proofs::Laws::word_is))]
fn word(s: &[u8], at: usize) -> u32
    requires { at + 4 ≤ length s.now }
    ensures { result ≡ le_at s.now at 4 }
{
    u32::from(s[at])
        + 0x100
            * (u32::from(s[at + 1]) + 0x100 * (u32::from(s[at + 2]) + 0x100 * u32::from(s[at + 3])))
}

// The `n` words from `at` on, put in front of what the table holds.
fn fill(s: &[u8], at: usize, n: usize, table: &mut [u32])
    requires { (n ≤ length table.old) × (at + 4 * n ≤ length s.now) }
    ensures { table.new ≡ filled (words_from s.now at) n table.old }
{
    for i in 0..n {
        table[i] = word(s, at + 4 * i);
    }
}

// `n` words, in entries of `bytes` bytes each. Entries are of one size, so that one comparison finds the first that is cut.
#[tactic(auto, unfolding(crate::specs::Table::words_at, hbc_io::specs::Lends::below))]
fn read_words(s: &[u8], c: Cursor, n: usize, bytes: usize, table: &mut [u32]) -> Moved
    requires { (0 < bytes) × (n ≤ 2 ^ 33) }
    ensures { ReadWords bytes s.now c n table.old result table.new }
{
    let at = c.at;
    if LIMIT < s.len() {
        return Err(stop(Reason::TooLong, c));
    }
    if s.len() < at {
        return Err(stop(Reason::PastEnd, c));
    }
    if table.len() < n {
        return Err(stop(Reason::TooFewRows, c));
    }
    let left = s.len() - at;
    if left < 4 * n {
        return Err(Stopped {
            refusal: refuse(Reason::Cut as u32, (left / bytes) as u32),
            cursor: c,
        });
    }
    fill(s, at, n, table);
    Ok(Cursor { at: at + 4 * n })
}

// `count` words: u32 tables and kind runs.
pub fn read_u32_table(s: &[u8], c: Cursor, count: u32, table: &mut [u32]) -> Moved
    ensures { ReadTable 1 s.now c count table.old result table.new }
{
    read_words(s, c, count as usize, 4, table)
}

// `count` pairs, two words each: overflow strings, table entries, shapes.
pub fn read_pair_table(s: &[u8], c: Cursor, count: u32, table: &mut [u32]) -> Moved
    ensures { ReadTable 2 s.now c count table.old result table.new }
{
    read_words(s, c, 2 * (count as usize), 8, table)
}
