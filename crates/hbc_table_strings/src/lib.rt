// String rows, after table.rs: kind runs, small entries, overflow pairs and the storage make a row of four words for each string.
// What a mode decides: how a string comes by its kind (`moved_on`, kinds.rt), and which pair a long one takes (`pair_taken`, entries.rt).
#![tactic(auto)]

ghost use Rattle.std.specs.Prelude.{◌≡◌, ◌≤◌, ◌<◌, ◌^◌};
ghost use Rattle.hbc_io.specs.Answers.{answered};
ghost use Rattle.hbc_table_strings.specs.Strings.{scan, decoded_rows, lesser, DecodeStrings, judged};

mod entries;
mod kinds;
mod row;

use crate::entries::{bytes_of, entry_of, lacks_pair, long_one};
use crate::kinds::{holding, moved_on, run_kind, spent};
use crate::row::{is_inside, put_string, row_with};
use hbc_io::{LIMIT, Reason, Refusal, refuse};
use hbc_rows::word_of;

// The words of a string's row, and which they are.
pub const STRING_WIDTH: usize = 4;

pub const STRING_START: usize = 0;

pub const STRING_BYTES: usize = 1;

pub const STRING_INVALID: usize = 2;

pub const STRING_MARKS: usize = 3;

// Pairs and runs one after the other, as the published Rust has them, or as Hermes itself chooses them.
#[derive(Clone, Copy)]
pub enum Mode {
    InOrder,
    Hermes,
}

// The first pass: `n`, or the first of the `n` strings whose pair is not there.
fn check(mode: Mode, n: usize, small: &[u32], pairs: usize) -> Result<usize, Refusal>
    requires { n < 2 ^ 32 }
    ensures { answered result ≡ scan mode small.now pairs n }
{
    let mut needed: usize = 0;
    for i in 0..n {
        let raw = word_of(small, i);
        if lacks_pair(mode, raw, needed, pairs) {
            return Err(refuse(Reason::NoOverflowPair as u32, i as u32));
        }
        needed += long_one(raw);
    }
    Ok(n)
}

// The second pass: row by row, and nothing can be refused.
fn write(
    mode: Mode,
    n: usize,
    kinds: &[u32],
    small: &[u32],
    overflow: &[u32],
    storage: usize,
    rows: &mut [u32],
)
    requires { (n < 2 ^ 32) × (storage ≤ 2 ^ 30) }
    ensures { rows.new ≡ decoded_rows mode kinds.now small.now overflow.now storage n rows.old }
{
    let mut held = holding(kinds, 0);
    let mut taken: usize = 0;
    for i in 0..n {
        let raw = word_of(small, i);
        let h = moved_on(mode, kinds, held);
        let kind = run_kind(kinds, h.run);
        put_string(rows, i, row_with(mode, raw, kind, overflow, taken, storage));
        held = spent(h);
        taken += long_one(raw);
    }
}

// A row (row.rt) for each string; the answer is how many. Runs, pairs and rows are lent as words.
#[tactic(auto, unfolding(crate::specs::Strings::decode_answer, crate::specs::Strings::lesser, hbc_io::specs::Lends::below))]
pub fn decode_strings(
    mode: Mode,
    count: u32,
    kinds: &[u32],
    small: &[u32],
    overflow: &[u32],
    storage: &[u8],
    rows: &mut [u32],
) -> Result<usize, Refusal>
    ensures { DecodeStrings mode count kinds.now small.now overflow.now storage.now
        rows.old result rows.new }
{
    let n = (count as usize).min(small.len());
    if LIMIT < storage.len() {
        return Err(refuse(Reason::TooLong as u32, 0));
    }
    if rows.len() / STRING_WIDTH < n {
        return Err(refuse(Reason::TooFewRows as u32, 0));
    }
    let count = check(mode, n, small, overflow.len() / 2)?;
    write(mode, n, kinds, small, overflow, storage.len(), rows);
    Ok(count)
}

// One small entry by itself in Hermes mode: 0 valid, 1 invalid, 2 where its pair is not there. A number, as docs/PROMISES.md has it: `judged` is one, the
// third word of a row or 2.
#[tactic(auto, using(crate::proofs::Laws::judged_lacking))]
pub fn judge_entry(raw: u32, overflow: &[u32], storage: usize) -> u32
    ensures { result ≡ judged raw overflow.now storage }
{
    if lacks_pair(Mode::Hermes, raw, 0, overflow.len() / 2) {
        return 2;
    }
    let e = entry_of(Mode::Hermes, raw, overflow, 0);
    if is_inside(e.start, bytes_of(raw, e.units), storage) {
        return 0;
    }
    1
}
