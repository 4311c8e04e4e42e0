// Literal series that are tidy: each is walked once, tag by tag, and nothing is written. What is found on the way: a tag of length 0 before the last value
// asked for, and a string number that is not below the string count.
#![tactic(auto)]

ghost use Rattle.std.specs.Prelude.{◌≡◌, true, cond, ◌+◌, ◌*◌, ◌≤◌, ◌<◌, ◌^◌, length, ltb};
ghost use Rattle.hbc_bits.specs.Bits.{le_at};
ghost use Rattle.hbc_io.specs.Answers.{answered};
ghost use Rattle.hbc_io.specs.Outcome.{cursor_at, limit};
ghost use Rattle.hbc_rows.specs.Rows.{rows};
ghost use Rattle.hbc_buffer_literal.specs.Literal.{width_of};
ghost use Rattle.hbc_buffer.specs.Series.{after, used_of, series_answer};
ghost use Rattle.hbc_buffer.specs.Private.{byte_at, length_of};
ghost use Rattle.hbc_lowest.specs.Lowest.{some};
ghost use Rattle.hbc_clean_series.specs.Series.{series_width, passes_empty, holds_high, breaks_empty, breaks_string, read_series, check_series};
ghost use Rattle.hbc_clean_series.specs.Private.{SaysTag, high_in, high_run, marked};

use hbc_bits::bits;
use hbc_buffer_literal::{kind, read_payload, width};
use hbc_io::{Cursor, LIMIT, Reason, Refusal, read_u8, refuse};
use hbc_rows::word_of;

// The words of a row: which buffer, offset, count.
pub const SERIES_WIDTH: usize = 3;

// The lowest series that passes a tag of length 0, and the lowest that holds a string number too high; how many series there are where none does.
#[derive(Clone, Copy)]
pub struct Lows {
    pub empty: usize,
    pub high: usize,
}

// The answer for all series of a table.
pub type Walked = Result<Lows, Refusal>;

// A tag: whether its bytes are there, bits 4 to 6 of the first, how many values it has, and where they start.
#[derive(Clone, Copy)]
pub struct Tag {
    pub there: bool,
    pub sort: u64,
    pub size: usize,
    pub next: usize,
}

// What is found in one series.
#[derive(Clone, Copy)]
pub struct Marks {
    pub empty: bool,
    pub high: bool,
}

pub type Found = Result<Marks, Refusal>;

// A byte, 0 past the end.
#[tactic(auto, unfolding(hbc_buffer::specs::Private::byte_at), using(hbc_io::proofs::Plains::plain_lt))]
fn byte(s: &[u8], at: usize) -> u64
    ensures { (result ≡ byte_at s.now at) × (result < 256) }
{
    match read_u8(s, Cursor { at }) {
        Ok((v, _)) => v as u64,
        Err(_) => 0,
    }
}

// The length that a tag byte and the byte after it give.
#[tactic(auto, unfolding(hbc_buffer::specs::Private::length_of))]
fn length_of(b: u64, second: u64) -> u64
    requires { second < 256 }
    ensures { result ≡ length_of b second }
{
    if bits(b, 7, 1) == 0 {
        return bits(b, 0, 4);
    }
    bits(b, 0, 4) * 256 + second
}

// The tag at `at`. A struct of plain numbers and no Option: it stays in registers.
fn read_tag(s: &[u8], at: usize) -> Tag
    requires { (length s.now ≤ limit) × (at ≤ length s.now) }
    ensures { SaysTag s.now at result }
{
    let b = byte(s, at);
    let next = at + 1 + (bits(b, 7, 1) as usize);
    if s.len() < next {
        return Tag {
            there: false,
            sort: 0,
            size: 0,
            next: at,
        };
    }
    let size = length_of(b, byte(s, at + 1)) as usize;
    Tag {
        there: true,
        sort: bits(b, 4, 3),
        size,
        next,
    }
}

// The number of a value's bytes that are known to be there.
#[tactic(auto, using(hbc_io::proofs::Plains::plain_value, hbc_io::proofs::Plains::plain_there))]
fn payload(s: &[u8], at: usize, sort: u64) -> u64
    requires { (length s.now ≤ limit) × (at + width_of sort ≤ length s.now) }
    ensures { result ≡ le_at s.now at (width_of sort) }
{
    match read_payload(s, Cursor { at }, sort) {
        Ok((v, _)) => v,
        Err(_) => 0,
    }
}

// Whether one of the n values of a run is a number that is not below the string count.
fn any_high(s: &[u8], at: usize, sort: u64, n: usize, strings: u32) -> bool
    requires { (length s.now ≤ limit) × (at + n * width_of sort ≤ length s.now) }
    ensures { result ≡ some (high_in strings s.now at sort) n }
{
    let w = width(sort);
    let mut p = at;
    for i in 0..n {
        if (strings as u64) <= payload(s, p, sort) {
            return true;
        }
        p += w;
    }
    false
}

// The same of a run of any sort: only strings are looked at, and only as long as none was found before.
fn run_high(s: &[u8], at: usize, sort: u64, n: usize, strings: u32, before: bool) -> bool
    requires { (length s.now ≤ limit) × (at + n * width_of sort ≤ length s.now) }
    ensures { result ≡ cond before true (high_run strings s.now at sort n) }
{
    if before {
        return true;
    }
    if kind(sort) == 4 {
        return any_high(s, at, sort, n, strings);
    }
    false
}

// One series, from `from` on.
fn walk(s: &[u8], from: usize, count: usize, strings: u32) -> Found
    requires { (length s.now ≤ limit) × (from ≤ length s.now) × (count < 2 ^ 32) }
    ensures { answered result ≡ marked (used_of from (after count s.now (cursor_at from)))
        (passes_empty s.now from count) (holds_high strings s.now from count) }
{
    let mut at = from;
    let mut done: usize = 0;
    let mut empty = false;
    let mut high = false;
    // not a `for`: a turn goes on by a run, not by one
    while done < count {
        let tag = read_tag(s, at);
        if tag.there {
            let n = tag.size.min(count - done);
            let w = width(tag.sort);
            let room = s.len() - tag.next;
            if room < n * w {
                return Err(refuse(Reason::Cut as u32, (done + room / w) as u32));
            }
            empty = empty || tag.size == 0;
            high = run_high(s, tag.next, tag.sort, n, strings, high);
            at = tag.next + n * w;
            done += n;
        } else {
            return Err(refuse(Reason::Cut as u32, done as u32));
        }
    }
    Ok(Marks { empty, high })
}

// One series, with the refusals before its data.
fn series(s: &[u8], offset: u32, count: u32, strings: u32) -> Found
    ensures { answered result ≡ marked (series_answer s.now offset count count count)
        (passes_empty s.now offset count) (holds_high strings s.now offset count) }
{
    if LIMIT < s.len() {
        return Err(refuse(Reason::TooLong as u32, 0));
    }
    if count == 0 {
        return Ok(Marks {
            empty: false,
            high: false,
        });
    }
    if s.len() <= (offset as usize) {
        return Err(refuse(Reason::SeriesPastEnd as u32, 0));
    }
    walk(s, offset as usize, count as usize, strings)
}

// Series j, in the buffer that its row names.
fn series_at(keys: &[u8], values: &[u8], table: &[u32], j: usize, strings: u32) -> Found
    requires { j < rows series_width table.now }
    ensures { answered result ≡ marked (read_series keys.now values.now table.now j)
        (breaks_empty keys.now values.now table.now j)
        (breaks_string strings keys.now values.now table.now j) }
{
    let at = j * SERIES_WIDTH;
    let offset = word_of(table, at + 1);
    let count = word_of(table, at + 2);
    if word_of(table, at) == 0 {
        return series(values, offset, count, strings);
    }
    series(keys, offset, count, strings)
}

// The lowest of the first i + 1 that is so, from the lowest of the first i. hbc_clean has the same: shared it would be a public call with a `requires`, and
// no public call has one.
fn lower(best: usize, so: bool, i: usize) -> usize
    requires { i < 2 ^ 63 }
    ensures { result ≡ cond (ltb best i) best (cond so i (i + 1)) }
{
    if best < i {
        return best;
    }
    if so {
        return i;
    }
    i + 1
}

// Every series of a table, in order: the first refusal, or the lowest that breaks each of the two rules.
pub fn check_series(keys: &[u8], values: &[u8], table: &[u32], strings: u32) -> Walked
    ensures { answered result ≡ check_series strings keys.now values.now table.now }
{
    let n = table.len() / SERIES_WIDTH;
    let mut empty: usize = 0;
    let mut high: usize = 0;
    for j in 0..n {
        let marks = series_at(keys, values, table, j, strings)?;
        empty = lower(empty, marks.empty, j);
        high = lower(high, marks.high, j);
    }
    Ok(Lows { empty, high })
}
