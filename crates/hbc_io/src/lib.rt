// A cursor over bytes that the caller lends, after io.rs: little-endian reads, seek, align, and spans of bytes.
// Every call at a cursor tests what it needs: an input longer than LIMIT, then a cursor past the end, then the bytes themselves.
// `remaining`, `part` and the peeks refuse nothing: none left, the empty part and zeros are their answers there.
#![tactic(auto)]

ghost use Rattle.std.specs.Prelude.{◌≡◌, ◌+◌, ◌-◌, ◌≤◌, ◌<◌, length};
ghost use Rattle.std.specs.Float.Ieee.{of_bits};
ghost use Rattle.std.specs.Float.{binary64};
ghost use Rattle.hbc_bits.specs.Bits.{le_at};
ghost use Rattle.hbc_io.specs.Outcome.{got, refusal_at, cursor_at, left, valued, twos};
ghost use Rattle.hbc_io.specs.Plain.{started, needing, plain_at, word_at, seek_to, align_to, bytes_at, IsPart};
ghost use Rattle.hbc_io.specs.Answers.{number_of, says, says_moved, stopped_at};

// The longest input that is read, in bytes.
pub const LIMIT: usize = 1073741824;

// A position in the input. It may stand past the end; each call that reads or aligns there refuses that.
#[derive(Clone, Copy)]
pub struct Cursor {
    pub at: usize,
}

// Why a call is refused, by the numbers of the table of refusals (docs/FORMAT.md, section 1.1), which C is told.
#[derive(Clone, Copy)]
pub enum Reason {
    // More than 2^30 bytes are lent.
    TooLong = 1,
    // The cursor or a start stands past the end, or a seek or align goes past it.
    PastEnd = 2,
    // A read needs bytes past the end.
    Cut = 3,
    // A lent table has too few rows, or a lent buffer too few bytes.
    TooFewRows = 4,
    // The tenth byte of a LEB128 number has bit 7 set.
    Leb128TooLong = 5,
    // An alignment of 0.
    ZeroAlignment = 6,
    // A series begins at or past the end, and is not empty.
    SeriesPastEnd = 7,
    // A string needs an overflow pair that is not there.
    NoOverflowPair = 8,
    // A zero-ended string has no zero.
    NoZero = 9,
    // A span is reversed, or goes past the end.
    BadSpan = 10,
    // Fewer rows are lent to be read than the count or the number of the row needs.
    TooFewToRead = 11,
    // A layout that there is not.
    NoSuchLayout = 12,
    // A row to be written says what no header of its layout can.
    BadRow = 13,
    // A modern row's info_offset is not the end of its large header, rounded up to 4.
    BadInfoOffset = 14,
    // The place for large headers is before the table's end.
    LargeBeforeEnd = 15,
    // A total falls below 0 by what is taken out, or is above 2^63 - 1.
    BadTotals = 16,
}

// A number of the refusal table, and the place it was met at.
#[derive(Clone, Copy)]
pub struct Refusal {
    pub number: u32,
    pub place: u32,
}

// Why a call at a cursor was refused, and the cursor as it is left.
#[derive(Clone, Copy)]
pub struct Stopped {
    pub refusal: Refusal,
    pub cursor: Cursor,
}

impl From<Stopped> for Refusal {
    ghost from_gives = { λ s r. r ≡ s.refusal };

    fn from(s: Stopped) -> Refusal {
        s.refusal
    }
}

// What a read answers: the value, and the cursor after it.
pub type Read<T> = Result<(T, Cursor), Stopped>;

// And a move, which has no value but the cursor.
pub type Moved = Result<Cursor, Stopped>;

// A part of the input: where it starts, and how many bytes it has.
#[derive(Clone, Copy)]
pub struct Span {
    pub start: usize,
    pub len: usize,
}

pub fn refuse(number: u32, place: u32) -> Refusal
    ensures { result ≡ refusal_at number place }
{
    Refusal { number, place }
}

// A refusal of this layer, "else 0", and the cursor that it leaves.
pub fn stop(reason: Reason, cursor: Cursor) -> Stopped
    ensures { result ≡ stopped_at (number_of reason) cursor }
{
    Stopped {
        refusal: refuse(reason as u32, 0),
        cursor,
    }
}

// The cursor at the input's first byte.
pub fn first() -> Cursor
    ensures { result ≡ cursor_at 0 }
{
    Cursor { at: 0 }
}

pub fn position(c: Cursor) -> usize
    ensures { result ≡ c.at }
{
    c.at
}

// How many bytes stand from the cursor to the end: none if it stands past it.
pub fn remaining(s: &[u8], c: Cursor) -> usize
    ensures { result ≡ left s.now c }
{
    let at = c.at;
    if at < s.len() { s.len() - at } else { 0 }
}

// The number of the `width` bytes from `at`, the least first. That a width is at most 8 is asked here and in two more: a type of widths would be no plainer.
fn gather(s: &[u8], at: usize, width: usize) -> u64
    requires { (width ≤ 8) × (at + width ≤ length s.now) }
    ensures { result ≡ le_at s.now at width }
{
    let mut v: u64 = 0;
    for k in (0..width).rev() {
        v = v * 256 + s[at + k] as u64;
    }
    v
}

// The cursor after the next `n` bytes, if they are there.
fn past(s: &[u8], c: Cursor, n: usize) -> Moved
    ensures { says_moved result ≡ started s.now c (needing n s.now c (got tt (cursor_at (c.at + n)))) }
{
    let at = c.at;
    if LIMIT < s.len() {
        return Err(stop(Reason::TooLong, c));
    }
    if s.len() < at {
        return Err(stop(Reason::PastEnd, c));
    }
    if s.len() - at < n {
        return Err(stop(Reason::Cut, c));
    }
    Ok(Cursor { at: at + n })
}

#[tactic(auto, unfolding(crate::specs::Plain::plain_at))]
fn number(s: &[u8], c: Cursor, width: usize) -> Read<u64>
    requires { width ≤ 8 }
    ensures { says result ≡ plain_at width s.now c }
{
    let next = past(s, c, width)?;
    Ok((gather(s, c.at, width), next))
}

pub fn read_u8(s: &[u8], c: Cursor) -> Read<u8>
    ensures { says result ≡ plain_at 1 s.now c }
{
    let (v, next) = number(s, c, 1)?;
    Ok((v as u8, next))
}

pub fn read_u16(s: &[u8], c: Cursor) -> Read<u16>
    ensures { says result ≡ plain_at 2 s.now c }
{
    let (v, next) = number(s, c, 2)?;
    Ok((v as u16, next))
}

pub fn read_u32(s: &[u8], c: Cursor) -> Read<u32>
    ensures { says result ≡ plain_at 4 s.now c }
{
    let (v, next) = number(s, c, 4)?;
    Ok((v as u32, next))
}

pub fn read_u64(s: &[u8], c: Cursor) -> Read<u64>
    ensures { says result ≡ plain_at 8 s.now c }
{
    number(s, c, 8)
}

// What stands at a place, for callers that have tested it or take 0 for what is not there: no cursor, no refusal.
fn peek(s: &[u8], at: usize, width: usize) -> u64
    requires { width ≤ 8 }
    ensures { result ≡ word_at width s.now at }
{
    if s.len() < at {
        return 0;
    }
    if s.len() - at < width {
        return 0;
    }
    gather(s, at, width)
}

pub fn u8_at(s: &[u8], at: usize) -> u8
    ensures { result ≡ word_at 1 s.now at }
{
    peek(s, at, 1) as u8
}

pub fn u16_at(s: &[u8], at: usize) -> u16
    ensures { result ≡ word_at 2 s.now at }
{
    peek(s, at, 2) as u16
}

pub fn u32_at(s: &[u8], at: usize) -> u32
    ensures { result ≡ word_at 4 s.now at }
{
    peek(s, at, 4) as u32
}

pub fn u64_at(s: &[u8], at: usize) -> u64
    ensures { result ≡ word_at 8 s.now at }
{
    peek(s, at, 8)
}

// The number that 8 bits stand for in two's complement.
pub fn signed8(v: u8) -> i8
    ensures { result ≡ twos 8 v }
{
    if v < 128 {
        v as i8
    } else {
        -1 - ((255 - v) as i8)
    }
}

pub fn signed32(v: u32) -> i32
    ensures { result ≡ twos 32 v }
{
    if v < 0x8000_0000 {
        v as i32
    } else {
        -1 - ((0xFFFF_FFFF - v) as i32)
    }
}

// A NaN is made anew: from_bits has no answer for its bits.
pub fn float_of(v: u64) -> f64
    ensures { result ≡ of_bits binary64 v }
{
    if 0x7FF0_0000_0000_0000 < v % 0x8000_0000_0000_0000 {
        0.0 / 0.0
    } else {
        f64::from_bits(v)
    }
}

pub fn read_i8(s: &[u8], c: Cursor) -> Read<i8>
    ensures { says result ≡ valued (twos 8) (plain_at 1 s.now c) }
{
    let (v, next) = read_u8(s, c)?;
    Ok((signed8(v), next))
}

pub fn read_i32(s: &[u8], c: Cursor) -> Read<i32>
    ensures { says result ≡ valued (twos 32) (plain_at 4 s.now c) }
{
    let (v, next) = read_u32(s, c)?;
    Ok((signed32(v), next))
}

pub fn read_f64(s: &[u8], c: Cursor) -> Read<f64>
    ensures { says result ≡ valued (of_bits binary64) (plain_at 8 s.now c) }
{
    let (v, next) = read_u64(s, c)?;
    Ok((float_of(v), next))
}

#[tactic(auto, unfolding(crate::specs::Plain::seek_to))]
pub fn seek(s: &[u8], c: Cursor, to: usize) -> Moved
    ensures { says_moved result ≡ seek_to s.now c to }
{
    if LIMIT < s.len() {
        return Err(stop(Reason::TooLong, c));
    }
    if s.len() < to {
        return Err(stop(Reason::PastEnd, c));
    }
    Ok(Cursor { at: to })
}

#[tactic(auto, unfolding(crate::specs::Plain::align_to))]
pub fn align(s: &[u8], c: Cursor, alignment: usize) -> Moved
    ensures { says_moved result ≡ align_to s.now c alignment }
{
    let at = c.at;
    if LIMIT < s.len() {
        return Err(stop(Reason::TooLong, c));
    }
    if alignment == 0 {
        return Err(stop(Reason::ZeroAlignment, c));
    }
    if s.len() < at {
        return Err(stop(Reason::PastEnd, c));
    }
    let over = at % alignment;
    if over == 0 {
        return Ok(c);
    }
    if s.len() - at < alignment - over {
        return Err(stop(Reason::PastEnd, c));
    }
    Ok(Cursor {
        at: at + (alignment - over),
    })
}

// The next `len` bytes, as a span.
#[tactic(auto, unfolding(crate::specs::Plain::bytes_at))]
pub fn read_bytes(s: &[u8], c: Cursor, len: usize) -> Read<Span>
    ensures { says result ≡ bytes_at len s.now c }
{
    let next = past(s, c, len)?;
    Ok((Span { start: c.at, len }, next))
}

// The part of the input that a span names; where it leaves the input, its empty beginning.
pub fn part(s: &[u8], p: Span) -> &[u8]
    ensures { IsPart s.entry p result }
{
    let start = p.start;
    let len = p.len;
    if s.len() < start {
        return &s[..0];
    }
    if s.len() - start < len {
        return &s[..0];
    }
    &s[start..start + len]
}
