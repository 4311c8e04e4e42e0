// Literal series, after buffer.rs: tags, runs of values, and two lent tables that take kind and payload.
// Checked first, run by run; written after.
#![tactic(auto)]

ghost use Rattle.std.specs.Prelude.{◌≡◌, ◌+◌, ◌-◌, ◌*◌, ◌≤◌, ◌<◌, ◌^◌, min, length, true, false};
ghost use Rattle.hbc_bits.specs.Bits.{le_at, field};
ghost use Rattle.hbc_io.specs.Answers.{answered};
ghost use Rattle.hbc_io.specs.Outcome.{cursor_at, limit};
ghost use Rattle.hbc_rows.specs.Rows.{filled};
ghost use Rattle.hbc_buffer_literal.specs.Literal.{width_of, literal_of, kind_of};
ghost use Rattle.hbc_buffer.specs.Series.{after, kind_at, payload_at, used_of, ReadSeries};
ghost use Rattle.hbc_buffer.specs.Private.{byte_at, length_of, filled_from, kinds_from, payloads_from, Whole, Known, Empties, Goes, Writes};

use hbc_bits::bits;
use hbc_buffer_literal::{
    INTEGER, NUMBER, STRING_U8, STRING_U16, STRING_U32, kind, read_payload, width,
};
use hbc_io::{Cursor, LIMIT, Reason, Refusal, read_u8, read_u64, refuse};

// A byte, 0 past the end.
#[tactic(auto, unfolding(crate::specs::Private::byte_at), using(hbc_io::proofs::Plains::plain_lt))]
fn byte(s: &[u8], at: usize) -> u64
    ensures { (result ≡ byte_at s.now at) × (result < 256) }
{
    match read_u8(s, Cursor { at }) {
        Ok((v, _)) => v as u64,
        Err(_) => 0,
    }
}

// The length that a tag byte and the byte after it give.
#[tactic(auto, unfolding(crate::specs::Private::length_of))]
fn length_of(b: u64, second: u64) -> u64
    requires { second < 256 }
    ensures { result ≡ length_of b second }
{
    if bits(b, 7, 1) == 0 {
        return bits(b, 0, 4);
    }
    bits(b, 0, 4) * 256 + second
}

fn least(a: usize, b: usize) -> usize
    ensures { result ≡ min a b }
{
    if a < b { a } else { b }
}

// How many bytes a value has that this tag byte speaks of: a nibble for each tag, so that nothing is guessed.
fn width_of(b: u64) -> usize
    ensures { result ≡ width_of (field 4 3 b) }
{
    bits(0x4124_8000, 4 * (bits(b, 4, 3) as u32), 4) as usize
}

// Whether a tag byte is the last one again, and its run is there with `spare` bytes more. The next tag's place is then known before this one's
// length and width are made out.
#[tactic(auto, using(crate::proofs::Fills::small_product))]
fn again(
    b: u64,
    last: u64,
    size: usize,
    wide: usize,
    left: usize,
    room: usize,
    spare: usize,
) -> bool
    requires { (size < 2 ^ 32) × (wide ≤ 8) × (spare ≤ 8) }
    ensures { result ≡ true → (b ≡ last) × (b < 128) × (size ≤ left) × (spare + (1 + size * wide) ≤ room) }
{
    if b == last {
        if b < 128 {
            if size <= left {
                if spare + (1 + size * wide) <= room {
                    return true;
                }
            }
        }
    }
    false
}

// Whether a tag byte has no values, whatever its kind: bits 0 to 3 and bit 7 are 0. So is what is read past the end.
#[tactic(auto, using(crate::proofs::Tags::nibble_zero))]
fn empty(b: u64) -> bool
    ensures { (result ≡ true → (b < 128) × (field 0 4 b ≡ 0)) × (result ≡ false → b ≡ 0 → ⊥) }
{
    if bits(b, 0, 4) == 0 {
        if b < 128 {
            return true;
        }
    }
    false
}

// Past the empty tags of one byte that stand from `at` on, of any kinds: nothing else is made out of them.
#[tactic(auto, using(crate::proofs::Going::empties_first, crate::proofs::Going::empties_on))]
fn past_empty(s: &[u8], at: usize) -> usize
    requires { (length s.now ≤ limit) × (at ≤ length s.now) }
    ensures { Empties s.now at result }
{
    for p in at..s.len() {
        if !empty(byte(s, p)) {
            return p;
        }
    }
    s.len()
}

// Where a pass stands: a place in the file, and how many values are read.
#[derive(Clone, Copy)]
pub struct Place {
    pub at: usize,
    pub done: usize,
}

// Past the runs of this tag byte, one after another: their length and width are known.
fn past_same(
    s: &[u8],
    from: usize,
    first: usize,
    count: usize,
    b: u64,
    size: usize,
    wide: usize,
) -> Place
    requires { (length s.now ≤ limit) × (from ≤ length s.now) × (first ≤ count) × (count < 2 ^ 32) × Known count first b size wide }
    ensures { Goes s.now count first from result.done result.at }
{
    let mut at = from;
    let mut done = first;
    // not a `for`: a turn goes on by a run, not by one
    while done < count {
        if again(byte(s, at), b, size, wide, count - done, s.len() - at, 0) {
            at += 1 + size * wide;
            done += size;
        } else {
            return Place { at, done };
        }
    }
    Place { at, done }
}

// Reads `count` values run by run and writes nothing. A run takes one test, however long it is; tag byte, length and width of the last one are kept.
fn check(s: &[u8], from: usize, count: usize) -> Result<u32, Refusal>
    requires { (length s.now ≤ limit) × (from ≤ length s.now) × (count < 2 ^ 32) }
    ensures { answered result ≡ used_of from (after count s.now (cursor_at from)) }
{
    let mut at = from;
    let mut done: usize = 0;
    let mut last: u64 = 256;
    let mut size: usize = 0;
    let mut wide: usize = 0;
    // not a `for`: a turn goes on by a run, not by one
    while done < count {
        let b = byte(s, at);
        if empty(b) {
            if s.len() <= at {
                return Err(refuse(Reason::Cut as u32, done as u32));
            }
            at = past_empty(s, at + 1);
        } else if b < 48 {
            // no bytes follow such a tag, whatever its length
            at += 1;
            done += least(bits(b, 0, 4) as usize, count - done);
        } else if again(b, last, size, wide, count - done, s.len() - at, 0) {
            let p = past_same(s, at + (1 + size * wide), done + size, count, b, size, wide);
            at = p.at;
            done = p.done;
        } else {
            let first = at + 1 + (bits(b, 7, 1) as usize);
            if s.len() < first {
                return Err(refuse(Reason::Cut as u32, done as u32));
            }
            let n = least(length_of(b, byte(s, at + 1)) as usize, count - done);
            let w = width_of(b);
            let room = s.len() - first;
            if room < n * w {
                return Err(refuse(Reason::Cut as u32, (done + room / w) as u32));
            }
            at = first + n * w;
            done += n;
            last = b;
            size = n;
            wide = w;
        }
    }
    Ok((at - from) as u32)
}

// Entries `first` to `first + n - 1` of a table of kinds.
fn fill_kinds(table: &mut [u32], first: usize, n: usize, k: u32)
    requires { first + n ≤ length table.old }
    ensures { table.new ≡ kinds_from k first n table.old }
{
    for i in 0..n {
        table[first + i] = k;
    }
}

// The number of a value's bytes that are known to be there.
#[tactic(auto, using(hbc_io::proofs::Plains::plain_value, hbc_io::proofs::Plains::plain_there))]
fn payload(s: &[u8], at: usize, tag: u64) -> u64
    requires { (length s.now ≤ limit) × (at + width_of tag ≤ length s.now) }
    ensures { result ≡ le_at s.now at (width_of tag) }
{
    match read_payload(s, Cursor { at }, tag) {
        Ok((v, _)) => v,
        Err(_) => 0,
    }
}

// The payloads of n values of one run, whose bytes start at `at`. Answers where they end.
fn fill_payloads(s: &[u8], at: usize, tag: u64, table: &mut [u64], first: usize, n: usize) -> usize
    requires { (length s.now ≤ limit) × (at + n * width_of tag ≤ length s.now) × (first + n ≤ length table.old) }
    ensures { (result ≡ at + n * width_of tag) × (table.new ≡ payloads_from s.now at (width_of tag) first n table.old) }
{
    let w = width(tag);
    let mut p = at;
    for i in 0..n {
        table[first + i] = payload(s, p, tag);
        p += w;
    }
    p
}

// The same with the width known in each loop.
fn fill_run(s: &[u8], at: usize, tag: u64, table: &mut [u64], first: usize, n: usize) -> usize
    requires { (length s.now ≤ limit) × (at + n * width_of tag ≤ length s.now) × (first + n ≤ length table.old) }
    ensures { (result ≡ at + n * width_of tag) × (table.new ≡ payloads_from s.now at (width_of tag) first n table.old) }
{
    match tag {
        NUMBER => fill_payloads(s, at, NUMBER, table, first, n),
        STRING_U32 => fill_payloads(s, at, STRING_U32, table, first, n),
        STRING_U16 => fill_payloads(s, at, STRING_U16, table, first, n),
        STRING_U8 => fill_payloads(s, at, STRING_U8, table, first, n),
        INTEGER => fill_payloads(s, at, INTEGER, table, first, n),
        _ => fill_payloads(s, at, 0, table, first, n),
    }
}

// The number of eight bytes that are known to be there.
#[tactic(auto, using(hbc_io::proofs::Plains::plain_value, hbc_io::proofs::Plains::plain_there))]
fn word(s: &[u8], at: usize) -> u64
    requires { (length s.now ≤ limit) × (at + 8 ≤ length s.now) }
    ensures { result ≡ le_at s.now at 8 }
{
    match read_u64(s, Cursor { at }) {
        Ok((v, _)) => v,
        Err(_) => 0,
    }
}

// Both words of n values of one run, each payload cut from eight bytes, so that one loop serves every width.
fn fill_short(
    s: &[u8],
    at: usize,
    w: usize,
    k: u32,
    kinds: &mut [u32],
    payloads: &mut [u64],
    first: usize,
    n: usize,
)
    requires { (length s.now ≤ limit) × (at + n * w + 8 ≤ length s.now) × (w ≤ 8)
        × (first + n ≤ length kinds.old) × (first + n ≤ length payloads.old) }
    ensures kinds_after { kinds.new ≡ kinds_from k first n kinds.old }
    ensures payloads_after { payloads.new ≡ payloads_from s.now at w first n payloads.old }
{
    let mut p = at;
    for i in 0..n {
        kinds[first + i] = k;
        payloads[first + i] = bits(word(s, p), 0, 8 * (w as u32));
        p += w;
    }
}

// Both words of n values that have no bytes.
fn fill_none(kinds: &mut [u32], payloads: &mut [u64], k: u32, first: usize, n: usize)
    requires { (first + n ≤ length kinds.old) × (first + n ≤ length payloads.old) }
    ensures kinds_after { kinds.new ≡ kinds_from k first n kinds.old }
    ensures payloads_after { payloads.new ≡ filled_from first n (λ _. 0) payloads.old }
{
    for i in 0..n {
        kinds[first + i] = k;
        payloads[first + i] = 0;
    }
}

// Both words of n values of one run: a short one by one loop, a long one by its width.
fn fill(
    s: &[u8],
    at: usize,
    tag: u64,
    w: usize,
    kinds: &mut [u32],
    payloads: &mut [u64],
    first: usize,
    n: usize,
)
    requires { (length s.now ≤ limit) × (at + n * width_of tag ≤ length s.now) × (w ≡ width_of tag)
        × (first + n ≤ length kinds.old) × (first + n ≤ length payloads.old) }
    ensures kinds_after { kinds.new ≡ kinds_from (kind_of (literal_of tag 0)) first n kinds.old }
    ensures payloads_after { payloads.new ≡ payloads_from s.now at (width_of tag) first n payloads.old }
{
    let k = kind(tag);
    if n < 16 {
        if n * w + 8 <= s.len() - at {
            fill_short(s, at, w, k, kinds, payloads, first, n);
            return;
        }
    }
    fill_kinds(kinds, first, n, k);
    fill_run(s, at, tag, payloads, first, n);
}

// Both words of the values of the runs of this tag byte, one after another.
fn write_same(
    s: &[u8],
    from: usize,
    first: usize,
    count: usize,
    b: u64,
    size: usize,
    wide: usize,
    k: u32,
    kinds: &mut [u32],
    payloads: &mut [u64],
) -> Place
    requires { (length s.now ≤ limit) × (from ≤ length s.now) × (first ≤ count) × (count < 2 ^ 32) × Known count first b size wide
        × (k ≡ kind_of (literal_of (field 4 3 b) 0)) × (count ≤ length kinds.old) × (count ≤ length payloads.old) }
    ensures { Goes s.now count first from result.done result.at
        × Writes kind_at s.now count first from result.done kinds.old kinds.new
        × Writes payload_at s.now count first from result.done payloads.old payloads.new }
{
    let mut at = from;
    let mut done = first;
    // not a `for`: a turn goes on by a run, not by one
    while done < count {
        if again(byte(s, at), b, size, wide, count - done, s.len() - at, 8) {
            fill_short(s, at + 1, wide, k, kinds, payloads, done, size);
            at += 1 + size * wide;
            done += size;
        } else {
            return Place { at, done };
        }
    }
    Place { at, done }
}

// A run that is the last one again, and those after it that are it too. Runs of one value have a loop in which nothing is asked of the length.
fn repeat(
    s: &[u8],
    at: usize,
    done: usize,
    count: usize,
    b: u64,
    size: usize,
    wide: usize,
    kinds: &mut [u32],
    payloads: &mut [u64],
) -> Place
    requires { (length s.now ≤ limit) × (done < count) × (count < 2 ^ 32) × Known count done b size wide
        × (count ≤ length kinds.old) × (count ≤ length payloads.old)
        × (b ≡ byte_at s.now at) × (b < 128) × (size ≤ count - done) × (8 + (1 + size * wide) ≤ length s.now - at) }
    ensures { (at < result.at) × Goes s.now count done at result.done result.at
        × Writes kind_at s.now count done at result.done kinds.old kinds.new
        × Writes payload_at s.now count done at result.done payloads.old payloads.new }
{
    let k = kind(bits(b, 4, 3));
    let next = at + (1 + size * wide);
    fill_short(s, at + 1, wide, k, kinds, payloads, done, size);
    if size == 1 {
        return write_same(s, next, done + 1, count, b, 1, wide, k, kinds, payloads);
    }
    write_same(
        s,
        next,
        done + size,
        count,
        b,
        size,
        wide,
        k,
        kinds,
        payloads,
    )
}

// Writes the values of a series that is known to be whole.
fn write(s: &[u8], from: usize, count: usize, kinds: &mut [u32], payloads: &mut [u64])
    requires { (length s.now ≤ limit) × (from ≤ length s.now) × (count < 2 ^ 32)
        × (count ≤ length kinds.old) × (count ≤ length payloads.old) × Whole count s.now (cursor_at from) }
    ensures kinds_after { kinds.new ≡ filled (kind_at s.now (cursor_at from)) count kinds.old }
    ensures payloads_after { payloads.new ≡ filled (payload_at s.now (cursor_at from)) count payloads.old }
{
    // never so, and said here that no read below asks it again
    if LIMIT < s.len() {
        return;
    }
    let mut at = from;
    let mut done: usize = 0;
    // the last run: its tag byte, length and width
    let mut last: u64 = 256;
    let mut size: usize = 0;
    let mut wide: usize = 0;
    // not a `for`: a turn goes on by a run, not by one
    while done < count {
        let b = byte(s, at);
        let tag = bits(b, 4, 3);
        if empty(b) {
            at = past_empty(s, at + 1);
        } else if b < 48 {
            // no bytes follow such a tag, whatever its length
            let n = least(bits(b, 0, 4) as usize, count - done);
            fill_none(kinds, payloads, kind(tag), done, n);
            at += 1;
            done += n;
        } else if again(b, last, size, wide, count - done, s.len() - at, 8) {
            let p = repeat(s, at, done, count, b, size, wide, kinds, payloads);
            at = p.at;
            done = p.done;
        } else {
            let first = at + 1 + (bits(b, 7, 1) as usize);
            let n = least(length_of(b, byte(s, at + 1)) as usize, count - done);
            let w = width_of(b);
            fill(s, first, tag, w, kinds, payloads, done, n);
            at = first + n * w;
            done += n;
            last = b;
            size = n;
            wide = w;
        }
    }
}

// Reads `count` values of the series at `offset` into the two tables, kind and payload of each; answers how many bytes they take.
#[tactic(auto, unfolding(crate::specs::Series::series_answer, hbc_io::specs::Lends::below, hbc_io::specs::Lends::choose), using(crate::proofs::Exits::as_were))]
pub fn read_series(
    s: &[u8],
    offset: u32,
    count: u32,
    kinds: &mut [u32],
    payloads: &mut [u64],
) -> Result<u32, Refusal>
    ensures { ReadSeries s.now offset count kinds.old payloads.old result kinds.new payloads.new }
{
    let from = offset as usize;
    let n = count as usize;
    if LIMIT < s.len() {
        return Err(refuse(Reason::TooLong as u32, 0));
    }
    if count == 0 {
        return Ok(0);
    }
    if s.len() <= from {
        return Err(refuse(Reason::SeriesPastEnd as u32, 0));
    }
    if kinds.len() < n {
        return Err(refuse(Reason::TooFewRows as u32, 0));
    }
    if payloads.len() < n {
        return Err(refuse(Reason::TooFewRows as u32, 0));
    }
    let used = check(s, from, n)?;
    write(s, from, n, kinds, payloads);
    Ok(used)
}
