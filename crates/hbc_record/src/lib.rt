// The fields of a recorded answer, and whether what came is what they list (docs/RECORDS.md). All reads are total: what is cut reads as nothing.
#![tactic(auto)]

ghost use Rattle.std.specs.Prelude.{◌≡◌, true, false, ◌&&◌, [], ◌∷◌, length, from_bits};
ghost use Rattle.std.specs.Float.{binary64};
ghost use Rattle.hbc_io.specs.Plain.{IsPart};
ghost use Rattle.hbc_rows.specs.Rows.{filled};
ghost use Rattle.hbc_record.specs.Records.{span_at, past_at, place_of, span_of_field, field_of, listed_at, low_of, asked_of};
ghost use Rattle.hbc_record.specs.Records.{fill, fill_long, is_listed, judged_on, are_listed, answered, left_as, same_bytes};
ghost use Rattle.hbc_record.specs.Records.{same_float, IsFront, words_of, IsGiven, tally, counted_on};

use hbc_io::{Cursor, Span};
use hbc_stdio::Out;

// What a word of a lent table holds before a call.
pub const FILL: u32 = 0xA5A5_A5A5;

// The same as a number of a list.
const FILL_NUMBER: u64 = FILL as u64;

// The same of a table of 64-bit words.
pub const FILL_LONG: u64 = 0xA5A5_A5A5_A5A5_A5A5;

// And of a buffer.
pub const FILL_BYTE: u8 = 0xA5;

// A number that a call's answer does not have.
pub const NONE: usize = 0xA5A5_A5A5_A5A5_A5A5;

// A number, and where the next one stands.
#[derive(Clone, Copy)]
pub struct Number {
    pub value: u64,
    pub next: usize,
}

// Whether what came is what is listed so far, and where the next number stands.
#[derive(Clone, Copy)]
pub struct Judged {
    pub same: bool,
    pub next: usize,
}

// Which call, and what it is asked, in the order that its judge names: numbers, and such as have 32 bits.
#[derive(Clone, Copy)]
pub struct Asked {
    pub call: u64,
    pub a: usize,
    pub b: usize,
    pub c: usize,
    pub d: usize,
    pub p: u32,
    pub q: u32,
    pub r: u32,
    pub s: u32,
}

// A recorded call: its record, its input s, which is field 1 of that, and what it is asked.
#[derive(Clone, Copy)]
pub struct Call<'a> {
    pub record: &'a [u8],
    pub s: &'a [u8],
    pub n: Asked,
}

fn span_at(s: &[u8], at: usize) -> Span
    ensures { result ≡ span_at s.now at }
{
    match hbc_io_strings::read_length_prefixed_string(s, Cursor { at }) {
        Ok((string, _)) => string.span,
        Err(_) => Span { start: 0, len: 0 },
    }
}

// The field at a place: how many bytes, and they.
pub fn field_at(s: &[u8], at: usize) -> &[u8]
    ensures { IsPart s.entry (span_at s.now at) result }
{
    hbc_io::part(s, span_at(s, at))
}

// Where the field after it stands.
pub fn past(s: &[u8], at: usize) -> usize
    ensures { result ≡ past_at s.now at }
{
    match hbc_io_strings::read_length_prefixed_string(s, Cursor { at }) {
        Ok((_, next)) => next.at,
        Err(_) => s.len(),
    }
}

fn place(fields: &[u8], k: usize) -> usize
    ensures { result ≡ place_of fields.now k }
{
    let mut at: usize = 0;
    for i in 0..k {
        at = past(fields, at);
    }
    at
}

// Field k of a record.
pub fn field_of(fields: &[u8], k: usize) -> &[u8]
    ensures { IsPart fields.entry (span_of_field fields.now k) result }
{
    field_at(fields, place(fields, k))
}

// The number at a place of a list; behind the last one, what all are that are not listed.
fn listed(list: &[u8], at: usize, unlisted: u64) -> Number
    ensures { result ≡ listed_at list.now at unlisted }
{
    match hbc_io_leb::read_uleb128(list, Cursor { at }) {
        Ok((v, next)) => Number {
            value: v.value,
            next: next.at,
        },
        Err(_) => Number {
            value: unlisted,
            next: at,
        },
    }
}

fn low(v: u64) -> u32
    ensures { result ≡ low_of v }
{
    (v % 0x1_0000_0000) as u32
}

// What the list in the first field asks.
pub fn head(fields: &[u8]) -> Asked
    ensures { result ≡ asked_of (field_of fields.now 0) }
{
    let list = field_of(fields, 0);
    let call = listed(list, 0, 0);
    let a = listed(list, call.next, 0);
    let b = listed(list, a.next, 0);
    let c = listed(list, b.next, 0);
    let d = listed(list, c.next, 0);
    let p = listed(list, d.next, 0);
    let q = listed(list, p.next, 0);
    let r = listed(list, q.next, 0);
    let s = listed(list, r.next, 0);
    Asked {
        call: call.value,
        a: a.value as usize,
        b: b.value as usize,
        c: c.value as usize,
        d: d.value as usize,
        p: low(p.value),
        q: low(q.value),
        r: low(r.value),
        s: low(s.value),
    }
}

// Whether a number listed is the one that came. The fill is left out of an answer, never listed: there a number too many is seen, whatever it is.
#[tactic(auto, unfolding(crate::specs::Records::is_listed))]
fn is_listed(may: bool, fill: u64, at: usize, n: Number, came: u64) -> bool
    ensures { result ≡ is_listed may fill at n came }
{
    n.value == came && (may || n.value != fill || n.next == at)
}

fn judged_on(may: bool, list: &[u8], fill: u64, j: Judged, came: u64) -> Judged
    ensures { result ≡ judged_on may list.now fill j came }
{
    let n = listed(list, j.next, fill);
    Judged {
        same: j.same & is_listed(may, fill, j.next, n, came),
        next: n.next,
    }
}

// Whether these numbers are the ones listed in field k, each and no more.
pub fn are(fields: &[u8], k: usize, t: &[u64]) -> bool
    ensures { result ≡ are_listed false (field_of fields.now k) fill_long t.now }
{
    let list = field_of(fields, k);
    let mut j = Judged {
        same: true,
        next: 0,
    };
    for came in t {
        j = judged_on(false, list, FILL_LONG, j, *came);
    }
    j.same & (j.next == list.len())
}

// The same of words. A table may keep a word between two that are written, and then it is listed.
pub fn words_are(fields: &[u8], k: usize, t: &[u32]) -> bool
    ensures { result ≡ are_listed true (field_of fields.now k) fill t.now }
{
    let list = field_of(fields, k);
    let mut j = Judged {
        same: true,
        next: 0,
    };
    for came in t {
        j = judged_on(true, list, FILL_NUMBER, j, *came as u64);
    }
    j.same & (j.next == list.len())
}

// Whether a call answered the numbers that are recorded. The array is made here once: a judge that makes its own costs the check more.
pub fn answers(fields: &[u8], code: u64, a: usize, b: usize, c: usize, d: usize) -> bool
    ensures { result ≡ answered fields.now (code ∷ a ∷ b ∷ c ∷ d ∷ []) }
{
    let answer = [code, a as u64, b as u64, c as u64, d as u64];
    are(fields, 2, &answer)
}

// Whether a call answered two numbers, and left its table, as is recorded.
pub fn leaves(fields: &[u8], code: u64, more: usize, table: &[u32]) -> bool
    ensures { result ≡ left_as fields.now code more table.now }
{
    answers(fields, code, more, NONE, NONE, NONE) & words_are(fields, 3, table)
}

// Whether these bytes are field k.
pub fn bytes_are(fields: &[u8], k: usize, b: &[u8]) -> bool
    ensures { result ≡ same_bytes (field_of fields.now k) b.now }
{
    let a = field_of(fields, k);
    let mut same = a.len() == b.len();
    for i in 0..a.len() {
        same &= hbc_io::u8_at(a, i) == hbc_io::u8_at(b, i);
    }
    same
}

// Whether the float is the one with these bits. Any NaN is as good as another; the sign of a zero counts.
pub fn same_float(v: f64, bits: u64) -> bool
    ensures { result ≡ same_float v (from_bits binary64 bits) }
{
    let w = hbc_io::float_of(bits);
    ((v == w) & (1.0 / v == 1.0 / w)) | ((v != v) & (w != w))
}

// So many words of a table, or all.
pub fn lent(t: &mut [u32], k: usize) -> &mut [u32]
    ensures { IsFront t.entry k result }
{
    if t.len() < k {
        return t;
    }
    &mut t[..k]
}

// The same of 64-bit words.
pub fn lent_longs(t: &mut [u64], k: usize) -> &mut [u64]
    ensures { IsFront t.entry k result }
{
    if t.len() < k {
        return t;
    }
    &mut t[..k]
}

// And of bytes.
pub fn lent_bytes(t: &mut [u8], k: usize) -> &mut [u8]
    ensures { IsFront t.entry k result }
{
    if t.len() < k {
        return t;
    }
    &mut t[..k]
}

fn put_words(words: &[u8], table: &mut [u32])
    ensures { table.new ≡ filled (words_of words.now) (length table.old) table.old }
{
    for i in 0..table.len() {
        table[i] = hbc_io::u32_at(words, 4 * i);
    }
}

// The words that a call is given in field k, of four bytes each, in a table that has room for them.
pub fn given<'r, 't>(fields: &'r [u8], k: usize, table: &'t mut [u32]) -> &'t mut [u32]
    ensures { IsGiven (field_of fields.now k) table.entry result }
{
    let words = field_of(fields, k);
    put_words(words, table);
    lent(table, words.len() / 4)
}

// How many records there are, and how many were answered otherwise.
#[derive(Clone, Copy)]
pub struct Tally {
    pub all: u64,
    pub bad: u64,
}

// One record more, and whether it was answered as is recorded.
pub fn counted(t: Tally, same: bool) -> Tally
    ensures { result ≡ counted_on t same }
{
    let differs = !same as u64;
    Tally {
        all: std::num::wrapping_add_u64(t.all, 1),
        bad: std::num::wrapping_add_u64(t.bad, differs),
    }
}

// A group's line, and the count begins anew. What is written no contract can say.
pub fn report(out: &mut Out, name: &[u8], t: Tally) -> Tally
    ensures { result ≡ tally 0 0 }
{
    out.write_all(name);
    out.write_all(b": ");
    out.print_decimal(t.all);
    out.write_all(b" records, ");
    out.print_decimal(t.bad);
    out.write_all(b" differ\n");
    Tally { all: 0, bad: 0 }
}
