// The text of bytes in UTF-16 little-endian, written whole or not at all: whether it fits is known before any of it is written.
#![tactic(auto)]

ghost use Rattle.std.specs.Prelude.{◌≡◌, ◌+◌, ◌%◌, ◌≤◌, ◌<◌, leb, length};
ghost use Rattle.std.proofs.lemmas.List.Edits.{sets};
ghost use Rattle.hbc_io.specs.Outcome.{limit};
ghost use Rattle.hbc_io.specs.Answers.{answered};
ghost use Rattle.hbc_text_forms.specs.Scalars.{encode};
ghost use Rattle.hbc_text_forms.specs.Utf16.{is_high, is_low, is_surrogate, utf16_text};
ghost use Rattle.hbc_text_forms.specs.Text.{over, put_answer, PutText};
ghost use Rattle.hbc_text_utf16.specs.Private.{unit_at, code_at, text_of, weight_of};

use hbc_io::{LIMIT, Reason, refuse};
use hbc_text_forms::Text;

// One scalar value, and how many bytes it was read from.
#[derive(Clone, Copy)]
struct Code {
    taken: usize,
    scalar: u32,
}

fn unit(s: &[u8], at: usize) -> u32
    requires { at + 2 ≤ length s.now }
    ensures { (result ≡ unit_at s.now at) × (result < 65536) }
{
    u32::from(s[at]) + 256 * u32::from(s[at + 1])
}

fn is_surrogate(u: u32) -> bool
    ensures { result ≡ is_surrogate u }
{
    if u < 0xD800 {
        return false;
    }
    if 0xE000 <= u {
        return false;
    }
    true
}

fn is_high(u: u32) -> bool
    ensures { result ≡ is_high u }
{
    if u < 0xD800 {
        return false;
    }
    if 0xDBFF < u {
        return false;
    }
    true
}

fn is_low(u: u32) -> bool
    ensures { result ≡ is_low u }
{
    if u < 0xDC00 {
        return false;
    }
    if 0xDFFF < u {
        return false;
    }
    true
}

// The scalar value at a place. Most units are no surrogates: that is asked first.
fn next(s: &[u8], at: usize) -> Code
    requires { at + 2 ≤ length s.now }
    ensures { result ≡ code_at s.now at }
{
    let u = unit(s, at);
    if is_surrogate(u) {
        if 0xDBFF < u {
            return Code {
                taken: 2,
                scalar: 0xFFFD,
            };
        }
        if s.len() - at < 4 {
            return Code {
                taken: 2,
                scalar: 0xFFFD,
            };
        }
        let v = unit(s, at + 2);
        if is_low(v) {
            return Code {
                taken: 4,
                scalar: 0x10000 + (u - 0xD800) * 1024 + (v - 0xDC00),
            };
        }
        return Code {
            taken: 2,
            scalar: 0xFFFD,
        };
    }
    Code {
        taken: 2,
        scalar: u,
    }
}

// The bytes of a scalar value from a place on; their number is the answer, so that one dispatch tells both.
fn put(d: &mut [u8], at: usize, c: u32) -> usize
    requires { (c < 0x110000) × (at + length (encode c) ≤ length d.old) }
    ensures { (result ≡ length (encode c)) × (d.new ≡ sets d.old at (encode c)) }
{
    if c < 0x80 {
        d[at] = c as u8;
        return 1;
    }
    if c < 0x800 {
        d[at] = (0xC0 + c / 64) as u8;
        d[at + 1] = (0x80 + c % 64) as u8;
        return 2;
    }
    if c < 0x10000 {
        d[at] = (0xE0 + c / 4096) as u8;
        d[at + 1] = (0x80 + c / 64 % 64) as u8;
        d[at + 2] = (0x80 + c % 64) as u8;
        return 3;
    }
    d[at] = (0xF0 + c / 262144) as u8;
    d[at + 1] = (0x80 + c / 4096 % 64) as u8;
    d[at + 2] = (0x80 + c / 64 % 64) as u8;
    d[at + 3] = (0x80 + c % 64) as u8;
    4
}

// How many bytes a unit adds to the text, by the unit before it: of a pair's four the first half adds three and the second one.
fn weight(before: u32, u: u32) -> usize
    requires { u < 65536 }
    ensures { (result ≡ weight_of before u) × (result < 4) }
{
    if is_high(before) & is_low(u) {
        return 1;
    }
    if u < 0x80 {
        return 1;
    }
    if u < 0x800 {
        return 2;
    }
    3
}

// How many bytes the text has, counted unit by unit without a branch. That there are whole units is said in three functions: a type would have to say of
// each byte besides that it is one, which the slice's own type says here.
fn counted(s: &[u8]) -> usize
    requires { (length s.now % 2 ≡ 0) × (length s.now ≤ limit) }
    ensures { result ≡ length (text_of s.now) }
{
    let mut before: u32 = 0;
    let mut n: usize = 0;
    for i in 0..s.len() / 2 {
        let u = unit(s, 2 * i);
        n += weight(before, u);
        before = u;
    }
    n
}

// Whether the text fits the room. It has at most three bytes for each unit: where there is room for those, none are counted.
fn enough(s: &[u8], room: usize) -> bool
    requires { (length s.now % 2 ≡ 0) × (length s.now ≤ limit) }
    ensures { result ≡ leb (length (text_of s.now)) room }
{
    if s.len() / 2 <= room / 3 {
        return true;
    }
    counted(s) <= room
}

// The text of an even number of bytes, for which there is room. ASCII and what is no surrogate have their own arms for speed. A call of its own: as a part of
// an export its loop reads where to write from the stack in each turn.
#[inline(never)]
fn put_text(s: &[u8], d: &mut [u8]) -> usize
    requires { (length s.now % 2 ≡ 0) × (length (text_of s.now) ≤ length d.old) }
    ensures { (result ≡ length (text_of s.now)) × (d.new ≡ over (text_of s.now) d.old) }
{
    let mut at: usize = 0;
    let mut n: usize = 0;
    // the next place is behind a unit or behind a pair
    while at < s.len() {
        let u = unit(s, at);
        if u < 0x80 {
            d[n] = u as u8;
            n += 1;
            at += 2;
        } else if is_surrogate(u) {
            let c = next(s, at);
            n += put(d, n, c.scalar);
            at += c.taken;
        } else {
            n += put(d, n, u);
            at += 2;
        }
    }
    n
}

// What utf16_text answers into so much room, nothing being written.
#[tactic(auto, using(crate::proofs::Whole::length_long, crate::proofs::Whole::length_odd, crate::proofs::Whole::length_small, crate::proofs::Whole::length_is))]
pub fn utf16_length(s: &[u8], room: usize) -> Text
    ensures { answered result ≡ put_answer (utf16_text s.now) s.now room }
{
    if LIMIT < s.len() {
        return Err(refuse(Reason::TooLong as u32, 0));
    }
    if s.len() % 2 != 0 {
        return Ok(0);
    }
    let n = counted(s);
    if room < n {
        return Err(refuse(Reason::TooFewRows as u32, 0));
    }
    Ok(n)
}

// The text of bytes in UTF-16 little-endian in front of what is lent, whole or not at all.
#[tactic(auto, using(crate::proofs::Whole::wide_long, crate::proofs::Whole::wide_room, crate::proofs::Whole::wide_small))]
pub fn utf16_text(s: &[u8], d: &mut [u8]) -> Text
    ensures { PutText (utf16_text s.now) s.now d.old result d.new }
{
    if LIMIT < s.len() {
        return Err(refuse(Reason::TooLong as u32, 0));
    }
    // an odd number of bytes has the empty text
    if s.len() % 2 != 0 {
        return Ok(0);
    }
    if enough(s, d.len()) {
        return Ok(put_text(s, d));
    }
    Err(refuse(Reason::TooFewRows as u32, 0))
}
