// Characters one after another: the bytes that are their own text, up to where none begins.
ghost use Rattle.std.specs.Prelude.{◌≡◌, true, ◌+◌, ◌≤◌, ◌<◌, length, get_or};
ghost use Rattle.hbc_bits.specs.Bits.{le_at};
ghost use Rattle.hbc_text_forms.specs.Utf8.{◌‥◌, within};
ghost use Rattle.hbc_text_utf8.specs.Private.{AllPlain, Kept, Found, Run};

use crate::parts::{high, low};

// The number of four bytes.
fn four_bytes(s: &[u8], at: usize) -> u32
    requires { at + 4 ≤ length s.now }
    ensures { result ≡ le_at s.now at 4 }
{
    u32::from(s[at])
        + u32::from(s[at + 1]) * 0x100
        + u32::from(s[at + 2]) * 0x1_0000
        + u32::from(s[at + 3]) * 0x100_0000
}

// Of eight, which is one load.
fn eight_bytes(s: &[u8], at: usize) -> u64
    requires { at + 8 ≤ length s.now }
    ensures { result ≡ le_at s.now at 8 }
{
    (four_bytes(s, at) as u64) + (four_bytes(s, at + 4) as u64) * 0x1_0000_0000
}

// Whether eight bytes are all below 0x80: their top bits at once.
fn is_plain(s: &[u8], at: usize) -> bool
    requires { at + 8 ≤ length s.now }
    ensures { result ≡ true → AllPlain s.now at 8 }
{
    eight_bytes(s, at) & 0x8080_8080_8080_8080 == 0
}

// Eights of such bytes from the beginning on: most strings are nothing else.
pub(crate) fn blocks(s: &[u8]) -> usize
    ensures { Kept s.now 0 result }
{
    let mut e: usize = 0;
    // where the eights end is the answer, and a range would not keep it
    while 8 <= s.len() - e {
        if is_plain(s, e) {
            e += 8;
        } else {
            return e;
        }
    }
    // the last eight bytes, of which some were tested already
    if e < 8 {
        return e;
    }
    if is_plain(s, s.len() - 8) {
        return s.len();
    }
    e
}

// A byte that may stand third or fourth.
fn is_follow(b: u8) -> bool
    ensures { result ≡ within (0x80 ‥ 0xBF) b }
{
    if b < 0x80 {
        return false;
    }
    b <= 0xBF
}

// How many bytes the character of two at a place has, 0 where there is none; of three, of four. That there is a byte at the place is of this place alone,
// as in `part`: a type for a place would be made anew at each.
fn two(s: &[u8], at: usize) -> usize
    requires { (at < length s.now) × (0x80 ≤ get_or s.now at 0) × (get_or s.now at 0 < 0xE0) }
    ensures { Found s.now at result }
{
    if s[at] < 0xC2 {
        return 0;
    }
    if s.len() - at < 2 {
        return 0;
    }
    if is_follow(s[at + 1]) {
        return 2;
    }
    0
}

fn three(s: &[u8], at: usize) -> usize
    requires { (at < length s.now) × (0xE0 ≤ get_or s.now at 0) × (get_or s.now at 0 < 0xF0) }
    ensures { Found s.now at result }
{
    if s.len() - at < 3 {
        return 0;
    }
    let b = s[at];
    if s[at + 1] < low(b) {
        return 0;
    }
    if high(b) < s[at + 1] {
        return 0;
    }
    if is_follow(s[at + 2]) {
        return 3;
    }
    0
}

fn four(s: &[u8], at: usize) -> usize
    requires { (at < length s.now) × (0xF0 ≤ get_or s.now at 0) }
    ensures { Found s.now at result }
{
    let b = s[at];
    if 0xF4 < b {
        return 0;
    }
    if s.len() - at < 4 {
        return 0;
    }
    if s[at + 1] < low(b) {
        return 0;
    }
    if high(b) < s[at + 1] {
        return 0;
    }
    if is_follow(s[at + 2]) {
        if is_follow(s[at + 3]) {
            return 4;
        }
        return 0;
    }
    0
}

// The character that a byte from 0x80 up begins.
fn character(s: &[u8], at: usize) -> usize
    requires { (at < length s.now) × (0x80 ≤ get_or s.now at 0) }
    ensures { Found s.now at result }
{
    let b = s[at];
    if b < 0xE0 {
        return two(s, at);
    }
    if b < 0xF0 {
        return three(s, at);
    }
    four(s, at)
}

// Where the characters from a place on end.
pub(crate) fn run(s: &[u8], at: usize) -> usize
    requires { at ≤ length s.now }
    ensures { Run s.now at result }
{
    let mut e = at;
    // the next place is behind a character, which has one to four bytes
    while e < s.len() {
        if s[e] < 0x80 {
            e += 1;
        } else {
            let k = character(s, e);
            if k == 0 {
                return e;
            }
            e += k;
        }
    }
    e
}
