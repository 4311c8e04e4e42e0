// The part that a byte begins, by the table's row.
ghost use Rattle.std.specs.Prelude.{◌≡◌, ◌≤◌, ◌<◌, length, drop};
ghost use Rattle.hbc_text_forms.specs.Utf8.{row_of};
ghost use Rattle.hbc_text_utf8.specs.Private.{low_of, high_of, is_in, agree_at, part_at};

// How many bytes the row of a first byte has, 0 where it has none.
fn width(b: u8) -> usize
    ensures { result ≡ length (row_of b) }
{
    if b < 0x80 {
        return 1;
    }
    if b < 0xC2 {
        return 0;
    }
    if b < 0xE0 {
        return 2;
    }
    if b < 0xF0 {
        return 3;
    }
    if b < 0xF5 {
        return 4;
    }
    0
}

// The least second byte after a first one.
pub(crate) fn low(b: u8) -> u8
    ensures { result ≡ low_of b }
{
    if b == 0xE0 {
        return 0xA0;
    }
    if b == 0xF0 {
        return 0x90;
    }
    0x80
}

// The greatest.
pub(crate) fn high(b: u8) -> u8
    ensures { result ≡ high_of b }
{
    if b == 0xED {
        return 0x9F;
    }
    if b == 0xF4 {
        return 0x8F;
    }
    0xBF
}

// Whether there is a byte at a place, from lo to hi.
fn between(s: &[u8], at: usize, lo: u8, hi: u8) -> bool
    ensures { result ≡ is_in lo hi (drop at s.now) }
{
    if at < s.len() {
        if s[at] < lo {
            return false;
        }
        if hi < s[at] {
            return false;
        }
        return true;
    }
    false
}

// How many bytes from a place on go on in a row of n bytes, whose second is from lo to hi.
fn follow(s: &[u8], at: usize, n: usize, lo: u8, hi: u8) -> usize
    requires { at ≤ length s.now }
    ensures { (result ≡ agree_at n lo hi (drop at s.now)) × (result < 4) }
{
    if n < 2 {
        return 0;
    }
    if between(s, at, lo, hi) {
        if n == 2 {
            return 1;
        }
        if between(s, at + 1, 0x80, 0xBF) {
            if n == 3 {
                return 2;
            }
            if between(s, at + 2, 0x80, 0xBF) {
                return 3;
            }
            return 2;
        }
        return 1;
    }
    0
}

// How many bytes the part has that begins at a place.
pub(crate) fn part(s: &[u8], at: usize) -> usize
    requires { at < length s.now }
    ensures { result ≡ part_at s.now at }
{
    let b = s[at];
    let n = width(b);
    follow(s, at + 1, n, low(b), high(b)) + 1
}
