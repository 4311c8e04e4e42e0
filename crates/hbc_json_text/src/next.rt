// The next of what is escaped: in bytes, eight of them at once, and in units of UTF-16.
ghost use Rattle.std.specs.Prelude.{◌≡◌, true, false, ◌+◌, ◌*◌, ◌%◌, ◌≤◌, length};
ghost use Rattle.hbc_json_forms.specs.Json.{is_quote, is_escaped};
ghost use Rattle.hbc_json_text.specs.Private.{step_of, Even, AllClear, Passed, Next};

use crate::units::Units;

pub(crate) fn is_quote(b: u8) -> bool
    ensures { result ≡ is_quote b }
{
    (b == 0x22) | (b == 0x5C)
}

fn is_escaped(b: u8) -> bool
    ensures { result ≡ is_escaped b }
{
    (b < 0x20) | is_quote(b)
}

// Whether any of eight bytes is escaped: all are tested, so that it is a few tests of eight bytes at once.
fn any_escaped(s: &[u8], at: usize) -> bool
    requires { at + 8 ≤ length s.now }
    ensures { result ≡ false → AllClear s.now at 8 }
{
    is_escaped(s[at])
        | is_escaped(s[at + 1])
        | is_escaped(s[at + 2])
        | is_escaped(s[at + 3])
        | is_escaped(s[at + 4])
        | is_escaped(s[at + 5])
        | is_escaped(s[at + 6])
        | is_escaped(s[at + 7])
}

// Eights that are clear, from a place on, and the last eight. That the place is within the bytes is of this place alone, here and in both functions below.
fn blocks(s: &[u8], at: usize) -> usize
    requires { at ≤ length s.now }
    ensures { Passed s.now at result }
{
    let mut e = at;
    // where the eights end is used behind the loop, and a range would not keep it
    while 8 <= s.len() - e {
        if any_escaped(s, e) {
            return e;
        } else {
            e += 8;
        }
    }
    // some of the last eight were passed already
    if e < 8 {
        return e;
    }
    if any_escaped(s, s.len() - 8) {
        return e;
    }
    s.len()
}

fn next_byte(s: &[u8], at: usize) -> usize
    requires { at ≤ length s.now }
    ensures { Next false s.now at result }
{
    for e in blocks(s, at)..s.len() {
        if is_escaped(s[e]) {
            return e;
        }
    }
    s.len()
}

// Whether the unit at a place is escaped.
fn is_unit_escaped(low: u8, high: u8) -> bool
    ensures { result ≡ is_escaped (low + 256 * high) }
{
    (high == 0) & is_escaped(low)
}

fn next_unit(s: &[u8], at: usize) -> usize
    requires { (at ≤ length s.now) × (at % 2 ≡ 0) × (length s.now % 2 ≡ 0) }
    ensures { Next true s.now at result }
{
    for e in (at..s.len()).step_by(2) {
        if is_unit_escaped(s[e], s[e + 1]) {
            return e;
        }
    }
    s.len()
}

impl Units<'_> {
    // How many bytes a byte, or a unit of UTF-16, has.
    pub(crate) fn step(self) -> usize
        ensures { result ≡ step_of self.entry.wide }
    {
        if self.wide { 2 } else { 1 }
    }

    // Where the next is escaped soon after the one before, bytes below 0x80 are taken by themselves, so many of them: no piece is looked for.
    pub(crate) fn follow(self, at: usize, alone: usize) -> usize
        requires { (at ≤ length self.bytes.now) × Even self.wide at }
        ensures { Next self.entry.wide self.entry.bytes.now at result }
    {
        if self.wide {
            return self.next(at);
        }
        if alone == 0 {
            return self.next(at);
        }
        if at < self.bytes.len() {
            if self.bytes[at] < 0x80 {
                return at;
            }
        }
        self.next(at)
    }

    // The next from a place on, or the end.
    pub(crate) fn next(self, at: usize) -> usize
        requires { (at ≤ length self.bytes.now) × Even self.wide at }
        ensures { Next self.entry.wide self.entry.bytes.now at result }
    {
        if self.wide {
            return next_unit(self.bytes, at);
        }
        next_byte(self.bytes, at)
    }
}
