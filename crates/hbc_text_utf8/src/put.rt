// The text written: what is kept is copied, the rest is U+FFFD.
ghost use Rattle.std.specs.Prelude.{◌≡◌, ◌+◌, ◌-◌, ◌≤◌, ◌<◌, length, take, drop};
ghost use Rattle.std.proofs.lemmas.List.Edits.{sets};
ghost use Rattle.hbc_text_forms.specs.Utf8.{replacement, utf8_text};
ghost use Rattle.hbc_text_forms.specs.Text.{over};
ghost use Rattle.hbc_text_utf8.specs.Private.{Run};

use crate::Begun;
use crate::parts::part;
use crate::runs::run;

// Eight bytes, all read before any is stored, so that it is one load and one store.
fn move_eight(s: &[u8], d: &mut [u8], at: usize)
    requires { (at + 8 ≤ length s.now) × (at + 8 ≤ length d.old) }
    ensures { d.new ≡ sets d.old at (take 8 (drop at s.now)) }
{
    let b0 = s[at];
    let b1 = s[at + 1];
    let b2 = s[at + 2];
    let b3 = s[at + 3];
    let b4 = s[at + 4];
    let b5 = s[at + 5];
    let b6 = s[at + 6];
    let b7 = s[at + 7];
    d[at] = b0;
    d[at + 1] = b1;
    d[at + 2] = b2;
    d[at + 3] = b3;
    d[at + 4] = b4;
    d[at + 5] = b5;
    d[at + 6] = b6;
    d[at + 7] = b7;
}

// In eights; the last eight may be stored over some that are there already.
fn copy_many(s: &[u8], d: &mut [u8])
    requires { (8 ≤ length s.now) × (length d.old ≡ length s.now) }
    ensures { d.new ≡ s.now }
{
    let last = s.len() - 8;
    let mut i: usize = 0;
    // by eights, for speed: `step_by` asks after each whether there is a next, besides the test of the loop
    while i < last {
        move_eight(s, d, i);
        i += 8;
    }
    move_eight(s, d, last);
}

// What `copy_from_slice` does, which is a call of a function for each piece, however short: most pieces have few bytes.
fn copy(s: &[u8], d: &mut [u8])
    requires { length d.old ≡ length s.now }
    ensures { d.new ≡ s.now }
{
    if s.len() < 8 {
        for i in 0..s.len() {
            d[i] = s[i];
        }
    } else {
        copy_many(s, d);
    }
}

// U+FFFD from a place on.
fn put_replacement(d: &mut [u8], at: usize)
    requires { at + 3 ≤ length d.old }
    ensures { d.new ≡ sets d.old at replacement }
{
    d[at] = 0xEF;
    d[at + 1] = 0xBF;
    d[at + 2] = 0xBD;
}

impl Begun<'_> {
    // The text, for which there is room; the answer is its length.
    pub(crate) fn put(self, d: &mut [u8]) -> usize
        requires { length (utf8_text self.bytes.now) ≤ length d.old }
        ensures { (result ≡ length (utf8_text self.entry.bytes.now)) × (d.new ≡ over (utf8_text self.entry.bytes.now) d.old) }
    {
        let s = self.bytes;
        let mut at: usize = 0;
        let mut e = self.first;
        let mut n: usize = 0;
        // the next place is where the characters end behind a part
        while e < s.len() {
            let m = n + (e - at);
            copy(&s[at..e], &mut d[n..m]);
            put_replacement(d, m);
            n = m + 3;
            at = e + part(s, e);
            e = run(s, at);
        }
        let m = n + (e - at);
        copy(&s[at..e], &mut d[n..m]);
        m
    }
}
