// A string's bytes as the inside of a JSON string: their text, with what is escaped. Most strings have nothing to escape: their text is written at once.
// In others the pieces between are, and what is escaped by itself. Nothing is written before it is known that there is room.
#![tactic(auto)]

ghost use Rattle.std.specs.Prelude.{◌≡◌, true, false, ◌+◌, ◌≤◌, ◌<◌, length, leb};
ghost use Rattle.std.proofs.lemmas.List.Edits.{sets};
ghost use Rattle.hbc_io.specs.Outcome.{limit};
ghost use Rattle.hbc_io.specs.Answers.{answered};
ghost use Rattle.hbc_text_forms.specs.Text.{text_answer, put_answer, over, PutText};
ghost use Rattle.hbc_json_forms.specs.Json.{escape, escaped, text_in};
ghost use Rattle.hbc_json_text.specs.Private.{step_of, Even, piece};

mod next;
mod put;
mod units;

use crate::next::is_quote;
use crate::put::put_escape;
use crate::units::Units;
use hbc_io::{LIMIT, Reason, refuse};
use hbc_text_forms::Text;
use hbc_text_utf8::utf8_length;
use hbc_text_utf16::utf16_length;

fn text_length(s: &[u8], wide: bool, room: usize) -> Text
    ensures { answered result ≡ put_answer (text_in wide s.now) s.now room }
{
    if s.len() == 0 {
        return Ok(0);
    }
    if wide {
        return utf16_length(s, room);
    }
    utf8_length(s, room)
}

// How many bytes are still taken by themselves: eight behind one that was looked for.
fn fewer(alone: usize) -> usize {
    if alone == 0 {
        return 8;
    }
    alone - 1
}

// How many bytes the escape of a byte has.
fn escape_length(b: u8) -> usize
    ensures { (result ≡ length (escape b)) × (result < 7) }
{
    if is_quote(b) {
        return 2;
    }
    if b < 0x20 {
        return 6;
    }
    1
}

impl Units<'_> {
    // The text of the bytes from a place to another.
    fn piece_length(self, at: usize, e: usize, room: usize) -> Text
        requires { (at ≤ e) × (e ≤ length self.bytes.now) }
        ensures { answered result ≡ text_answer (piece self.entry.wide self.entry.bytes.now at e) room }
    {
        text_length(&self.bytes[at..e], self.wide, room)
    }

    // How many bytes are written, or 4 where they are more than the room.
    fn measure(self, room: usize) -> Text
        ensures { answered result ≡ text_answer (escaped (text_in self.entry.wide self.entry.bytes.now)) room }
    {
        let mut at: usize = 0;
        let mut n: usize = 0;
        let mut alone: usize = 0;
        let mut e = self.next(0);
        // the next place is where the next stands that is escaped
        while e < self.bytes.len() {
            n += self.piece_length(at, e, room - n)?;
            let k = escape_length(self.bytes[e]);
            if room - n < k {
                return Err(refuse(Reason::TooFewRows as u32, 0));
            }
            n += k;
            at = e + self.step();
            alone = fewer(alone);
            e = self.follow(at, alone);
        }
        Ok(n + self.piece_length(at, e, room - n)?)
    }

    // All of it, for which there is room; the answer is its length.
    fn put_all(self, d: &mut [u8]) -> usize
        requires { length (escaped (text_in self.wide self.bytes.now)) ≤ length d.old }
        ensures { (result ≡ length (escaped (text_in self.entry.wide self.entry.bytes.now)))
            × (d.new ≡ over (escaped (text_in self.entry.wide self.entry.bytes.now)) d.old) }
    {
        let mut at: usize = 0;
        let mut n: usize = 0;
        let mut alone: usize = 0;
        let mut e = self.next(0);
        // the next place is where the next stands that is escaped
        while e < self.bytes.len() {
            n += self.put_piece(at, e, d, n);
            n += put_escape(d, n, self.bytes[e]);
            at = e + self.step();
            alone = fewer(alone);
            e = self.follow(at, alone);
        }
        n + self.put_piece(at, e, d, n)
    }

    // Whether there is room: none is counted where there is six times as much as bytes are read.
    #[tactic(auto, using(crate::proofs::Loops::room_for_any, hbc_text_forms::proofs::Exits::fits))]
    fn enough(self, room: usize) -> bool
        ensures { result ≡ leb (length (escaped (text_in self.entry.wide self.entry.bytes.now))) room }
    {
        if self.bytes.len() <= room / 6 {
            return true;
        }
        self.measure(room).is_ok()
    }
}

// Whether a number of bytes ends in half a unit: UTF-16 has the empty text then.
fn is_odd(n: usize, wide: bool) -> bool
    ensures { (result ≡ true → Even wide n → ⊥) × (result ≡ false → Even wide n) }
{
    if wide {
        return n % 2 != 0;
    }
    false
}

// What escaped_text answers into so much room, nothing being written.
pub fn escaped_length(s: &[u8], wide: bool, room: usize) -> Text
    ensures { answered result ≡ put_answer (escaped (text_in wide s.now)) s.now room }
{
    if LIMIT < s.len() {
        return Err(refuse(Reason::TooLong as u32, 0));
    }
    if is_odd(s.len(), wide) {
        return Ok(0);
    }
    Units { bytes: s, wide }.measure(room)
}

// The text of bytes with what is escaped, in front of what is lent, whole or not at all.
pub fn escaped_text(s: &[u8], wide: bool, d: &mut [u8]) -> Text
    ensures { PutText (escaped (text_in wide s.now)) s.now d.old result d.new }
{
    if LIMIT < s.len() {
        return Err(refuse(Reason::TooLong as u32, 0));
    }
    if is_odd(s.len(), wide) {
        return Ok(0);
    }
    let units = Units { bytes: s, wide };
    if units.enough(d.len()) {
        return Ok(units.put_all(d));
    }
    Err(refuse(Reason::TooFewRows as u32, 0))
}
