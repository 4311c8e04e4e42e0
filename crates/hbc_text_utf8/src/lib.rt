// The text of bytes in UTF-8. Most bytes are characters, which are their own text: they are passed in one loop and copied at once,
// and what is not is taken part by part. Nothing is written before it is known that there is room.
#![tactic(auto)]

ghost use Rattle.std.specs.Prelude.{◌≡◌, length, leb};
ghost use Rattle.hbc_io.specs.Answers.{answered};
ghost use Rattle.hbc_text_forms.specs.Utf8.{utf8_text};
ghost use Rattle.hbc_text_forms.specs.Text.{text_answer, put_answer, PutText};
ghost use Rattle.hbc_text_utf8.specs.Private.{Run};

mod parts;
mod put;
mod runs;

use crate::parts::part;
use crate::runs::{blocks, run};
use hbc_io::{LIMIT, Reason, refuse};
use hbc_text_forms::Text;

// Bytes, and where the characters from their beginning on end.
#[derive(Clone, Copy)]
struct Begun<'a> {
    bytes: &'a [u8],
    first: usize,
    ghost run: { Run bytes.now 0 first },
}

impl<'a> Begun<'a> {
    fn of(bytes: &'a [u8]) -> Begun<'a>
        ensures { result.bytes.now ≡ bytes.now }
    {
        Begun {
            bytes,
            first: run(bytes, blocks(bytes)),
        }
    }

    // The text's length, or 4 where it is more than the room, counted part by part.
    fn counted(self, room: usize) -> Text
        ensures { answered result ≡ text_answer (utf8_text self.entry.bytes.now) room }
    {
        if room < self.first {
            return Err(refuse(Reason::TooFewRows as u32, 0));
        }
        let mut e = self.first;
        let mut n = self.first;
        // the next place is where the characters end behind a part
        while e < self.bytes.len() {
            let at = e + part(self.bytes, e);
            e = run(self.bytes, at);
            let k = 3 + (e - at);
            if room - n < k {
                return Err(refuse(Reason::TooFewRows as u32, 0));
            }
            n += k;
        }
        Ok(n)
    }

    // Whether the text fits the room. None is counted where there is room for any text: it has at most three bytes for each that is read.
    #[tactic(auto, using(crate::proofs::Measuring::room_for_any, hbc_text_forms::proofs::Exits::fits))]
    fn enough(self, room: usize) -> bool
        ensures { result ≡ leb (length (utf8_text self.entry.bytes.now)) room }
    {
        if self.bytes.len() <= room / 3 {
            return true;
        }
        self.counted(room).is_ok()
    }
}

// What utf8_text answers into so much room, nothing being written.
pub fn utf8_length(s: &[u8], room: usize) -> Text
    ensures { answered result ≡ put_answer (utf8_text s.now) s.now room }
{
    if LIMIT < s.len() {
        return Err(refuse(Reason::TooLong as u32, 0));
    }
    Begun::of(s).counted(room)
}

// The text of bytes in front of what is lent, whole or not at all.
pub fn utf8_text(s: &[u8], d: &mut [u8]) -> Text
    ensures { PutText (utf8_text s.now) s.now d.old result d.new }
{
    if LIMIT < s.len() {
        return Err(refuse(Reason::TooLong as u32, 0));
    }
    let begun = Begun::of(s);
    if begun.enough(d.len()) {
        return Ok(begun.put(d));
    }
    Err(refuse(Reason::TooFewRows as u32, 0))
}
