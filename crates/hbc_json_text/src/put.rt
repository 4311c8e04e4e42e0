// A piece of text and an escape, written from a place on.
ghost use Rattle.std.specs.Prelude.{◌≡◌, Bool, ◌+◌, ◌≤◌, ◌<◌, length};
ghost use Rattle.std.proofs.lemmas.List.Edits.{sets};
ghost use Rattle.hbc_io.specs.Outcome.{limit};
ghost use Rattle.hbc_text_forms.specs.Text.{PutText};
ghost use Rattle.hbc_json_forms.specs.Json.{hex_digit, escape, text_in};
ghost use Rattle.hbc_json_text.specs.Private.{piece};

use crate::next::is_quote;
use crate::units::Units;
use hbc_text_forms::Text;
use hbc_text_utf8::utf8_text;
use hbc_text_utf16::utf16_text;

fn put_text(s: &[u8], wide: bool, d: &mut [u8]) -> Text
    ensures { PutText (text_in wide s.now) s.now d.old result d.new }
{
    if wide {
        return utf16_text(s, d);
    }
    utf8_text(s, d)
}

impl Units<'_> {
    // The text of the bytes from a place to another, for which there is room; the answer is its length.
    pub(crate) fn put_piece(self, at: usize, e: usize, d: &mut [u8], n: usize) -> usize
        requires { (at ≤ e) × (e ≤ length self.bytes.now) × (n + length (piece self.wide self.bytes.now at e) ≤ length d.old) }
        ensures { (result ≡ length (piece self.entry.wide self.entry.bytes.now at e))
            × (d.new ≡ sets d.old n (piece self.entry.wide self.entry.bytes.now at e)) }
    {
        if at == e {
            return 0;
        }
        // nothing is refused where there is room
        put_text(&self.bytes[at..e], self.wide, &mut d[n..]).unwrap_or(0)
    }
}

// A hex digit, lowercase.
fn hex_digit(n: u8) -> u8
    requires { n < 16 }
    ensures { result ≡ hex_digit n }
{
    if n < 10 {
        return 0x30 + n;
    }
    0x57 + n
}

// The escape of a byte; the answer is its length.
pub(crate) fn put_escape(d: &mut [u8], at: usize, b: u8) -> usize
    requires { at + length (escape b) ≤ length d.old }
    ensures { (result ≡ length (escape b)) × (d.new ≡ sets d.old at (escape b)) }
{
    if is_quote(b) {
        d[at] = 0x5C;
        d[at + 1] = b;
        return 2;
    }
    if b < 0x20 {
        d[at] = 0x5C;
        d[at + 1] = 0x75;
        d[at + 2] = 0x30;
        d[at + 3] = 0x30;
        d[at + 4] = hex_digit(b / 16);
        d[at + 5] = hex_digit(b % 16);
        return 6;
    }
    d[at] = b;
    1
}
