// All strings as one JSON array, written whole or not at all. Where there is room for any strings of these lengths none is measured.
#![tactic(auto)]

ghost use Rattle.std.specs.Prelude.{◌≡◌, true, ◌+◌, ◌≤◌, length, leb};
ghost use Rattle.std.proofs.lemmas.List.Edits.{sets};
ghost use Rattle.hbc_io.specs.Outcome.{limit};
ghost use Rattle.hbc_io.specs.Answers.{answered};
ghost use Rattle.hbc_rows.specs.Rows.{rows};
ghost use Rattle.hbc_table_strings.specs.Row.{string_width};
ghost use Rattle.hbc_text_forms.specs.Text.{text_answer, over};
ghost use Rattle.hbc_json.specs.StringsJson.{strings_json, StringsJson};
ghost use Rattle.hbc_json.specs.Private.{inside};

use hbc_io::{LIMIT, Reason, refuse};
use hbc_json_text::{escaped_length, escaped_text};
use hbc_table_bytes::string_bytes;
use hbc_table_strings::STRING_WIDTH;
use hbc_text::is_marked;
use hbc_text_forms::Text;

// The strings of the first rows, so many, of a storage that is not too long.
#[derive(Clone, Copy)]
struct Strings<'a> {
    storage: &'a [u8],
    rows: &'a [u32],
    count: usize,
    ghost few: { length storage.now ≤ limit },
}

impl Strings<'_> {
    // Whether there is room for any strings of these lengths: two brackets, and for each string two quotes, a comma and six times its bytes.
    fn is_ample(self, room: usize) -> bool
        ensures { result ≡ true → length (strings_json self.entry.storage.now self.entry.rows.now self.entry.count) ≤ room }
    {
        if room < 2 {
            return false;
        }
        let mut left = room - 2;
        for k in 0..self.count {
            let n = 3 + 6 * string_bytes(self.storage, self.rows, k).len();
            if left < n {
                return false;
            }
            left -= n;
        }
        true
    }

    // How many bytes a string has between its quotes, or 4 where they are more than the room.
    fn inside_length(self, k: usize, room: usize) -> Text
        ensures { answered result ≡ text_answer (inside self.entry.storage.now self.entry.rows.now k) room }
    {
        escaped_length(
            string_bytes(self.storage, self.rows, k),
            is_marked(self.rows, k),
            room,
        )
    }

    // Whether the array fits, measured string by string.
    fn measure(self, room: usize) -> bool
        ensures { result ≡ leb (length (strings_json self.entry.storage.now self.entry.rows.now self.entry.count)) room }
    {
        if self.count == 0 {
            return 2 <= room;
        }
        if room == 0 {
            return false;
        }
        let mut n: usize = 1;
        for k in 0..self.count {
            if room - n < 3 {
                return false;
            }
            let Ok(m) = self.inside_length(k, room - n - 3) else {
                return false;
            };
            n += 3 + m;
        }
        true
    }

    // Whether the array fits.
    fn enough(self, room: usize) -> bool
        ensures { result ≡ leb (length (strings_json self.entry.storage.now self.entry.rows.now self.entry.count)) room }
    {
        if self.is_ample(room) {
            return true;
        }
        self.measure(room)
    }

    // What a string has between its quotes, from a place on; the answer is its length.
    fn put_inside(self, k: usize, out: &mut [u8], at: usize) -> usize
        requires { at + length (inside self.storage.now self.rows.now k) ≤ length out.old }
        ensures { (result ≡ length (inside self.entry.storage.now self.entry.rows.now k))
            × (out.new ≡ sets out.old at (inside self.entry.storage.now self.entry.rows.now k)) }
    {
        // nothing is refused where there is room
        escaped_text(
            string_bytes(self.storage, self.rows, k),
            is_marked(self.rows, k),
            &mut out[at..],
        )
        .unwrap_or(0)
    }

    // The array, for which there is room; the answer is its length. Before each string stands a comma, before the first the bracket.
    fn put_array(self, out: &mut [u8]) -> usize
        requires { length (strings_json self.storage.now self.rows.now self.count) ≤ length out.old }
        ensures { (result ≡ length (strings_json self.entry.storage.now self.entry.rows.now self.entry.count))
            × (out.new ≡ over (strings_json self.entry.storage.now self.entry.rows.now self.entry.count) out.old) }
    {
        if self.count == 0 {
            out[0] = 0x5B;
            out[1] = 0x5D;
            return 2;
        }
        let mut lead: u8 = 0x5B;
        let mut n: usize = 0;
        for k in 0..self.count {
            out[n] = lead;
            out[n + 1] = 0x22;
            let m = self.put_inside(k, out, n + 2);
            out[n + 2 + m] = 0x22;
            n += 3 + m;
            lead = 0x2C;
        }
        out[n] = 0x5D;
        n + 1
    }
}

// The texts of the first `count` rows as one array, in front of what is lent.
pub fn strings_json(storage: &[u8], rows: &[u32], count: usize, out: &mut [u8]) -> Text
    ensures { StringsJson storage.now rows.now count out.old result out.new }
{
    if LIMIT < storage.len() {
        return Err(refuse(Reason::TooLong as u32, 0));
    }
    if rows.len() / STRING_WIDTH < count {
        return Err(refuse(Reason::TooFewToRead as u32, 0));
    }
    let strings = Strings {
        storage,
        rows,
        count,
    };
    if strings.enough(out.len()) {
        return Ok(strings.put_array(out));
    }
    Err(refuse(Reason::TooFewRows as u32, 0))
}
