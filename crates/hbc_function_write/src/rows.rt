// Rows that are lent as words, all of them there, and one of them.
ghost use Rattle.std.specs.Prelude.{ℕ, ◌≡◌, ◌+◌, ◌*◌, ◌^◌, ◌≤◌, ◌<◌, length, get_or};
ghost use Rattle.hbc_rows.specs.Rows.{row_at};
ghost use Rattle.hbc_function_record.specs.Row.{width, record_width};

use hbc_function_record::{RECORD_WIDTH, WIDTH};

#[derive(Clone, Copy)]
pub(crate) struct Rows<'a> {
    pub(crate) words: &'a [u32],
    pub(crate) count: u32,
    pub ghost there: { count * width ≤ length words.now },
    pub ghost small: { (k : ℕ) → get_or words.now k 0 < 2 ^ 32 },
}

#[derive(Clone, Copy)]
pub(crate) struct Row<'a> {
    words: &'a [u32],
    pub ghost whole: { length words.now ≡ width },
    pub ghost small: { (k : ℕ) → get_or words.now k 0 < 2 ^ 32 },
}

impl<'a> Rows<'a> {
    pub(crate) fn row(self, id: u32) -> Row<'a>
        requires { id < self.count }
        ensures { result.words.now ≡ row_at width self.entry.words.now id }
    {
        let at = (id as usize) * WIDTH;
        Row {
            words: &self.words[at..at + WIDTH],
        }
    }
}

// The pairs of a row's record; the place behind it is not looked at.
pub(crate) const PAIRS: usize = RECORD_WIDTH / 2;

// One more than a word of 32 bits holds.
pub(crate) const WORD: u64 = 0x1_0000_0000;

impl Row<'_> {
    ghost use Rattle.hbc_function_write.specs.Private.{paired, halves, clear};

    // Its words. How many they are the compiler is told, and no loop is left.
    pub(crate) fn copied(self) -> [u32; WIDTH]
        ensures { result ≡ self.entry.words.now }
    {
        let mut row = [0u32; WIDTH];
        row.copy_from_slice(&self.words[0..WIDTH]);
        row
    }

    pub(crate) fn word(self, k: usize) -> u32
        requires { k < width }
        ensures { result ≡ get_or self.entry.words.now k 0 }
    {
        self.words[k]
    }

    // Two words from `k` on, the first in the low half: a compiler makes one load of it.
    pub(crate) fn pair(self, k: usize) -> u64
        requires { k + 2 ≤ width }
        ensures { result ≡ paired self.entry.words.now k }
    {
        (self.words[k] as u64) + (self.words[k + 1] as u64) * WORD
    }

    // Whether none of these bits is set: or-ed and asked once, so that there is one branch; by pairs, so that there is half the work.
    pub(crate) fn is_clear(self, masks: [u64; PAIRS]) -> bool
        ensures { result ≡ clear (halves masks) self.entry.words.now record_width }
    {
        let mut set: u64 = 0;
        for k in 0..PAIRS {
            set |= self.pair(k * 2) & masks[k];
        }
        set == 0
    }
}
