// The format of a function's header: its two layouts, inline and large, where a large one is, and the words of a function's row.
// Every call is total: a header whose bytes are not all there is read as one of zeros.
#![tactic(auto)]

ghost use Rattle.std.specs.Prelude.{◌≡◌, ◌+◌, length, leb};
ghost use Rattle.hbc_io.specs.Plain.{word_at};
ghost use Rattle.hbc_function_record.specs.Record.{size_of, large_of, inline_of, large_in, flags_of, overflowed, link_of};
ghost use Rattle.hbc_function_record.specs.declared.Layout.TheVariants.{Legacy16, Modern12};
ghost use Rattle.hbc_function_record.specs.Row.{inline_found, row_words, layout_of};

use crate::fields::{
    legacy_flagged, legacy_here, legacy_inline, legacy_large, legacy_link, modern_flagged,
    modern_here, modern_inline, modern_large, modern_link, u64_here,
};
use crate::row::{legacy_words, modern_words};
use crate::words::word_here;
use hbc_io::LIMIT;

// The two forms of a function header, by the bytes that an inline one has.
#[derive(Clone, Copy)]
pub enum Layout {
    Legacy16,
    Modern12,
}

// A number that no layout has.
#[derive(Clone, Copy)]
pub struct UnknownLayout {
    pub number: u32,
}

// A layout of its number, as a row's first word and C have it.
impl TryFrom<u32> for Layout {
    type Error = UnknownLayout;

    ghost try_from_gives = { λ n r. r ≡ layout_of n };

    fn try_from(number: u32) -> Result<Layout, UnknownLayout> {
        match number {
            0 => Ok(Layout::Legacy16),
            1 => Ok(Layout::Modern12),
            _ => Err(UnknownLayout { number }),
        }
    }
}

// The fields in the order in which a header holds them; id is the function's number.
#[derive(Clone, Copy)]
pub struct Legacy {
    pub id: u32,
    pub offset: u32,
    pub param_count: u32,
    pub size: u32,
    pub name: u32,
    pub info_offset: u32,
    pub frame_size: u32,
    pub environment_size: u32,
    pub read: u32,
    pub write: u32,
    pub flags: u32,
}

// Likewise; info_offset is not in the header, but made from its place.
#[derive(Clone, Copy)]
pub struct Modern {
    pub id: u32,
    pub offset: u32,
    pub param_count: u32,
    pub loop_depth: u32,
    pub size: u32,
    pub name: u32,
    pub number_reg: u32,
    pub non_ptr_reg: u32,
    pub frame_size: u32,
    pub read_cache: u32,
    pub write_cache: u32,
    pub new_object: u32,
    pub private_name: u32,
    pub flags: u32,
    pub info_offset: u32,
}

#[derive(Clone, Copy)]
pub enum Record {
    Legacy(Legacy),
    Modern(Modern),
}

// What reading a function finds: its record, and the place of the large header that it was read from, INLINE where that was its own.
#[derive(Clone, Copy)]
pub struct Found {
    pub own: Record,
    pub place: u32,
}

pub mod bit_layout;
mod fields;
mod row;
mod words;

// The words of a row, and those of them that are its record's, which come first.
pub const WIDTH: usize = 17;

pub const RECORD_WIDTH: usize = 16;

// Those that both layouts have in the same place.

pub const ROW_LAYOUT: usize = 0;

pub const ROW_ID: usize = 1;

pub const ROW_OFFSET: usize = 2;

pub const ROW_PARAM_COUNT: usize = 3;

pub const ROW_SIZE: usize = 4;

pub const ROW_NAME: usize = 5;

pub const ROW_INFO_OFFSET: usize = 6;

pub const ROW_FRAME_SIZE: usize = 7;

pub const ROW_FLAGS: usize = 8;

// Those of legacy alone.
pub const ROW_ENVIRONMENT_SIZE: usize = 9;

pub const ROW_READ: usize = 10;

pub const ROW_WRITE: usize = 11;

// And of modern.
pub const ROW_LOOP_DEPTH: usize = 9;

pub const ROW_NUMBER_REG: usize = 10;

pub const ROW_NON_PTR_REG: usize = 11;

pub const ROW_READ_CACHE: usize = 12;

pub const ROW_WRITE_CACHE: usize = 13;

pub const ROW_NEW_OBJECT: usize = 14;

pub const ROW_PRIVATE_NAME: usize = 15;

// Behind the record stands the place of its large header, or this where there is none: no place of a file that is read, which is below 2^30.
pub const INLINE: u32 = 0xFFFF_FFFF;

// How many bytes an inline header has.
pub fn header_size(layout: Layout) -> usize
    ensures { result ≡ size_of layout }
{
    match layout {
        Layout::Legacy16 => 16,
        Layout::Modern12 => 12,
    }
}

// How many bytes a large header has.
pub fn large_size(layout: Layout) -> usize
    ensures { result ≡ large_of layout }
{
    match layout {
        Layout::Legacy16 => 31,
        Layout::Modern12 => 37,
    }
}

// Whether the n bytes from `at` on are there.
fn there(s: &[u8], at: usize, n: usize) -> bool
    ensures { result ≡ leb (at + n) (length s.now) }
{
    at <= s.len() && n <= s.len() - at
}

// The record whose fields but id are all 0.
#[tactic(auto, unfolding(crate::specs::Record::inline_of))]
fn zeros(layout: Layout, id: u32) -> Record
    ensures { result ≡ inline_of layout id 0 }
{
    match layout {
        Layout::Legacy16 => Record::Legacy(legacy_inline(0, 0, id)),
        Layout::Modern12 => Record::Modern(modern_inline(0, 0, id)),
    }
}

// The record of the inline header at `at`, of zeros where its bytes are not all there.
#[tactic(auto, unfolding(crate::specs::Record::inline_of, hbc_io::specs::Plain::word_at))]
pub fn inline_record(s: &[u8], layout: Layout, at: usize, id: u32) -> Record
    ensures { result ≡ inline_of layout id (word_at (size_of layout) s.now at) }
{
    if !there(s, at, header_size(layout)) {
        return zeros(layout, id);
    }
    match layout {
        Layout::Legacy16 => Record::Legacy(legacy_here(s, at, id)),
        Layout::Modern12 => Record::Modern(modern_here(s, at, id)),
    }
}

// The record of the large header at `at`, likewise; and of zeros in a file of more than 2^30 bytes, whose places a record does not hold.
#[tactic(auto, unfolding(crate::specs::Record::large_in, crate::specs::Record::large_at, hbc_io::specs::Lends::below))]
pub fn large_record(s: &[u8], layout: Layout, at: usize, id: u32) -> Record
    ensures { result ≡ large_in s.now layout at id }
{
    if LIMIT < s.len() {
        return zeros(layout, id);
    }
    if !there(s, at, large_size(layout)) {
        return zeros(layout, id);
    }
    match layout {
        Layout::Legacy16 => Record::Legacy(legacy_large(s, at, id)),
        Layout::Modern12 => Record::Modern(modern_large(s, at, id)),
    }
}

// The place of the large header that the inline one at `at` is flagged for, if it is; none where its bytes are not all there. No more of the record is made
// than that.
#[tactic(auto, using(crate::proofs::Records::link_zeros, crate::proofs::Records::read_there))]
pub fn header_link(s: &[u8], layout: Layout, at: usize) -> Option<usize>
    ensures { result ≡ link_of (inline_of layout 0 (word_at (size_of layout) s.now at)) }
{
    if !there(s, at, header_size(layout)) {
        return None;
    }
    match layout {
        Layout::Legacy16 => legacy_link(s, at),
        Layout::Modern12 => modern_link(s, at),
    }
}

// Whether the inline header at `at` is flagged for a large one; not where its bytes are not all there.
#[tactic(auto, using(crate::proofs::Records::flag_zeros, crate::proofs::Records::read_there))]
pub fn is_flagged(s: &[u8], layout: Layout, at: usize) -> bool
    ensures { result ≡ overflowed (flags_of (inline_of layout 0 (word_at (size_of layout) s.now at))) }
{
    if !there(s, at, header_size(layout)) {
        return false;
    }
    match layout {
        Layout::Legacy16 => legacy_flagged(s, at),
        Layout::Modern12 => modern_flagged(s, at),
    }
}

// The row of the inline header at `at`, its record of zeros but for layout and id where its bytes are not all there: one call for each layout,
// with nothing of the other in it, for the loops over a table.
#[tactic(auto, unfolding(crate::specs::Record::inline_of), using(crate::proofs::Records::le_legacy, crate::proofs::Records::read_there))]
pub fn legacy_row(s: &[u8], at: usize, id: u32) -> [u32; WIDTH]
    ensures { result ≡ row_words (inline_found Legacy16 id (word_at (size_of Legacy16) s.now at)) }
{
    if !there(s, at, header_size(Layout::Legacy16)) {
        return legacy_words(legacy_inline(0, 0, id), INLINE);
    }
    let lo = u64_here(s, at);
    let hi = u64_here(s, at + 8);
    legacy_words(legacy_inline(lo, hi, id), INLINE)
}

#[tactic(auto, unfolding(crate::specs::Record::inline_of), using(crate::proofs::Records::le_modern, crate::proofs::Records::read_there))]
pub fn modern_row(s: &[u8], at: usize, id: u32) -> [u32; WIDTH]
    ensures { result ≡ row_words (inline_found Modern12 id (word_at (size_of Modern12) s.now at)) }
{
    if !there(s, at, header_size(Layout::Modern12)) {
        return modern_words(modern_inline(0, 0, id), INLINE);
    }
    let lo = u64_here(s, at);
    let hi = word_here(s, at + 8) as u64;
    modern_words(modern_inline(lo, hi, id), INLINE)
}

// The words of a row: the record's, those above and then what only its layout has, and the place.
pub fn row_words(f: Found) -> [u32; WIDTH]
    ensures { result ≡ row_words f }
{
    let own = f.own;
    match own {
        Record::Legacy(l) => legacy_words(l, f.place),
        Record::Modern(m) => modern_words(m, f.place),
    }
}
