// Where the debug section is, and its three parts. Offsets from the file, from the section and from the debug data are three types.
#![tactic(auto)]

ghost use Rattle.std.specs.Prelude.{◌≡◌, ◌+◌, ◌*◌, ◌^◌, ◌≤◌, ◌<◌};
ghost use Rattle.hbc_io.specs.Outcome.{limit};
ghost use Rattle.hbc_debug_parts.specs.Places.{in_file, in_section};
ghost use Rattle.hbc_debug_parts.specs.Parts.{header_word, header_at, data_start, no_part, no_parts, part_at, parts_in, is_empty, FindParts, PartBytes};

use hbc_io::{LIMIT, Reason, Refusal, Span, part, refuse, u32_at};

// The header's bytes.
pub const HEADER_SIZE: usize = 28;

// The offset that stands for no debug section, as 0 does.
pub const NO_SECTION: u32 = 0xFFFF_FFFF;

// A place counted from the file's first byte.
#[derive(Clone, Copy)]
pub struct InFile(pub usize);

// A place counted from the section's first byte.
#[derive(Clone, Copy)]
pub struct InSection(pub usize);

// A place counted from the first byte of the debug data.
#[derive(Clone, Copy)]
pub struct InData(pub usize);

// Bytes of the file.
#[derive(Clone, Copy)]
pub struct Part {
    pub start: InFile,
    pub len: usize,
}

#[derive(Clone, Copy)]
pub struct Parts {
    pub scopes: Part,
    pub callees: Part,
    pub strings: Part,
}

// What was read, and whether every number that was read for it is exact: where the reading failed, those before it.
#[derive(Clone, Copy)]
pub struct Marked<T> {
    pub value: T,
    pub exact: bool,
}

// The seven words of the header.
#[derive(Clone, Copy)]
pub struct Header {
    pub filename_count: u32,
    pub filename_storage_size: u32,
    pub file_region_count: u32,
    pub scope_desc_offset: u32,
    pub textified_callee_offset: u32,
    pub string_table_offset: u32,
    pub debug_data_size: u32,
}

fn section_to_file(section: InFile, at: InSection) -> InFile
    requires { section.0 + at.0 < 2 ^ 64 }
    ensures { result ≡ in_file section at }
{
    InFile(section.0 + at.0)
}

fn data_to_section(blob: InSection, at: InData) -> InSection
    requires { blob.0 + at.0 < 2 ^ 64 }
    ensures { result ≡ in_section blob at }
{
    InSection(blob.0 + at.0)
}

// A word of the header, by its number.
#[tactic(auto, unfolding(crate::specs::Parts::header_word))]
fn word_at(file: &[u8], section: InFile, k: usize) -> u32
    requires { section.0 + 4 * k < 2 ^ 64 }
    ensures { result ≡ header_word file.now section k }
{
    let at = InSection(4 * k);
    let place = section_to_file(section, at);
    u32_at(file, place.0)
}

#[tactic(auto, unfolding(crate::specs::Parts::header_at))]
fn read_header(file: &[u8], section: InFile) -> Header
    requires { section.0 ≤ limit }
    ensures { result ≡ header_at file.now section }
{
    Header {
        filename_count: word_at(file, section, 0),
        filename_storage_size: word_at(file, section, 1),
        file_region_count: word_at(file, section, 2),
        scope_desc_offset: word_at(file, section, 3),
        textified_callee_offset: word_at(file, section, 4),
        string_table_offset: word_at(file, section, 5),
        debug_data_size: word_at(file, section, 6),
    }
}

// Where the debug data begins.
fn data_start(h: Header) -> InSection
    ensures value { result ≡ data_start h }
    ensures result_bound { result.0 < 2 ^ 37 }
{
    InSection(
        HEADER_SIZE
            + 8 * (h.filename_count as usize)
            + (h.filename_storage_size as usize)
            + 12 * (h.file_region_count as usize),
    )
}

fn no_part() -> Part
    ensures { result ≡ no_part }
{
    Part {
        start: InFile(0),
        len: 0,
    }
}

fn no_parts() -> Parts
    ensures { result ≡ no_parts }
{
    Parts {
        scopes: no_part(),
        callees: no_part(),
        strings: no_part(),
    }
}

// The part of the debug data between two places, where `end` is the data's end.
#[tactic(auto, unfolding(crate::specs::Parts::part_at))]
fn part_at(section: InFile, blob: InSection, end: InData, from: InData, to: InData) -> Part
    requires { section.0 + (blob.0 + end.0) < 2 ^ 64 }
    ensures { result ≡ part_at section blob end from to }
{
    if to.0 < from.0 || end.0 < to.0 {
        return no_part();
    }
    Part {
        start: section_to_file(section, data_to_section(blob, from)),
        len: to.0 - from.0,
    }
}

// The three parts, where the file has `left` bytes from the section's first on.
#[tactic(auto, unfolding(crate::specs::Parts::parts_in))]
fn parts_in(left: usize, section: InFile, h: Header) -> Parts
    requires { section.0 + left ≤ limit }
    ensures { result ≡ parts_in left section h }
{
    let blob = data_start(h);
    let scopes = InData(h.scope_desc_offset as usize);
    let callees = InData(h.textified_callee_offset as usize);
    let strings = InData(h.string_table_offset as usize);
    let end = InData(h.debug_data_size as usize);
    let past = data_to_section(blob, end);
    if left < past.0 {
        return no_parts();
    }
    Parts {
        scopes: part_at(section, blob, end, scopes, callees),
        callees: part_at(section, blob, end, callees, strings),
        strings: part_at(section, blob, end, strings, end),
    }
}

// Whether an offset stands for no debug section.
#[tactic(auto, unfolding(crate::specs::Parts::is_empty))]
fn is_empty(len: usize, offset: u32) -> bool
    ensures { result ≡ is_empty len offset }
{
    offset == 0 || offset == NO_SECTION || len <= offset as usize
}

// The three parts of the debug section at `offset`.
#[tactic(auto, unfolding(crate::specs::Parts::parts_of, hbc_io::specs::Lends::below, hbc_io::specs::Lends::choose, crate::specs::Parts::is_empty))]
pub fn find_parts(file: &[u8], offset: u32) -> Result<Parts, Refusal>
    ensures { FindParts file.now offset result }
{
    if LIMIT < file.len() {
        return Err(refuse(Reason::TooLong as u32, 0));
    }
    let at = offset as usize;
    if is_empty(file.len(), offset) {
        return Ok(no_parts());
    }
    if file.len() - at < HEADER_SIZE {
        return Err(refuse(Reason::Cut as u32, 0));
    }
    let section = InFile(at);
    Ok(parts_in(file.len() - at, section, read_header(file, section)))
}

// The bytes of a part.
pub fn part_bytes(file: &[u8], p: Part) -> &[u8]
    ensures { PartBytes file.entry p result }
{
    let span = Span {
        start: p.start.0,
        len: p.len,
    };
    part(file, span)
}
