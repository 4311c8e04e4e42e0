// The calls of hbc_bits and of the cursor layer for C and Rust, each behind an export of hbc_c. The cursor goes in and comes back at `at`;
// a value and its mark are written only where one was read.
#![tactic(auto)]

ghost use Rattle.std.specs.Prelude.{◌≡◌};
ghost use Rattle.std.specs.Float.Ieee.{of_bits};
ghost use Rattle.std.specs.Float.{binary64};
ghost use Rattle.hbc_bits.specs.Bits.{field};
ghost use Rattle.hbc_io.specs.Answers.{says};
ghost use Rattle.hbc_io.specs.Outcome.{cursor_at, left, valued, twos};
ghost use Rattle.hbc_io.specs.Plain.{plain_at, seek_to, align_to, bytes_at};
ghost use Rattle.hbc_io_leb.specs.Leb.{leb_bytes, unsigned_of, signed_of, exact_unsigned, exact_signed};
ghost use Rattle.hbc_io_strings.specs.Strings.{zero_ended, prefixed, marked_at};
ghost use Rattle.hbc_io_strings.specs.declared.Prefixed.{Prefixed};
ghost use Rattle.hbc_c_code.specs.Told.{Moves, Reads};
ghost use Rattle.hbc_c_io.specs.Io.{ReadsSpan, Marked};

use hbc_c_code::{moved, refused};
use hbc_io::{Cursor, Read, Span};

fn read<T: Copy>(answer: Read<T>, at: &mut usize, value: &mut T) -> u64
    ensures { Reads (says answer) value.old result at.new value.new }
{
    match answer {
        Ok((v, next)) => {
            *value = v;
            *at = next.at;
            0
        }
        Err(stopped) => refused(stopped, at),
    }
}

// The three numbers of a span are lent apart, as the exports have them (the C interface).
fn span(answer: Read<Span>, at: &mut usize, start: &mut usize, size: &mut usize) -> u64
    ensures { ReadsSpan (says answer) start.old size.old result at.new start.new size.new }
{
    match answer {
        Ok((p, next)) => {
            *start = p.start;
            *size = p.len;
            *at = next.at;
            0
        }
        Err(stopped) => refused(stopped, at),
    }
}

pub fn bits(word: u64, first: u32, width: u32) -> u64
    ensures { result ≡ field first width word }
{
    hbc_bits::bits(word, first, width)
}

pub fn remaining(s: &[u8], at: usize) -> usize
    ensures { result ≡ left s.now (cursor_at at) }
{
    hbc_io::remaining(s, Cursor { at })
}

pub fn seek(s: &[u8], at: &mut usize, to: usize) -> u64
    ensures { Moves (seek_to s.now (cursor_at at.old) to) result at.new }
{
    moved(hbc_io::seek(s, Cursor { at: *at }, to), at)
}

pub fn align(s: &[u8], at: &mut usize, alignment: usize) -> u64
    ensures { Moves (align_to s.now (cursor_at at.old) alignment) result at.new }
{
    moved(hbc_io::align(s, Cursor { at: *at }, alignment), at)
}

pub fn read_u8(s: &[u8], at: &mut usize, value: &mut u8) -> u64
    ensures { Reads (plain_at 1 s.now (cursor_at at.old)) value.old result at.new value.new }
{
    read(hbc_io::read_u8(s, Cursor { at: *at }), at, value)
}

pub fn read_i8(s: &[u8], at: &mut usize, value: &mut i8) -> u64
    ensures { Reads (valued (twos 8) (plain_at 1 s.now (cursor_at at.old))) value.old
        result at.new value.new }
{
    read(hbc_io::read_i8(s, Cursor { at: *at }), at, value)
}

pub fn read_u16(s: &[u8], at: &mut usize, value: &mut u16) -> u64
    ensures { Reads (plain_at 2 s.now (cursor_at at.old)) value.old result at.new value.new }
{
    read(hbc_io::read_u16(s, Cursor { at: *at }), at, value)
}

pub fn read_u32(s: &[u8], at: &mut usize, value: &mut u32) -> u64
    ensures { Reads (plain_at 4 s.now (cursor_at at.old)) value.old result at.new value.new }
{
    read(hbc_io::read_u32(s, Cursor { at: *at }), at, value)
}

pub fn read_u64(s: &[u8], at: &mut usize, value: &mut u64) -> u64
    ensures { Reads (plain_at 8 s.now (cursor_at at.old)) value.old result at.new value.new }
{
    read(hbc_io::read_u64(s, Cursor { at: *at }), at, value)
}

pub fn read_i32(s: &[u8], at: &mut usize, value: &mut i32) -> u64
    ensures { Reads (valued (twos 32) (plain_at 4 s.now (cursor_at at.old))) value.old
        result at.new value.new }
{
    read(hbc_io::read_i32(s, Cursor { at: *at }), at, value)
}

pub fn read_f64(s: &[u8], at: &mut usize, value: &mut f64) -> u64
    ensures { Reads (valued (of_bits binary64) (plain_at 8 s.now (cursor_at at.old))) value.old
        result at.new value.new }
{
    read(hbc_io::read_f64(s, Cursor { at: *at }), at, value)
}

pub fn read_uleb128(s: &[u8], at: &mut usize, value: &mut u64, exact: &mut u32) -> u64
    ensures { Marked
        (Reads (valued unsigned_of (leb_bytes s.now (cursor_at at.old))) value.old
        result at.new value.new)
        (valued exact_unsigned (leb_bytes s.now (cursor_at at.old))) exact.old exact.new }
{
    match hbc_io_leb::read_uleb128(s, Cursor { at: *at }) {
        Ok((v, next)) => {
            *value = v.value;
            *exact = v.exact as u32;
            *at = next.at;
            0
        }
        Err(stopped) => refused(stopped, at),
    }
}

pub fn read_sleb128(s: &[u8], at: &mut usize, value: &mut i64, exact: &mut u32) -> u64
    ensures { Marked
        (Reads (valued signed_of (leb_bytes s.now (cursor_at at.old))) value.old
        result at.new value.new)
        (valued exact_signed (leb_bytes s.now (cursor_at at.old))) exact.old exact.new }
{
    match hbc_io_leb::read_sleb128(s, Cursor { at: *at }) {
        Ok((v, next)) => {
            *value = v.value;
            *exact = v.exact as u32;
            *at = next.at;
            0
        }
        Err(stopped) => refused(stopped, at),
    }
}

pub fn read_bytes(s: &[u8], at: &mut usize, len: usize, start: &mut usize, size: &mut usize) -> u64
    ensures { ReadsSpan (bytes_at len s.now (cursor_at at.old)) start.old size.old
        result at.new start.new size.new }
{
    span(
        hbc_io::read_bytes(s, Cursor { at: *at }, len),
        at,
        start,
        size,
    )
}

pub fn read_cstring(s: &[u8], at: &mut usize, start: &mut usize, size: &mut usize) -> u64
    ensures { ReadsSpan (zero_ended s.now (cursor_at at.old)) start.old size.old
        result at.new start.new size.new }
{
    span(
        hbc_io_strings::read_cstring(s, Cursor { at: *at }),
        at,
        start,
        size,
    )
}

pub fn read_length_prefixed_string(
    s: &[u8],
    at: &mut usize,
    start: &mut usize,
    size: &mut usize,
    exact: &mut u32,
) -> u64
    ensures { Marked
        (ReadsSpan (prefixed s.now (cursor_at at.old)) start.old size.old
        result at.new start.new size.new)
        (valued (λ (p : Prefixed). p.exact) (marked_at s.now (cursor_at at.old))) exact.old exact.new }
{
    match hbc_io_strings::read_length_prefixed_string(s, Cursor { at: *at }) {
        Ok((p, next)) => {
            *start = p.span.start;
            *size = p.span.len;
            *exact = p.exact as u32;
            *at = next.at;
            0
        }
        Err(stopped) => refused(stopped, at),
    }
}
