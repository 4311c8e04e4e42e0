// The calls of hbc_bits and of the cursor layer. The cursor goes in and comes back at `at`; a value and its mark are written only where one was read.
ghost use Rattle.std.specs.Prelude.{◌≡◌};
ghost use Rattle.std.specs.Float.Ieee.{of_bits};
ghost use Rattle.std.specs.Float.{binary64};
ghost use Rattle.hbc_bits.specs.Bits.{field};
ghost use Rattle.hbc_io.specs.Outcome.{cursor_at, left, valued, twos};
ghost use Rattle.hbc_io.specs.Plain.{plain_at, seek_to, align_to, bytes_at};
ghost use Rattle.hbc_io_leb.specs.Leb.{leb_bytes, unsigned_of, signed_of, exact_unsigned, exact_signed};
ghost use Rattle.hbc_io_strings.specs.Strings.{zero_ended, prefixed, marked_at};
ghost use Rattle.hbc_io_strings.specs.declared.Prefixed.{Prefixed};
ghost use Rattle.hbc_c_code.specs.Told.{Moves, Reads};
ghost use Rattle.hbc_c_io.specs.Io.{ReadsSpan, Marked};

pub fn hbc_bits(word: u64, first: u32, width: u32) -> u64
    ensures { result ≡ field first width word }
{
    hbc_c_io::bits(word, first, width)
}

pub fn hbc_remaining(s: &[u8], at: usize) -> usize
    ensures { result ≡ left s.now (cursor_at at) }
{
    hbc_c_io::remaining(s, at)
}

pub fn hbc_seek(s: &[u8], at: &mut usize, to: usize) -> u64
    ensures { Moves (seek_to s.now (cursor_at at.old) to) result at.new }
{
    hbc_c_io::seek(s, at, to)
}

pub fn hbc_align(s: &[u8], at: &mut usize, alignment: usize) -> u64
    ensures { Moves (align_to s.now (cursor_at at.old) alignment) result at.new }
{
    hbc_c_io::align(s, at, alignment)
}

pub fn hbc_read_u8(s: &[u8], at: &mut usize, value: &mut u8) -> u64
    ensures { Reads (plain_at 1 s.now (cursor_at at.old)) value.old result at.new value.new }
{
    hbc_c_io::read_u8(s, at, value)
}

pub fn hbc_read_i8(s: &[u8], at: &mut usize, value: &mut i8) -> u64
    ensures { Reads (valued (twos 8) (plain_at 1 s.now (cursor_at at.old))) value.old
        result at.new value.new }
{
    hbc_c_io::read_i8(s, at, value)
}

pub fn hbc_read_u16(s: &[u8], at: &mut usize, value: &mut u16) -> u64
    ensures { Reads (plain_at 2 s.now (cursor_at at.old)) value.old result at.new value.new }
{
    hbc_c_io::read_u16(s, at, value)
}

pub fn hbc_read_u32(s: &[u8], at: &mut usize, value: &mut u32) -> u64
    ensures { Reads (plain_at 4 s.now (cursor_at at.old)) value.old result at.new value.new }
{
    hbc_c_io::read_u32(s, at, value)
}

pub fn hbc_read_u64(s: &[u8], at: &mut usize, value: &mut u64) -> u64
    ensures { Reads (plain_at 8 s.now (cursor_at at.old)) value.old result at.new value.new }
{
    hbc_c_io::read_u64(s, at, value)
}

pub fn hbc_read_i32(s: &[u8], at: &mut usize, value: &mut i32) -> u64
    ensures { Reads (valued (twos 32) (plain_at 4 s.now (cursor_at at.old))) value.old
        result at.new value.new }
{
    hbc_c_io::read_i32(s, at, value)
}

pub fn hbc_read_f64(s: &[u8], at: &mut usize, value: &mut f64) -> u64
    ensures { Reads (valued (of_bits binary64) (plain_at 8 s.now (cursor_at at.old))) value.old
        result at.new value.new }
{
    hbc_c_io::read_f64(s, at, value)
}

pub fn hbc_read_uleb128(s: &[u8], at: &mut usize, value: &mut u64, exact: &mut u32) -> u64
    ensures { Marked
        (Reads (valued unsigned_of (leb_bytes s.now (cursor_at at.old))) value.old
        result at.new value.new)
        (valued exact_unsigned (leb_bytes s.now (cursor_at at.old))) exact.old exact.new }
{
    hbc_c_io::read_uleb128(s, at, value, exact)
}

pub fn hbc_read_sleb128(s: &[u8], at: &mut usize, value: &mut i64, exact: &mut u32) -> u64
    ensures { Marked
        (Reads (valued signed_of (leb_bytes s.now (cursor_at at.old))) value.old
        result at.new value.new)
        (valued exact_signed (leb_bytes s.now (cursor_at at.old))) exact.old exact.new }
{
    hbc_c_io::read_sleb128(s, at, value, exact)
}

pub fn hbc_read_bytes(
    s: &[u8],
    at: &mut usize,
    len: usize,
    start: &mut usize,
    size: &mut usize,
) -> u64
    ensures { ReadsSpan (bytes_at len s.now (cursor_at at.old)) start.old size.old
        result at.new start.new size.new }
{
    hbc_c_io::read_bytes(s, at, len, start, size)
}

pub fn hbc_read_cstring(s: &[u8], at: &mut usize, start: &mut usize, size: &mut usize) -> u64
    ensures { ReadsSpan (zero_ended s.now (cursor_at at.old)) start.old size.old
        result at.new start.new size.new }
{
    hbc_c_io::read_cstring(s, at, start, size)
}

pub fn hbc_read_length_prefixed_string(
    s: &[u8],
    at: &mut usize,
    start: &mut usize,
    size: &mut usize,
    exact: &mut u32,
) -> u64
    ensures { Marked
        (ReadsSpan (prefixed s.now (cursor_at at.old)) start.old size.old
        result at.new start.new size.new)
        (valued (λ (p : Prefixed). p.exact) (marked_at s.now (cursor_at at.old))) exact.old exact.new }
{
    hbc_c_io::read_length_prefixed_string(s, at, start, size, exact)
}
