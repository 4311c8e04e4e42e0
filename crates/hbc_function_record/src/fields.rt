// The records of the two layouts, inline and large, and the packed place. The fields stand in the order of the header.
ghost use Rattle.std.specs.Prelude.{◌≡◌, ◌+◌, ◌*◌, ◌^◌, ◌≤◌, length};
ghost use Rattle.hbc_bits.specs.Bits.{le_at};
ghost use Rattle.hbc_io.specs.Outcome.{limit};
ghost use Rattle.hbc_function_record.specs.declared.Layout.TheVariants.{Legacy16, Modern12};
ghost use Rattle.hbc_function_record.specs.Record.{size_of, large_of, legacy_of, modern_of, inline_of, legacy_large, modern_large};
ghost use Rattle.hbc_function_record.specs.Record.{flags_of, overflowed, legacy_place, modern_place, link_of};

use crate::bit_layout::{LEGACY, MODERN, OVERFLOW_BIT};
use crate::words::{cut, word_here};
use crate::{Layout, Legacy, Modern, large_size};
use hbc_bits::bits;
use hbc_io::u8_at;

// The inline legacy record: the fields of lo + 2^64 * hi.
#[tactic(auto, unfolding(crate::specs::Record::legacy_of, crate::specs::Record::legacy_by, hbc_bits::specs::Fields::fields_of))]
pub(crate) fn legacy_inline(lo: u64, hi: u64, id: u32) -> Legacy
    ensures { result ≡ legacy_of id (lo + 2 ^ 64 * hi) }
{
    // a constant is made anew where it is named: once is enough
    let list = LEGACY;
    Legacy {
        id,
        offset: cut(lo, hi, list.offset),
        param_count: cut(lo, hi, list.param_count),
        size: cut(lo, hi, list.size),
        name: cut(lo, hi, list.name),
        info_offset: cut(lo, hi, list.info_offset),
        frame_size: cut(lo, hi, list.frame_size),
        environment_size: cut(lo, hi, list.environment_size),
        read: cut(lo, hi, list.read),
        write: cut(lo, hi, list.write),
        flags: cut(lo, hi, list.flags),
    }
}

// The inline modern record, likewise; its info_offset is 0.
#[tactic(auto, unfolding(crate::specs::Record::modern_of, crate::specs::Record::modern_by, hbc_bits::specs::Fields::fields_of))]
pub(crate) fn modern_inline(lo: u64, hi: u64, id: u32) -> Modern
    ensures { result ≡ modern_of id (lo + 2 ^ 64 * hi) }
{
    let list = MODERN;
    Modern {
        id,
        offset: cut(lo, hi, list.offset),
        param_count: cut(lo, hi, list.param_count),
        loop_depth: cut(lo, hi, list.loop_depth),
        size: cut(lo, hi, list.size),
        name: cut(lo, hi, list.name),
        number_reg: cut(lo, hi, list.number_reg),
        non_ptr_reg: cut(lo, hi, list.non_ptr_reg),
        frame_size: cut(lo, hi, list.frame_size),
        read_cache: cut(lo, hi, list.read_cache),
        write_cache: cut(lo, hi, list.write_cache),
        new_object: cut(lo, hi, list.new_object),
        private_name: cut(lo, hi, list.private_name),
        flags: cut(lo, hi, list.flags),
        info_offset: 0,
    }
}

// The number of 8 bytes that are there, as two of 4.
#[tactic(auto, using(crate::proofs::Records::le_eight))]
pub(crate) fn u64_here(s: &[u8], at: usize) -> u64
    requires { at + 8 ≤ length s.now }
    ensures { result ≡ le_at s.now at 8 }
{
    word_here(s, at) as u64 + (word_here(s, at + 4) as u64) * 0x1_0000_0000
}

// The record of the inline header at `at`.
#[tactic(auto, using(crate::proofs::Records::le_legacy))]
pub(crate) fn legacy_here(s: &[u8], at: usize, id: u32) -> Legacy
    requires { at + size_of Legacy16 ≤ length s.now }
    ensures { result ≡ legacy_of id (le_at s.now at (size_of Legacy16)) }
{
    let lo = u64_here(s, at);
    let hi = u64_here(s, at + 8);
    legacy_inline(lo, hi, id)
}

#[tactic(auto, using(crate::proofs::Records::le_modern))]
pub(crate) fn modern_here(s: &[u8], at: usize, id: u32) -> Modern
    requires { at + size_of Modern12 ≤ length s.now }
    ensures { result ≡ modern_of id (le_at s.now at (size_of Modern12)) }
{
    let lo = u64_here(s, at);
    let hi = word_here(s, at + 8) as u64;
    modern_inline(lo, hi, id)
}

// The large legacy record: seven u32, three bytes.
#[tactic(auto, unfolding(crate::specs::Record::legacy_large), using(hbc_io::proofs::Plains::word_there))]
pub(crate) fn legacy_large(s: &[u8], at: usize, id: u32) -> Legacy
    requires { at + large_of Legacy16 ≤ length s.now }
    ensures { result ≡ legacy_large s.now at id }
{
    Legacy {
        id,
        offset: word_here(s, at),
        param_count: word_here(s, at + 4),
        size: word_here(s, at + 8),
        name: word_here(s, at + 12),
        info_offset: word_here(s, at + 16),
        frame_size: word_here(s, at + 20),
        environment_size: word_here(s, at + 24),
        read: u8_at(s, at + 28) as u32,
        write: u8_at(s, at + 29) as u32,
        flags: u8_at(s, at + 30) as u32,
    }
}

// The large modern record: eight u32, five bytes. Its info_offset is the place after it, rounded up to 4.
#[tactic(auto, unfolding(crate::specs::Record::modern_large), using(hbc_io::proofs::Plains::word_there))]
pub(crate) fn modern_large(s: &[u8], at: usize, id: u32) -> Modern
    requires { (at + large_of Modern12 ≤ length s.now) × (length s.now ≤ limit) }
    ensures { result ≡ modern_large s.now at id }
{
    Modern {
        id,
        offset: word_here(s, at),
        param_count: word_here(s, at + 4),
        loop_depth: word_here(s, at + 8),
        size: word_here(s, at + 12),
        name: word_here(s, at + 16),
        number_reg: word_here(s, at + 20),
        non_ptr_reg: word_here(s, at + 24),
        frame_size: word_here(s, at + 28),
        read_cache: u8_at(s, at + 32) as u32,
        write_cache: u8_at(s, at + 33) as u32,
        new_object: u8_at(s, at + 34) as u32,
        private_name: u8_at(s, at + 35) as u32,
        flags: u8_at(s, at + 36) as u32,
        info_offset: ((at + large_size(Layout::Modern12) + 3) / 4 * 4) as u32,
    }
}

// Where a flagged header's large one is: the parts or-ed, for they overlap.
#[tactic(auto, unfolding(crate::specs::Record::legacy_place))]
fn legacy_place(r: Legacy) -> usize
    ensures { result ≡ legacy_place r }
{
    (r.info_offset as usize) * 0x10000 | (r.offset as usize)
}

#[tactic(auto, unfolding(crate::specs::Record::modern_place))]
fn modern_place(r: Modern) -> usize
    ensures { result ≡ modern_place r }
{
    (r.name as usize) * 0x100_0000 | (r.offset as usize) % 0x100_0000
}

// The overflow flag.
#[tactic(auto, unfolding(crate::specs::Record::overflowed))]
fn overflows(flags: u32) -> bool
    ensures { result ≡ overflowed flags }
{
    bits(flags as u64, OVERFLOW_BIT, 1) == 1
}

// Whether the inline header at `at` is flagged.
#[tactic(auto, unfolding(crate::specs::Record::inline_of, crate::specs::Record::flags_of), using(crate::proofs::Records::le_legacy))]
pub(crate) fn legacy_flagged(s: &[u8], at: usize) -> bool
    requires { at + size_of Legacy16 ≤ length s.now }
    ensures { result ≡ overflowed (flags_of (inline_of Legacy16 0 (le_at s.now at (size_of Legacy16)))) }
{
    let lo = u64_here(s, at);
    let hi = u64_here(s, at + 8);
    let r = legacy_inline(lo, hi, 0);
    overflows(r.flags)
}

#[tactic(auto, unfolding(crate::specs::Record::inline_of, crate::specs::Record::flags_of), using(crate::proofs::Records::le_modern))]
pub(crate) fn modern_flagged(s: &[u8], at: usize) -> bool
    requires { at + size_of Modern12 ≤ length s.now }
    ensures { result ≡ overflowed (flags_of (inline_of Modern12 0 (le_at s.now at (size_of Modern12)))) }
{
    let lo = u64_here(s, at);
    let hi = word_here(s, at + 8) as u64;
    let r = modern_inline(lo, hi, 0);
    overflows(r.flags)
}

// The place of the large header that the inline one at `at` is flagged for, if it is.
#[tactic(auto, unfolding(crate::specs::Record::inline_of), using(crate::proofs::Records::link_legacy, crate::proofs::Records::le_legacy))]
pub(crate) fn legacy_link(s: &[u8], at: usize) -> Option<usize>
    requires { at + size_of Legacy16 ≤ length s.now }
    ensures { result ≡ link_of (inline_of Legacy16 0 (le_at s.now at (size_of Legacy16))) }
{
    let lo = u64_here(s, at);
    let hi = u64_here(s, at + 8);
    let r = legacy_inline(lo, hi, 0);
    if overflows(r.flags) {
        return Some(legacy_place(r));
    }
    None
}

#[tactic(auto, unfolding(crate::specs::Record::inline_of), using(crate::proofs::Records::link_modern, crate::proofs::Records::le_modern))]
pub(crate) fn modern_link(s: &[u8], at: usize) -> Option<usize>
    requires { at + size_of Modern12 ≤ length s.now }
    ensures { result ≡ link_of (inline_of Modern12 0 (le_at s.now at (size_of Modern12))) }
{
    let lo = u64_here(s, at);
    let hi = word_here(s, at + 8) as u64;
    let r = modern_inline(lo, hi, 0);
    if overflows(r.flags) {
        return Some(modern_place(r));
    }
    None
}
