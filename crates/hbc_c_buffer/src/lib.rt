// The calls of hbc_buffer_literal, hbc_buffer and hbc_buffer_object for C and Rust, each behind an export of hbc_c.
#![tactic(auto)]

ghost use Rattle.std.specs.Prelude.{◌≡◌};
ghost use Rattle.hbc_io.specs.Outcome.{low_bits};
ghost use Rattle.hbc_c_buffer.specs.Buffer.{ToldLiteral, ToldSeries, ToldObject};

use hbc_buffer_literal::{Literal, ValueKind};
use hbc_c_code::code;
use hbc_io::Cursor;

// An integer as 32-bit two's complement.
fn word_of(z: i32) -> u32
    ensures { result ≡ low_bits 32 z }
{
    if z < 0 {
        0xffff_ffff - ((!z) as u32)
    } else {
        z as u32
    }
}

pub fn read_literal(
    s: &[u8],
    at: &mut usize,
    tag: u8,
    kind: &mut u32,
    number: &mut f64,
    word: &mut u32,
) -> u64
    ensures { ToldLiteral tag s.now at.old kind.old number.old word.old
        result at.new kind.new number.new word.new }
{
    match hbc_buffer_literal::read_literal(s, Cursor { at: *at }, tag) {
        Ok((v, next)) => {
            *at = next.at;
            match v {
                Literal::Null => {
                    *kind = ValueKind::Null as u32;
                }
                Literal::Bool(true) => {
                    *kind = ValueKind::True as u32;
                }
                Literal::Bool(false) => {
                    *kind = ValueKind::False as u32;
                }
                Literal::Number(x) => {
                    *kind = ValueKind::Number as u32;
                    *number = x;
                }
                Literal::String(n) => {
                    *kind = ValueKind::String as u32;
                    *word = n;
                }
                Literal::Integer(z) => {
                    *kind = ValueKind::Integer as u32;
                    *word = word_of(z);
                }
            }
            0
        }
        Err(stopped) => {
            *at = stopped.cursor.at;
            code(stopped.refusal)
        }
    }
}

#[tactic(auto, using(hbc_c_code::proofs::Tolds::told_by))]
pub fn read_series(
    s: &[u8],
    offset: u32,
    count: u32,
    kinds: &mut [u32],
    payloads: &mut [u64],
) -> u64
    ensures { ToldSeries s.now offset count kinds.old payloads.old result kinds.new payloads.new }
{
    match hbc_buffer::read_series(s, offset, count, kinds, payloads) {
        Ok(used) => used as u64,
        Err(r) => code(r),
    }
}

// `yes` other than 0 names the keys. The bytes used stand at `offset` of the named buffer.
pub fn read_object(
    keys: &[u8],
    values: &[u8],
    yes: u32,
    offset: u32,
    count: u32,
    kinds: &mut [u32],
    payloads: &mut [u64],
) -> u64
    ensures { ToldObject keys.now values.now yes offset count kinds.old payloads.old
        result kinds.new payloads.new }
{
    match hbc_buffer_object::read_object(keys, values, yes != 0, offset, count, kinds, payloads) {
        Ok(o) => o.len as u64,
        Err(r) => code(r),
    }
}
