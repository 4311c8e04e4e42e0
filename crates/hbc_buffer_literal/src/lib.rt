// One literal, after buffer.rs: what bits 4 to 6 of a tag say of a value, and the value itself.
#![tactic(auto)]

ghost use Rattle.std.specs.Prelude.{◌≡◌, ◌<◌, ◌^◌};
ghost use Rattle.hbc_bits.specs.Bits.{field};
ghost use Rattle.hbc_io.specs.Answers.{says};
ghost use Rattle.hbc_io.specs.Plain.{plain_at};
ghost use Rattle.hbc_buffer_literal.specs.Literal.{width_of, literal_of, literal_at, kind_of};

use hbc_bits::bits;
use hbc_io::{Cursor, Read, read_bytes, read_f64, read_i32, read_u8, read_u16, read_u32, read_u64};

// The tags by the number of their bits 4 to 6, 0 being null's. A string's number has four bytes, two or one; a null and a truth have none.
const TRUE: u64 = 1;

const FALSE: u64 = 2;

pub const NUMBER: u64 = 3;

pub const STRING_U32: u64 = 4;

pub const STRING_U16: u64 = 5;

pub const STRING_U8: u64 = 6;

pub const INTEGER: u64 = 7;

// What a value is, by the number that the lent table and C take.
#[derive(Clone, Copy)]
pub enum ValueKind {
    Null = 0,
    True = 1,
    False = 2,
    Number = 3,
    String = 4,
    Integer = 5,
}

// A value of a literal buffer. A string is its number in the string table.
#[derive(Clone, Copy)]
pub enum Literal {
    Null,
    Bool(bool),
    Number(f64),
    String(u32),
    Integer(i32),
}

// How many bytes a value has. A tag is here the number of its bits 4 to 6; from 8 up, where none is, it counts as null's.
#[tactic(auto, unfolding(crate::specs::Literal::width_of), using(crate::proofs::Laws::width_none))]
pub fn width(tag: u64) -> usize
    ensures { result ≡ width_of tag }
{
    match tag {
        NUMBER => 8,
        STRING_U32 => 4,
        STRING_U16 => 2,
        STRING_U8 => 1,
        INTEGER => 4,
        _ => 0,
    }
}

// The kind that the lent table takes for a value with this tag.
#[tactic(auto, unfolding(crate::specs::Literal::literal_of), using(crate::proofs::Laws::null_is))]
pub fn kind(tag: u64) -> u32
    ensures { result ≡ kind_of (literal_of tag 0) }
{
    let kind = match tag {
        TRUE => ValueKind::True,
        FALSE => ValueKind::False,
        NUMBER => ValueKind::Number,
        STRING_U32 | STRING_U16 | STRING_U8 => ValueKind::String,
        INTEGER => ValueKind::Integer,
        _ => ValueKind::Null,
    };
    kind as u32
}

// The number of no bytes, which is read too: the cursor may stand past the end.
fn none(s: &[u8], c: Cursor) -> Read<u64>
    ensures { says result ≡ plain_at 0 s.now c }
{
    let (_, next) = read_bytes(s, c, 0)?;
    Ok((0, next))
}

// The number of a value's bytes: what the lent table takes as its payload. A float that is no number keeps its own bits here.
#[tactic(auto, unfolding(crate::specs::Literal::width_of), using(crate::proofs::Laws::width_none))]
pub fn read_payload(s: &[u8], c: Cursor, tag: u64) -> Read<u64>
    ensures { says result ≡ plain_at (width_of tag) s.now c }
{
    match tag {
        NUMBER => read_u64(s, c),
        STRING_U32 | INTEGER => {
            let (v, next) = read_u32(s, c)?;
            Ok((v as u64, next))
        }
        STRING_U16 => {
            let (v, next) = read_u16(s, c)?;
            Ok((v as u64, next))
        }
        STRING_U8 => {
            let (v, next) = read_u8(s, c)?;
            Ok((v as u64, next))
        }
        _ => none(s, c),
    }
}

// A null, a truth or a string, from the number of its bytes.
#[tactic(auto, unfolding(crate::specs::Literal::literal_of), using(crate::proofs::Laws::null_is))]
fn worded(tag: u64, v: u64) -> Literal
    requires { (tag ≡ 3 → ⊥) × (tag ≡ 7 → ⊥) × (v < 2 ^ 32) }
    ensures { result ≡ literal_of tag v }
{
    match tag {
        TRUE => Literal::Bool(true),
        FALSE => Literal::Bool(false),
        STRING_U32 | STRING_U16 | STRING_U8 => Literal::String(v as u32),
        _ => Literal::Null,
    }
}

#[tactic(auto, unfolding(crate::specs::Literal::literal_at), using(crate::proofs::Laws::number_is, crate::proofs::Laws::integer_is))]
fn by_tag(s: &[u8], c: Cursor, tag: u64) -> Read<Literal>
    ensures { says result ≡ literal_at tag s.now c }
{
    match tag {
        NUMBER => {
            let (x, next) = read_f64(s, c)?;
            Ok((Literal::Number(x), next))
        }
        INTEGER => {
            let (z, next) = read_i32(s, c)?;
            Ok((Literal::Integer(z), next))
        }
        _ => {
            let (v, next) = read_payload(s, c, tag)?;
            Ok((worded(tag, v), next))
        }
    }
}

// The value at the cursor that a tag byte speaks of; only its bits 4 to 6 are looked at.
pub fn read_literal(s: &[u8], c: Cursor, tag: u8) -> Read<Literal>
    ensures { says result ≡ literal_at (field 4 3 tag) s.now c }
{
    by_tag(s, c, bits(tag as u64, 4, 3))
}
