// LEB128 numbers, after io.rs: groups of seven bits, the least first, at most ten of them.
#![tactic(auto)]

ghost use Rattle.std.specs.Prelude.{◌≡◌, ◌*◌, ◌^◌, ◌≤◌, ◌<◌, length, get_or};
ghost use Rattle.hbc_io.specs.Answers.{says};
ghost use Rattle.hbc_io.specs.Outcome.{valued, twos, limit};
ghost use Rattle.hbc_io_leb.specs.Leb.{leb_bytes};
ghost use Rattle.hbc_io_leb.specs.Private.{First, groups_of, signed_bits, exact_u, exact_s};
ghost use Rattle.hbc_io_leb.specs.Answers.{uleb_of, sleb_of};
ghost use Rattle.hbc_io_leb.specs.Signed.{sleb_at, bits_of, held_of};

use hbc_io::{Cursor, LIMIT, Read, Reason, stop};

// What an unsigned number's bytes say, and whether no bit of it was lost.
#[derive(Clone, Copy)]
pub struct Uleb {
    pub value: u64,
    pub exact: bool,
}

// What a signed number's bytes say, and whether no bit of it was lost.
#[derive(Clone, Copy)]
pub struct Sleb {
    pub value: i64,
    pub exact: bool,
}

// The same with the number as the 64 bits that hold it, so that every test on one is a test of unsigned numbers.
#[derive(Clone, Copy)]
pub struct Held {
    pub bits: u64,
    pub exact: bool,
}

// The low 64 bits of the groups, how many there were, and the last of their bytes.
#[derive(Clone, Copy)]
pub struct Groups {
    pub bits: u64,
    pub count: usize,
    pub last: u8,
}

// The byte at a place, 128 where there is none to be read: below 128 it is a whole number.
fn first_at(s: &[u8], at: usize) -> u8
    ensures { First s.now at result }
{
    if LIMIT < s.len() {
        return 128;
    }
    if at < s.len() { s[at] } else { 128 }
}

// More bytes than one: one is most numbers, and each read has it before this, with no mark to be made. One bound for the loop, so that it stays small
// enough to be inlined in both reads.
#[tactic(auto, unfolding(crate::specs::Leb::leb_bytes))]
fn read_groups(s: &[u8], c: Cursor) -> Read<Groups>
    requires { length s.now ≤ limit → c.at < length s.now → 128 ≤ get_or s.now c.at 0 }
    ensures { says result ≡ valued groups_of (leb_bytes s.now c) }
{
    let at = c.at;
    if LIMIT < s.len() {
        return Err(stop(Reason::TooLong, c));
    }
    if s.len() < at {
        return Err(stop(Reason::PastEnd, c));
    }
    let most = (s.len() - at).min(10);
    if most < 1 {
        return Err(stop(Reason::Cut, c));
    }
    let mut v: u64 = (s[at] % 128) as u64;
    for k in 1..most {
        let b = s[at + k];
        v |= ((b % 128) as u64) << (7 * k as u64);
        if b < 128 {
            let groups = Groups {
                bits: v,
                count: k + 1,
                last: b,
            };
            return Ok((groups, Cursor { at: at + k + 1 }));
        }
    }
    if most < 10 {
        return Err(stop(Reason::Cut, Cursor { at: s.len() }));
    }
    Err(stop(Reason::Leb128TooLong, Cursor { at: at + 10 }))
}

// Bits are lost from a tenth byte alone: of an unsigned number, all but one.
fn exact_unsigned(count: usize, last: u8) -> bool
    ensures { result ≡ exact_u count last }
{
    if count < 10 { true } else { last <= 1 }
}

// Of a signed one they may be lost where they say again what its sign says.
fn exact_signed(count: usize, last: u8) -> bool
    ensures { result ≡ exact_s count last }
{
    if count < 10 {
        return true;
    }
    if last == 0 {
        return true;
    }
    last == 0x7F
}

pub fn read_uleb128(s: &[u8], c: Cursor) -> Read<Uleb>
    ensures { says result ≡ valued uleb_of (leb_bytes s.now c) }
{
    let at = c.at;
    let first = first_at(s, at);
    if first < 128 {
        let one = Uleb {
            value: first as u64,
            exact: true,
        };
        return Ok((one, Cursor { at: at + 1 }));
    }
    let (g, next) = read_groups(s, c)?;
    let number = Uleb {
        value: g.bits,
        exact: exact_unsigned(g.count, g.last),
    };
    Ok((number, next))
}

// The number that 64 bits stand for in two's complement.
pub fn signed64(v: u64) -> i64
    ensures { result ≡ twos 64 v }
{
    if v < 0x8000_0000_0000_0000 {
        v as i64
    } else {
        -1 - ((0xFFFF_FFFF_FFFF_FFFF - v) as i64)
    }
}

// The number that the groups stand for: ten fill the 64 bits, fewer carry their sign in their highest bit.
fn extended(bits: u64, count: usize) -> i64
    requires { (1 ≤ count) × (bits < 2 ^ (7 * count)) }
    ensures { result ≡ signed_bits bits count }
{
    if 10 <= count {
        return signed64(bits);
    }
    let shift = 7 * count as u64;
    // 0 or 1: no branch, which random signs would mispredict
    let sign = bits >> (shift - 1);
    signed64(bits | ((sign * 0xFFFF_FFFF_FFFF_FFFF) << shift))
}

pub fn read_sleb128(s: &[u8], c: Cursor) -> Read<Sleb>
    ensures { says result ≡ valued sleb_of (leb_bytes s.now c) }
{
    let at = c.at;
    let first = first_at(s, at);
    if first < 128 {
        let one = Sleb {
            value: extended(first as u64, 1),
            exact: true,
        };
        return Ok((one, Cursor { at: at + 1 }));
    }
    let (g, next) = read_groups(s, c)?;
    let number = Sleb {
        value: extended(g.bits, g.count),
        exact: exact_signed(g.count, g.last),
    };
    Ok((number, next))
}

fn bits_of(v: i64) -> u64
    ensures { result ≡ bits_of v }
{
    if 0 <= v {
        v as u64
    } else {
        0xFFFF_FFFF_FFFF_FFFF - ((-1 - v) as u64)
    }
}

#[tactic(auto, unfolding(crate::specs::Signed::sleb_at))]
pub fn read_sleb128_bits(s: &[u8], c: Cursor) -> Read<Held>
    ensures { says result ≡ valued held_of (sleb_at s.now c) }
{
    let (v, next) = read_sleb128(s, c)?;
    let held = Held {
        bits: bits_of(v.value),
        exact: v.exact,
    };
    Ok((held, next))
}
