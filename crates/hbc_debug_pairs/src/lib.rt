// The pairs of address and name in the callees of the debug section, and the count in front of them.
#![tactic(auto)]

ghost use Rattle.std.specs.Prelude.{◌≡◌, true};
ghost use Rattle.hbc_io.specs.Answers.{says};
ghost use Rattle.hbc_io_leb.specs.Numbers.{exact as isExact};
ghost use Rattle.hbc_debug_parts.specs.Along.{every};
ghost use Rattle.hbc_debug_pairs.specs.Pairs.{pair_at, pair_numbers, PairRead, counter_read};
ghost use Rattle.hbc_debug_pairs.specs.Private.{pair_bits};

use hbc_debug_parts::Marked;
use hbc_io::{Cursor, Read};
use hbc_io_leb::read_sleb128_bits;

// One pair: its name is a string's number, if it is known.
#[derive(Clone, Copy)]
pub struct Pair {
    pub address: u32,
    pub name: Option<u32>,
}

// How many pairs are looked for, and from where.
#[derive(Clone, Copy)]
pub struct Counter {
    pub count: usize,
    pub at: usize,
}

#[tactic(auto, unfolding(crate::specs::Private::pair_bits))]
fn pair_of(a: u64, b: u64, strings: u32) -> Pair
    ensures { result ≡ pair_bits strings a b }
{
    let known = b < (strings as u64);
    Pair {
        address: (a % 0x1_0000_0000) as u32,
        name: if known { Some(b as u32) } else { None },
    }
}

// The pair, and in `exact` whether its numbers are.
fn next_pair(s: &[u8], c: Cursor, strings: u32, exact: &mut bool) -> Read<Pair>
    requires { exact.old ≡ true }
    ensures is { says result ≡ pair_at strings s.now c }
    ensures mark { exact.new ≡ every isExact (pair_numbers s.now c) }
{
    let (a, c1) = read_sleb128_bits(s, c)?;
    *exact &= a.exact;
    let (b, c2) = read_sleb128_bits(s, c1)?;
    *exact &= b.exact;
    Ok((pair_of(a.bits, b.bits, strings), c2))
}

// Of a pair whose name fails the mark is that of its address.
pub fn read_pair(s: &[u8], c: Cursor, strings: u32) -> Marked<Read<Pair>>
    ensures { PairRead strings s.now c result }
{
    let mut exact = true;
    let value = next_pair(s, c, strings, &mut exact);
    Marked { value, exact }
}

// The counter, marked by whether the count is exact, one that is refused too.
pub fn read_counter(s: &[u8]) -> Marked<Counter>
    ensures { result ≡ counter_read s.now }
{
    let none = Counter { count: 0, at: 0 };
    let Ok((count, next)) = read_sleb128_bits(s, Cursor { at: 0 }) else {
        return Marked {
            value: none,
            exact: true,
        };
    };
    let fits = count.bits <= (s.len() - next.at) as u64;
    let found = Counter {
        count: count.bits as usize,
        at: next.at,
    };
    Marked {
        value: if fits { found } else { none },
        exact: count.exact,
    }
}
