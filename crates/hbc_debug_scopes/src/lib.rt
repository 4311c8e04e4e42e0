// The scopes of the debug section.
#![tactic(auto)]

ghost use Rattle.std.specs.Prelude.{◌≡◌, true, ◌+◌, ◌^◌, ◌<◌};
ghost use Rattle.std.proofs.lemmas.List.Edits.{sets};
ghost use Rattle.hbc_io.specs.Answers.{says, answered};
ghost use Rattle.hbc_io.specs.Outcome.{valued};
ghost use Rattle.hbc_io_leb.specs.Numbers.{exact as isExact};
ghost use Rattle.hbc_io_leb.specs.Signed.{sleb_at};
ghost use Rattle.hbc_rows.specs.Until.{until, flat, Ended};
ghost use Rattle.hbc_debug_parts.specs.Along.{along, every};
ghost use Rattle.hbc_debug_scopes.specs.Scopes.{front_at, name_cell, front_numbers, name_number, scope_numbers, count_scopes, WriteScopes};
ghost use Rattle.hbc_debug_scopes.specs.Private.{head_of, word_bits, ScopesAre, RowsAre};

use hbc_debug_parts::Marked;
use hbc_io::{Cursor, LIMIT, Read, Reason, Refusal, refuse, stop};
use hbc_io_leb::read_sleb128_bits;
use hbc_rows::put_words;

// The words of a scope's row, and which they are.
pub const SCOPE_WORDS: usize = 5;

pub const SCOPE_OFFSET: usize = 0;

pub const SCOPE_PARENT: usize = 1;

pub const SCOPE_FLAGS: usize = 2;

pub const SCOPE_FIRST: usize = 3;

pub const SCOPE_COUNT: usize = 4;

// The word for no parent, and for a name out of range.
pub const NONE: u32 = 0xFFFF_FFFF;

// What stands before a scope's names, as its row has it.
#[derive(Clone, Copy)]
pub struct Head {
    pub parent: u32,
    pub flags: u32,
    pub count: usize,
}

// How many names there were, and where reading goes on.
#[derive(Clone, Copy)]
pub struct Names {
    pub count: usize,
    pub next: Cursor,
}

// How many scopes there are, how many names in all, and whether every number that was read is exact.
#[derive(Clone, Copy)]
pub struct ScopeCounts {
    pub scopes: usize,
    pub names: usize,
    pub exact: bool,
}

// A number below `most`, or the word for none.
#[tactic(auto, unfolding(crate::specs::Private::word_bits))]
fn word_below(bits: u64, most: u32) -> u32
    ensures { result ≡ word_bits most bits }
{
    if bits < (most as u64) {
        bits as u32
    } else {
        NONE
    }
}

// What stands before the names of the scope at a cursor, and in `exact` whether its numbers are.
fn front(s: &[u8], c: Cursor, exact: &mut bool) -> Read<Head>
    requires { exact.old ≡ true }
    ensures is { says result ≡ valued head_of (front_at s.now c) }
    ensures mark { exact.new ≡ every isExact (front_numbers s.now c) }
{
    let (parent, c1) = read_sleb128_bits(s, c)?;
    *exact &= parent.exact;
    let (flags, c2) = read_sleb128_bits(s, c1)?;
    *exact &= flags.exact;
    let (count, c3) = read_sleb128_bits(s, c2)?;
    *exact &= count.exact;
    if ((s.len() - c3.at) as u64) < count.bits {
        return Err(stop(Reason::Cut, c3));
    }
    let head = Head {
        parent: word_below(parent.bits, NONE),
        flags: (flags.bits % 0x1_0000_0000) as u32,
        count: count.bits as usize,
    };
    Ok((head, c3))
}

fn read_head(s: &[u8], c: Cursor) -> Marked<Read<Head>>
    ensures is { says result.value ≡ valued head_of (front_at s.now c) }
    ensures mark { result.exact ≡ every isExact (front_numbers s.now c) }
{
    let mut exact = true;
    let value = front(s, c, &mut exact);
    Marked { value, exact }
}

// Passes over at most `count` names.
fn count_names(s: &[u8], c: Cursor, count: usize) -> Marked<Names>
    ensures ended { Ended (sleb_at s.now) count c result.value.count result.value.next }
    ensures exact_value { result.exact ≡ every isExact (along (sleb_at s.now) (name_number s.now) count c) }
{
    let mut here = c;
    let mut exact = true;
    for n in 0..count {
        match read_sleb128_bits(s, here) {
            Ok((name, next)) => {
                exact &= name.exact;
                here = next;
            }
            Err(end) => {
                let read = Names {
                    count: n,
                    next: end.cursor,
                };
                return Marked { value: read, exact };
            }
        }
    }
    let read = Names { count, next: here };
    Marked { value: read, exact }
}

// Writes at most `count` names from `at` on.
fn write_names(
    s: &[u8],
    c: Cursor,
    count: usize,
    strings: u32,
    names: &mut [u32],
    at: usize,
) -> Names
    requires { at + count < 2 ^ 64 }
    ensures ended { Ended (sleb_at s.now) count c result.count result.next }
    ensures names_after { names.new ≡ sets names.old at (flat (name_cell strings) (until (sleb_at s.now) count c)) }
{
    let mut here = c;
    for n in 0..count {
        match read_sleb128_bits(s, here) {
            Ok((name, next)) => {
                put_words(names, at + n, &[word_below(name.bits, strings)]);
                here = next;
            }
            Err(end) => {
                return Names {
                    count: n,
                    next: end.cursor,
                };
            }
        }
    }
    Names { count, next: here }
}

fn count(s: &[u8]) -> ScopeCounts
    ensures scopes_are { ScopesAre s.now result.scopes result.names }
    ensures exact_value { result.exact ≡ every isExact (scope_numbers s.now) }
{
    let mut here = Cursor { at: 0 };
    let mut names: usize = 0;
    let mut exact = true;
    for n in 0..s.len() {
        let front = read_head(s, here);
        let Ok((head, c)) = front.value else {
            return ScopeCounts {
                scopes: n,
                names,
                exact: exact & front.exact,
            };
        };
        let read = count_names(s, c, head.count);
        names += read.value.count;
        exact = exact & front.exact & read.exact;
        here = read.value.next;
    }
    ScopeCounts {
        scopes: s.len(),
        names,
        exact,
    }
}

fn write_rows(s: &[u8], strings: u32, rows: &mut [u32], names: &mut [u32])
    ensures { RowsAre s.now strings rows.old names.old rows.new names.new }
{
    let mut here = Cursor { at: 0 };
    let mut first: usize = 0;
    for n in 0..s.len() {
        let Ok((head, c)) = read_head(s, here).value else {
            return;
        };
        let read = write_names(s, c, head.count, strings, names, first);
        let row = [
            here.at as u32,
            head.parent,
            head.flags,
            first as u32,
            read.count as u32,
        ];
        put_words(rows, SCOPE_WORDS * n, &row);
        first += read.count;
        here = read.next;
    }
}

// How many scopes a part has, how many names in all, and whether every number that was read is exact.
#[tactic(auto, unfolding(crate::specs::Scopes::count_scopes, hbc_io::specs::Lends::below), using(crate::proofs::Calls::counts_are))]
pub fn count_scopes(s: &[u8]) -> Result<ScopeCounts, Refusal>
    ensures { answered result ≡ count_scopes s.now }
{
    if LIMIT < s.len() {
        Err(refuse(Reason::TooLong as u32, 0))
    } else {
        Ok(count(s))
    }
}

// Writes a row for each of the first scopes, as many as are counted, and their names, each below `strings` or none. The counts' mark is not looked at.
#[tactic(auto, unfolding(hbc_io::specs::Lends::below), using(crate::proofs::Calls::fronts_put))]
pub fn write_scopes(
    s: &[u8],
    strings: u32,
    counts: ScopeCounts,
    rows: &mut [u32],
    names: &mut [u32],
) -> Result<(), Refusal>
    ensures { WriteScopes s.now strings counts (rows.old, names.old) result (rows.new, names.new) }
{
    if LIMIT < s.len() {
        return Err(refuse(Reason::TooLong as u32, 0));
    }
    if rows.len() / SCOPE_WORDS < counts.scopes || names.len() < counts.names {
        return Err(refuse(Reason::TooFewRows as u32, 0));
    }
    let words = counts.scopes * SCOPE_WORDS;
    let count = counts.names;
    write_rows(s, strings, &mut rows[0..words], &mut names[0..count]);
    Ok(())
}
