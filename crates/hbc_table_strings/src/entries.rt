// Where a string is said to be: its small entry, and the overflow pair that a long one takes.
ghost use Rattle.std.specs.Prelude.{◌≡◌, ◌<◌, ◌^◌};
ghost use Rattle.hbc_table_strings.specs.Entries.{utf16, offset_of, units_of, long_one, pair_taken, lacks_pair, pair_at, entry_of, bytes_of};

use crate::Mode;
use hbc_rows::field_of;

// Where a string starts in the storage, and how many units it has.
#[derive(Clone, Copy)]
pub struct Entry {
    pub start: u32,
    pub units: u32,
}

// 1 where the units are of two bytes.
#[tactic(auto, using(hbc_bits::proofs::Laws::field_lt))]
pub(crate) fn utf16(raw: u32) -> u32
    ensures { (result ≡ utf16 raw) × (result < 2) }
{
    field_of(raw, 0, 1)
}

fn offset_of(raw: u32) -> u32
    ensures { result ≡ offset_of raw }
{
    field_of(raw, 1, 23)
}

fn units_of(raw: u32) -> u32
    ensures { result ≡ units_of raw }
{
    field_of(raw, 24, 8)
}

// 1 where the entry takes an overflow pair.
#[tactic(auto, unfolding(crate::specs::Entries::long_one))]
pub(crate) fn long_one(raw: u32) -> usize
    ensures { (result ≡ long_one raw) × (result < 2) }
{
    if units_of(raw) == 255 {
        return 1;
    }
    0
}

// Which pair a long entry takes, so many being taken before it: the next, or in Hermes mode the one whose number is in its offset field.
fn pair_taken(mode: Mode, raw: u32, taken: usize) -> usize
    ensures { result ≡ pair_taken mode raw taken }
{
    match mode {
        Mode::InOrder => taken,
        Mode::Hermes => offset_of(raw) as usize,
    }
}

// Only a long entry, as few are, asks for the mode.
#[tactic(auto, unfolding(crate::specs::Entries::lacks_pair))]
pub(crate) fn lacks_pair(mode: Mode, raw: u32, taken: usize, pairs: usize) -> bool
    ensures { result ≡ lacks_pair raw (pair_taken mode raw taken) pairs }
{
    if long_one(raw) == 1 {
        return pairs <= pair_taken(mode, raw, taken);
    }
    false
}

#[tactic(auto, unfolding(crate::specs::Entries::pair_at, hbc_rows::specs::Rows::entry_at))]
fn pair_at(overflow: &[u32], p: usize) -> Entry
    ensures { result ≡ pair_at overflow.now p }
{
    if p < overflow.len() / 2 {
        return Entry {
            start: overflow[p * 2],
            units: overflow[p * 2 + 1],
        };
    }
    Entry { start: 0, units: 0 }
}

#[tactic(auto, unfolding(crate::specs::Entries::entry_of))]
pub(crate) fn entry_of(mode: Mode, raw: u32, overflow: &[u32], taken: usize) -> Entry
    ensures { result ≡ entry_of raw overflow.now (pair_taken mode raw taken) }
{
    if long_one(raw) == 1 {
        return pair_at(overflow, pair_taken(mode, raw, taken));
    }
    Entry {
        start: offset_of(raw),
        units: units_of(raw),
    }
}

#[tactic(auto, unfolding(crate::specs::Entries::bytes_of))]
pub(crate) fn bytes_of(raw: u32, units: u32) -> usize
    ensures { (result ≡ bytes_of raw units) × (result < 2 ^ 33) }
{
    if utf16(raw) == 1 {
        return (units as usize) * 2;
    }
    units as usize
}
