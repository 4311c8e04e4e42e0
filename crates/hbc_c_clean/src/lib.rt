// The clean-bundle profile for C and Rust, behind an export of hbc_c. A layout is a number, 0 legacy and 1 modern; the answer is 0 or a rule, and a word takes
// its place.
#![tactic(auto)]

ghost use Rattle.std.specs.Prelude.{◌≡◌, min};
ghost use Rattle.hbc_clean.specs.Bundle.{says_bundle};
ghost use Rattle.hbc_c_code.specs.Code.{code_in};
ghost use Rattle.hbc_c_clean.specs.Clean.{rule_of, place_word, place_left, ToldBundle};

use hbc_c_code::code;
use hbc_clean::Bundle;
use hbc_function_record::Layout;
use hbc_io::{Reason, refuse};

// The last place that a word can tell.
const LAST_PLACE: usize = 0xFFFF_FFFF;

fn place_word(place: usize) -> u32
    ensures { result ≡ place_word place }
{
    if place < LAST_PLACE {
        return place as u32;
    }
    0xFFFF_FFFF
}

fn tell(b: Bundle, place: &mut u32) -> u64
    ensures { (result ≡ code_in rule_of (says_bundle b)) × (place.new ≡ place_left (says_bundle b) place.old) }
{
    match b {
        Ok(None) => 0,
        Ok(Some(broken)) => {
            *place = place_word(broken.place);
            broken.rule as u64
        }
        Err(r) => code(r),
    }
}

// The arguments are those of the export (the C interface).
pub fn check_bundle(
    file: &[u8],
    layout: u32,
    start: usize,
    count: u32,
    kinds: &[u32],
    strings: u32,
    small: &[u32],
    overflow: &[u32],
    storage: &[u8],
    keys: &[u8],
    values: &[u8],
    series: &[u32],
    place: &mut u32,
) -> u64
    ensures { ToldBundle file.now layout start count kinds.now strings small.now overflow.now
        storage.now keys.now values.now series.now place.old result place.new }
{
    let Ok(layout) = Layout::try_from(layout) else {
        return code(refuse(Reason::NoSuchLayout as u32, 0));
    };
    let found = hbc_clean::check_bundle(
        file, layout, start, count, kinds, strings, small, overflow, storage, keys, values, series,
    );
    tell(found, place)
}
