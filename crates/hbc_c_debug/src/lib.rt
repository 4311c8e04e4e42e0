// The debug section for C and Rust, behind an export of hbc_c. Accepted, the answer is 0 and the four counts and the mark are in the numbers lent for
// them; refused, those and the tables stay.
#![tactic(auto)]

ghost use Rattle.hbc_debug.specs.Debug.{tables};
ghost use Rattle.hbc_c_debug.specs.Debug.{counts, lent, ToldDebug};

use hbc_c_code::code;

pub fn read_debug(
    file: &[u8],
    offset: u32,
    strings: &mut [u32],
    scopes: &mut [u32],
    names: &mut [u32],
    callees: &mut [u32],
    string_count: &mut usize,
    scope_count: &mut usize,
    name_count: &mut usize,
    callee_count: &mut usize,
    exact: &mut u32,
) -> u64
    ensures { ToldDebug file.now offset (tables strings.old scopes.old names.old callees.old)
        (lent (counts string_count.old scope_count.old name_count.old callee_count.old)
        exact.old)
        result
        (tables strings.new scopes.new names.new callees.new)
        (lent (counts string_count.new scope_count.new name_count.new callee_count.new)
        exact.new) }
{
    match hbc_debug::read_debug(file, offset, strings, scopes, names, callees) {
        Ok(read) => {
            let counts = read.value;
            *string_count = counts.strings;
            *scope_count = counts.scopes;
            *name_count = counts.names;
            *callee_count = counts.callees;
            *exact = read.exact as u32;
            0
        }
        Err(r) => code(r),
    }
}
