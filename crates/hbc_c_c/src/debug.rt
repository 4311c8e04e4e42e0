// The debug section.
ghost use Rattle.hbc_debug.specs.Debug.{tables};
ghost use Rattle.hbc_c_debug.specs.Debug.{counts, lent, ToldDebug};

#[unsafe(no_mangle)]
pub extern "C" fn hbc_read_debug(
    file: &[u8],
    offset: u32,
    strings: &mut [u32],
    scopes: &mut [u32],
    names: &mut [u32],
    callees: &mut [u32],
    string_count: &mut usize,
    scope_count: &mut usize,
    name_count: &mut usize,
    callee_count: &mut usize,
    exact: &mut u32,
) -> u64
    ensures { ToldDebug file.now offset (tables strings.old scopes.old names.old callees.old)
        (lent (counts string_count.old scope_count.old name_count.old callee_count.old)
        exact.old)
        result
        (tables strings.new scopes.new names.new callees.new)
        (lent (counts string_count.new scope_count.new name_count.new callee_count.new)
        exact.new) }
{
    hbc_c::debug::hbc_read_debug(
        file,
        offset,
        strings,
        scopes,
        names,
        callees,
        string_count,
        scope_count,
        name_count,
        callee_count,
        exact,
    )
}
