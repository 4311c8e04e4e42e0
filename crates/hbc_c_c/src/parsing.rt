// Handlers and trailing sections.
ghost use Rattle.hbc_c_parsing.specs.Parsing.{ToldHandlers, ToldWhy, ToldSections};

// Accepted, the answer is 0 and the number of rows is in `total`: functions may share handlers, so that it can be above 2^32 - 1.
#[unsafe(no_mangle)]
pub extern "C" fn hbc_read_handlers(
    file: &[u8],
    functions: &[u32],
    count: u32,
    rows: &mut [u32],
    total: &mut usize,
) -> u64
    ensures { ToldHandlers file.now functions.now count rows.old total.old
        result rows.new total.new }
{
    hbc_c::parsing::hbc_read_handlers(file, functions, count, rows, total)
}

// Shown, the answer is 0 and `handlers` is how many; else it is the reason's number or the refusal, and `handlers` stays.
#[unsafe(no_mangle)]
pub extern "C" fn hbc_why_no_handlers(
    file: &[u8],
    functions: &[u32],
    id: u32,
    handlers: &mut u32,
) -> u64
    ensures { ToldWhy file.now functions.now id handlers.old result handlers.new }
{
    hbc_c::parsing::hbc_why_no_handlers(file, functions, id, handlers)
}

// Five rows of four words: start, size with padding, entries, and 1 for sources that are absent. Accepted, the answer is 5.
#[unsafe(no_mangle)]
pub extern "C" fn hbc_trailing_sections(
    file: &[u8],
    start: usize,
    regexps: u32,
    storage: u32,
    cjs: u32,
    given: bool,
    sources: u32,
    rows: &mut [u32],
) -> u64
    ensures { ToldSections file.now start regexps storage cjs given sources rows.old result rows.new }
{
    hbc_c::parsing::hbc_trailing_sections(file, start, regexps, storage, cjs, given, sources, rows)
}
