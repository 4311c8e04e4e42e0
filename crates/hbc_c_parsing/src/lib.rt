// Handlers and trailing sections for C and Rust, each behind an export of hbc_c.
#![tactic(auto)]

ghost use Rattle.std.specs.Prelude.{◌≡◌};
ghost use Rattle.hbc_rows.specs.Rows.{put_row};
ghost use Rattle.hbc_parsing_handlers.specs.Why.{reason_number};
ghost use Rattle.hbc_c_parsing.specs.Parsing.{section_width, section_words, sources_words, sections_into, ToldHandlers, ToldWhy, ToldSections};
ghost use Rattle.hbc_c_parsing.specs.Private.{InWords, SourcesInWords, AllInWords};

use hbc_c_code::code;
use hbc_io::{LIMIT, refuse};
use hbc_parsing_handlers::Reason;
use hbc_parsing_sections::{Section, Sections};
use hbc_rows::put_row;

// Accepted, the answer is 0 and the number of rows is in `total`: functions may share handlers, so that it can be above 2^32 - 1.
pub fn read_handlers(
    file: &[u8],
    functions: &[u32],
    count: u32,
    rows: &mut [u32],
    total: &mut usize,
) -> u64
    ensures { ToldHandlers file.now functions.now count rows.old total.old
        result rows.new total.new }
{
    match hbc_parsing_handlers::read_handlers(file, functions, count, rows) {
        Ok(n) => {
            *total = n;
            0
        }
        Err(r) => code(r),
    }
}

// A reason by its place in their order: the numbers are C's, and stand at the boundary alone.
fn reason_number(x: Reason) -> u64
    ensures { result ≡ reason_number x }
{
    match x {
        Reason::FlagClear => 1,
        Reason::InfoZero => 2,
        Reason::InfoPast => 3,
        Reason::NoRoom => 4,
        Reason::CountZero => 5,
        Reason::CountHigh => 6,
        Reason::Cut => 7,
    }
}

// Shown, the answer is 0 and `handlers` is how many; else it is the reason's number or the refusal, and `handlers` stays.
pub fn why_no_handlers(file: &[u8], functions: &[u32], id: u32, handlers: &mut u32) -> u64
    ensures { ToldWhy file.now functions.now id handlers.old result handlers.new }
{
    match hbc_parsing_handlers::why_no_handlers(file, functions, id) {
        Ok(Ok(t)) => {
            *handlers = t.count;
            0
        }
        Ok(Err(x)) => reason_number(x),
        Err(r) => code(r),
    }
}

// One section's row.
fn put_section(rows: &mut [u32], k: usize, s: Section)
    requires { InWords s }
    ensures { rows.new ≡ put_row section_width rows.old k (section_words s) }
{
    let row = [s.start as u32, s.size as u32, s.entries, 0];
    put_row(rows, k, &row);
}

fn put_sources(rows: &mut [u32], k: usize, s: Option<Section>)
    requires { SourcesInWords s }
    ensures { rows.new ≡ put_row section_width rows.old k (sources_words s) }
{
    match s {
        Some(p) => put_section(rows, k, p),
        None => {
            let row: [u32; 4] = [0, 0, 0, 1];
            put_row(rows, k, &row);
        }
    }
}

fn put_sections(v: Sections, rows: &mut [u32])
    requires { AllInWords v }
    ensures { rows.new ≡ sections_into v rows.old }
{
    put_section(rows, 0, v.regexps);
    put_section(rows, 1, v.storage);
    put_section(rows, 2, v.cjs);
    put_sources(rows, 3, v.sources);
    put_section(rows, 4, v.bytecode);
}

// Five rows of four words: start, size with padding, entries, and 1 for sources that are absent. Accepted, the answer is 5.
pub fn trailing_sections(
    file: &[u8],
    start: usize,
    regexps: u32,
    storage: u32,
    cjs: u32,
    given: bool,
    sources: u32,
    rows: &mut [u32],
) -> u64
    ensures { ToldSections file.now start regexps storage cjs given sources rows.old result rows.new }
{
    if LIMIT < file.len() {
        return code(refuse(hbc_io::Reason::TooLong as u32, 0));
    }
    if file.len() < start {
        return code(refuse(hbc_io::Reason::PastEnd as u32, 0));
    }
    if rows.len() / 4 < 5 {
        return code(refuse(hbc_io::Reason::TooFewRows as u32, 0));
    }
    match hbc_parsing_sections::trailing_sections(
        file, start, regexps, storage, cjs, given, sources,
    ) {
        Ok(v) => {
            put_sections(v, rows);
            5
        }
        Err(r) => code(r),
    }
}
