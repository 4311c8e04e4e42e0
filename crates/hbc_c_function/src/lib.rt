// The calls on function headers for C and Rust, each behind an export of hbc_c. A layout is a number, 0 legacy and 1 modern; where
// rows are written the low half of an accepted answer is how many, where bytes are, their end. Parameters stay apart,
// as the exports have them: each call takes its own to one call of its layer.
#![tactic(auto)]

ghost use Rattle.std.specs.Prelude.{◌≡◌};
ghost use Rattle.hbc_function_header.specs.Meets.{function_meets};
ghost use Rattle.hbc_function.specs.Table.{lent};
ghost use Rattle.hbc_io.specs.Outcome.{refusal_at};
ghost use Rattle.hbc_c_code.specs.Code.{code_of, code_in, truth};
ghost use Rattle.hbc_c_function.specs.Function.{places, TableRead, TableRefreshed, TableWritten, RowRead, GroundFound};
ghost use Rattle.hbc_c_function.specs.Function.{ToldFunctions, ToldRefresh, ToldWrite, ToldFunction, ToldGround, ToldMeets};

use hbc_c_code::code;
use hbc_function_header::Ground;
use hbc_function_record::{Layout, WIDTH, row_words};
use hbc_io::{LIMIT, Reason, refuse};
use hbc_rows::put_row;

// In place of a large header's place, where there is none.
pub const NO_PLACE: usize = 0xFFFF_FFFF_FFFF_FFFF;

// A number that is no layout's is malformed.
fn no_layout() -> u64
    ensures { result ≡ code_of (refusal_at 12 0) }
{
    code(refuse(Reason::NoSuchLayout as u32, 0))
}

fn read_table(
    file: &[u8],
    layout: Layout,
    start: usize,
    count: u32,
    table: &mut [u32],
    large: &mut u64,
    sizes: &mut u64,
) -> u64
    ensures { TableRead file.now layout start count (lent table.old large.old sizes.old)
        result (lent table.new large.new sizes.new) }
{
    match hbc_function::read_functions(file, layout, start, count, table, large, sizes) {
        Ok(()) => count as u64,
        Err(r) => code(r),
    }
}

#[tactic(auto, using(crate::proofs::ByLayouts::by_some, crate::proofs::ByLayouts::by_other))]
pub fn read_functions(
    file: &[u8],
    layout: u32,
    start: usize,
    count: u32,
    table: &mut [u32],
    large: &mut u64,
    sizes: &mut u64,
) -> u64
    ensures { ToldFunctions file.now layout start count (lent table.old large.old sizes.old)
        result (lent table.new large.new sizes.new) }
{
    match Layout::try_from(layout) {
        Ok(layout) => read_table(file, layout, start, count, table, large, sizes),
        Err(_) => no_layout(),
    }
}

fn refresh_table(
    file: &[u8],
    layout: Layout,
    start: usize,
    count: u32,
    low: usize,
    high: usize,
    table: &mut [u32],
    large: &mut u64,
    sizes: &mut u64,
) -> u64
    ensures { TableRefreshed file.now layout start count low high (lent table.old large.old sizes.old)
        result (lent table.new large.new sizes.new) }
{
    match hbc_function::refresh_functions(
        file, layout, start, count, low, high, table, large, sizes,
    ) {
        Ok(n) => n as u64,
        Err(r) => code(r),
    }
}

#[tactic(auto, using(crate::proofs::ByLayouts::by_some, crate::proofs::ByLayouts::by_other))]
pub fn refresh_functions(
    file: &[u8],
    layout: u32,
    start: usize,
    count: u32,
    low: usize,
    high: usize,
    table: &mut [u32],
    large: &mut u64,
    sizes: &mut u64,
) -> u64
    ensures { ToldRefresh file.now layout start count low high (lent table.old large.old sizes.old)
        result (lent table.new large.new sizes.new) }
{
    match Layout::try_from(layout) {
        Ok(layout) => refresh_table(file, layout, start, count, low, high, table, large, sizes),
        Err(_) => no_layout(),
    }
}

fn write_table(
    rows: &[u32],
    layout: Layout,
    start: usize,
    count: u32,
    large: usize,
    buffer: &mut [u8],
) -> u64
    ensures { TableWritten rows.now layout start count large buffer.old result buffer.new }
{
    match hbc_function_write::write_functions(rows, layout, start, count, large, buffer) {
        Ok(end) => end as u64,
        Err(r) => code(r),
    }
}

#[tactic(auto, using(crate::proofs::ByLayouts::by_some, crate::proofs::ByLayouts::by_other))]
pub fn write_functions(
    rows: &[u32],
    layout: u32,
    start: usize,
    count: u32,
    large: usize,
    buffer: &mut [u8],
) -> u64
    ensures { ToldWrite rows.now layout start count large buffer.old result buffer.new }
{
    match Layout::try_from(layout) {
        Ok(layout) => write_table(rows, layout, start, count, large, buffer),
        Err(_) => no_layout(),
    }
}

// By way of what is found: function_row is called in the loops over a table alone, so that it is made part of them.
fn read_row(file: &[u8], layout: Layout, start: usize, id: u32, table: &mut [u32]) -> u64
    ensures { RowRead file.now layout start id table.old result table.new }
{
    if LIMIT < file.len() {
        return code(refuse(Reason::TooLong as u32, 0));
    }
    if file.len() < start {
        return code(refuse(Reason::PastEnd as u32, 0));
    }
    if table.len() < WIDTH {
        return code(refuse(Reason::TooFewRows as u32, 0));
    }
    match hbc_function_header::read_function(file, layout, start, id) {
        Ok(found) => {
            let words = row_words(found);
            put_row(table, 0, &words);
            1
        }
        Err(r) => code(r),
    }
}

// One function, into the first row of the table.
#[tactic(auto, using(crate::proofs::ByLayouts::by_some, crate::proofs::ByLayouts::by_other))]
pub fn read_function(file: &[u8], layout: u32, start: usize, id: u32, table: &mut [u32]) -> u64
    ensures { ToldFunction file.now layout start id table.old result table.new }
{
    match Layout::try_from(layout) {
        Ok(layout) => read_row(file, layout, start, id, table),
        Err(_) => no_layout(),
    }
}

fn ground_code(
    file: &[u8],
    layout: Layout,
    start: usize,
    id: u32,
    header: &mut usize,
    large: &mut usize,
) -> u64
    ensures { GroundFound file.now layout start id (places header.old large.old)
        result (places header.new large.new) }
{
    match hbc_function_header::function_ground(file, layout, start, id) {
        Ok(Ground::Inline(at)) => {
            *header = at;
            *large = NO_PLACE;
            0
        }
        Ok(Ground::Large(at, place)) => {
            *header = at;
            *large = place;
            0
        }
        Err(r) => code(r),
    }
}

// Where function `id` is read from: the place of its header, and that of its large one or NO_PLACE. A layout each, here and below: what is asked is so
// short that going by the layout as a value takes half as long again.
#[tactic(auto, using(crate::proofs::ByLayouts::by_some, crate::proofs::ByLayouts::by_other))]
pub fn function_ground(
    file: &[u8],
    layout: u32,
    start: usize,
    id: u32,
    header: &mut usize,
    large: &mut usize,
) -> u64
    ensures { ToldGround file.now layout start id (places header.old large.old)
        result (places header.new large.new) }
{
    match Layout::try_from(layout) {
        Ok(Layout::Legacy16) => ground_code(file, Layout::Legacy16, start, id, header, large),
        Ok(Layout::Modern12) => ground_code(file, Layout::Modern12, start, id, header, large),
        Err(_) => no_layout(),
    }
}

// A part of the two calls below, so that each has one layout in it.
#[inline(always)]
fn meets_code(file: &[u8], layout: Layout, start: usize, id: u32, low: usize, high: usize) -> u64
    ensures { result ≡ code_in truth (function_meets file.now layout start id low high) }
{
    match hbc_function_header::function_meets(file, layout, start, id, low, high) {
        Ok(met) => met as u64,
        Err(r) => code(r),
    }
}

// 1 if function `id` meets the bytes from low up to high, 0 if not.
#[tactic(auto, using(crate::proofs::ByLayouts::by_some, crate::proofs::ByLayouts::by_other))]
pub fn function_meets(
    file: &[u8],
    layout: u32,
    start: usize,
    id: u32,
    low: usize,
    high: usize,
) -> u64
    ensures { ToldMeets file.now layout start id low high result }
{
    match Layout::try_from(layout) {
        Ok(Layout::Legacy16) => meets_code(file, Layout::Legacy16, start, id, low, high),
        Ok(Layout::Modern12) => meets_code(file, Layout::Modern12, start, id, low, high),
        Err(_) => no_layout(),
    }
}
