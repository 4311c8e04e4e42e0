// The table of functions, read into lent rows, and refreshed after a span of the file changed.
#![tactic(auto)]

ghost use Rattle.std.specs.Prelude.{◌≡◌, cond, ◌+◌, ◌-◌, ◌*◌, ◌≤◌, ◌<◌, length, leb, eqb};
ghost use Rattle.hbc_io.specs.Answer.{gives, asked};
ghost use Rattle.hbc_io.specs.Answers.{answered};
ghost use Rattle.hbc_io.specs.Outcome.{limit};
ghost use Rattle.hbc_rows.specs.Rows.{row_at, put_row};
ghost use Rattle.hbc_function_record.specs.Row.{width};
ghost use Rattle.hbc_function_record.specs.declared.Layout.TheVariants.{Legacy16, Modern12};
ghost use Rattle.hbc_function_header.specs.Header.{function_at, row_of};
ghost use Rattle.hbc_function_header.specs.Meets.{meets};
ghost use Rattle.hbc_function_totals.specs.Totals.{share_of, sums, kept};
ghost use Rattle.hbc_function.specs.Table.{all, scan, row_by, share_by, put_rows, lent, ReadFunctions};
ghost use Rattle.hbc_function.specs.Refresh.{held, put_met, RefreshFunctions};
ghost use Rattle.hbc_function.specs.Private.{Next, Own, Plain, Apart, Ran, says_met, with_old, Solid, SolidTo, Safe, Settled};

use hbc_function_header::{Reading, check_function, function_meets, function_row};
use hbc_function_record::{
    INLINE, Layout, RECORD_WIDTH, WIDTH, header_size, is_flagged, legacy_row, modern_row,
};
use hbc_function_totals::{Kept, Share, Totals, exchange, share_of};
use hbc_io::{LIMIT, Reason, Refusal, refuse};
use hbc_rows::put_row;

// Totals below it cannot come above 2^63 - 1 by what a file holds.
const SAFE: u64 = 0x4000_0000_0000_0000;

// How many functions were read again, or the refusal.
pub type Refreshed = Result<u32, Refusal>;

// What a loop over rows comes to: the first function that it left, and the totals of those before it.
#[derive(Clone, Copy)]
struct Run {
    next: u32,
    large: u64,
    sizes: u64,
}

// What the first pass of a refresh finds: how many functions are read again, to where they follow the first of them without a gap, and the totals of the old
// rows of all of them.
#[derive(Clone, Copy)]
struct Met {
    count: u32,
    end: u32,
    old: Totals,
}

// Whether function `id` is known to be read from its own header alone: most are, and cost the least.
fn is_plain(s: &[u8], layout: Layout, start: usize, id: u32) -> bool
    requires { (start ≤ length s.now) × (length s.now ≤ limit) }
    ensures { Plain s.now layout start id result }
{
    let size = header_size(layout);
    let at = start + (id as usize) * size;
    if s.len() < at + size {
        return false;
    }
    !is_flagged(s, layout, at)
}

// Whether function `id` of a table that starts in a file of at most 2^30 bytes can be read.
#[tactic(auto, using(hbc_function_header::proofs::Headers::read_at))]
fn check_at(s: &[u8], layout: Layout, start: usize, id: u32) -> Reading
    requires { (start ≤ length s.now) × (length s.now ≤ limit) }
    ensures { answered result ≡ asked (function_at s.now layout start id) }
{
    if is_plain(s, layout, start, id) {
        return Ok(());
    }
    check_function(s, layout, start, id)
}

// Whether function `id` is known not to meet a span: its header is in the file, apart from the span, and not flagged. So are most.
fn is_apart(s: &[u8], layout: Layout, start: usize, low: usize, high: usize, id: u32) -> bool
    requires { (start ≤ length s.now) × (length s.now ≤ limit) }
    ensures { Apart s.now layout start low high id result }
{
    let size = header_size(layout);
    let at = start + (id as usize) * size;
    if s.len() < at + size {
        return false;
    }
    if high <= at {
        return !is_flagged(s, layout, at);
    }
    if at + size <= low {
        return !is_flagged(s, layout, at);
    }
    false
}

// Whether function `id` meets a span of the file. One whose header is not there does not.
#[tactic(auto, using(hbc_function_header::proofs::Meetings::met_given, hbc_function_header::proofs::Meetings::met_refused))]
fn meets_at(s: &[u8], layout: Layout, start: usize, low: usize, high: usize, id: u32) -> bool
    requires { (start ≤ length s.now) × (length s.now ≤ limit) × (low ≤ high) × (high ≤ length s.now) }
    ensures { result ≡ meets s.now layout start low high id }
{
    if is_apart(s, layout, start, low, high, id) {
        return false;
    }
    function_meets(s, layout, start, id, low, high).unwrap_or(false)
}

// What row `id` of a table adds to the totals.
fn share_at(table: &[u32], id: u32) -> Share
    requires { id * width + width ≤ length table.now }
    ensures { result ≡ share_of (row_at width table.now id) }
{
    let at = (id as usize) * WIDTH;
    share_of(&table[at..at + WIDTH])
}

// The row of function `id`, if it can be read.
fn write_row(s: &[u8], layout: Layout, start: usize, id: u32, row: &mut [u32])
    requires start_in_bounds { (start ≤ length s.now) × (length s.now ≤ limit) }
    requires row_len { length row.old ≡ width }
    ensures { row.new ≡ row_of (function_at s.now layout start id) row.old }
{
    let _ = function_row(s, layout, start, id, row);
}

// The row of function `id` into its place, and what it adds to the totals.
fn write_any(s: &[u8], layout: Layout, start: usize, id: u32, table: &mut [u32]) -> Share
    requires start_in_bounds { (start ≤ length s.now) × (length s.now ≤ limit) }
    requires width_in_bounds { id * width + width ≤ length table.old }
    ensures { (table.new ≡ put_row width table.old id (row_by (function_at s.now layout start id)))
        × (result ≡ share_of (row_at width table.new id)) }
{
    let at = (id as usize) * WIDTH;
    write_row(s, layout, start, id, &mut table[at..at + WIDTH]);
    share_at(table, id)
}

// The same of one that is known to be read from its own header. The row is lent as a part of the table, of which the compiler knows the length: nothing is
// tested.
fn write_legacy_row(s: &[u8], start: usize, id: u32, table: &mut [u32]) -> Share
    requires start_in_bounds { (start ≤ length s.now) × (length s.now ≤ limit) }
    requires width_in_bounds { id * width + width ≤ length table.old }
    requires own { Own s.now Legacy16 start id }
    ensures { (table.new ≡ put_row width table.old id (row_by (function_at s.now Legacy16 start id)))
        × (result ≡ share_of (row_at width table.new id)) }
{
    let at = start + (id as usize) * header_size(Layout::Legacy16);
    let words = legacy_row(s, at, id);
    let to = (id as usize) * WIDTH;
    put_row(&mut table[to..to + WIDTH], 0, &words);
    share_of(&words)
}

fn write_modern_row(s: &[u8], start: usize, id: u32, table: &mut [u32]) -> Share
    requires start_in_bounds { (start ≤ length s.now) × (length s.now ≤ limit) }
    requires width_in_bounds { id * width + width ≤ length table.old }
    requires own { Own s.now Modern12 start id }
    ensures { (table.new ≡ put_row width table.old id (row_by (function_at s.now Modern12 start id)))
        × (result ≡ share_of (row_at width table.new id)) }
{
    let at = start + (id as usize) * header_size(Layout::Modern12);
    let words = modern_row(s, at, id);
    let to = (id as usize) * WIDTH;
    put_row(&mut table[to..to + WIDTH], 0, &words);
    share_of(&words)
}

// The first refusal among functions 0 to count - 1: a loop for each layout, so that no turn asks which it is.
#[tactic(auto, using(crate::proofs::Laws::scanning))]
fn check_legacy(s: &[u8], start: usize, count: u32) -> Reading
    requires { (start ≤ length s.now) × (length s.now ≤ limit) }
    ensures { answered result ≡ asked (scan all (function_at s.now Legacy16 start) count) }
{
    for id in 0..count {
        check_at(s, Layout::Legacy16, start, id)?;
    }
    Ok(())
}

#[tactic(auto, using(crate::proofs::Laws::scanning))]
fn check_modern(s: &[u8], start: usize, count: u32) -> Reading
    requires { (start ≤ length s.now) × (length s.now ≤ limit) }
    ensures { answered result ≡ asked (scan all (function_at s.now Modern12 start) count) }
{
    for id in 0..count {
        check_at(s, Layout::Modern12, start, id)?;
    }
    Ok(())
}

fn check_all(s: &[u8], layout: Layout, start: usize, count: u32) -> Reading
    requires { (start ≤ length s.now) × (length s.now ≤ limit) }
    ensures { answered result ≡ asked (scan all (function_at s.now layout start) count) }
{
    match layout {
        Layout::Legacy16 => check_legacy(s, start, count),
        Layout::Modern12 => check_modern(s, start, count),
    }
}

// The rows of functions `from` to `to` - 1 into their places, up to the first that is not known to be read from its own header, and their totals. Once
// what it calls is made part of it there is no call in this loop, and nothing stored but rows: one word more, put on the stack for want of a register, took
// half as long again.
fn write_legacy_run(s: &[u8], start: usize, from: u32, to: u32, table: &mut [u32]) -> Run
    requires start_in_bounds { (start ≤ length s.now) × (length s.now ≤ limit) }
    requires from_le_to { (from ≤ to) × (to * width ≤ length table.old) }
    ensures { Ran (function_at s.now Legacy16 start) from to table.old result.next result.large result.sizes table.new }
{
    let mut large: u64 = 0;
    let mut sizes: u64 = 0;
    let mut id = from;
    while id < to {
        if !is_plain(s, Layout::Legacy16, start, id) {
            return Run {
                next: id,
                large,
                sizes,
            };
        }
        let share = write_legacy_row(s, start, id, table);
        large += share.large as u64;
        sizes += share.size as u64;
        id += 1;
    }
    Run {
        next: id,
        large,
        sizes,
    }
}

fn write_modern_run(s: &[u8], start: usize, from: u32, to: u32, table: &mut [u32]) -> Run
    requires start_in_bounds { (start ≤ length s.now) × (length s.now ≤ limit) }
    requires from_le_to { (from ≤ to) × (to * width ≤ length table.old) }
    ensures { Ran (function_at s.now Modern12 start) from to table.old result.next result.large result.sizes table.new }
{
    let mut large: u64 = 0;
    let mut sizes: u64 = 0;
    let mut id = from;
    while id < to {
        if !is_plain(s, Layout::Modern12, start, id) {
            return Run {
                next: id,
                large,
                sizes,
            };
        }
        let share = write_modern_row(s, start, id, table);
        large += share.large as u64;
        sizes += share.size as u64;
        id += 1;
    }
    Run {
        next: id,
        large,
        sizes,
    }
}

// The rows of all functions `from` to `to` - 1, and their totals: run after run, and those between by a call.
fn write_legacy(s: &[u8], start: usize, from: u32, to: u32, table: &mut [u32]) -> Totals
    requires start_in_bounds { (start ≤ length s.now) × (length s.now ≤ limit) }
    requires from_le_to { (from ≤ to) × (to * width ≤ length table.old) }
    ensures { (table.new ≡ put_rows (leb from) (function_at s.now Legacy16 start) table.old to)
        × (result ≡ sums (leb from) (λ i. share_of (row_at width table.new i)) to)
        × (result.large ≤ (to - from) * 4294967295) × (result.sizes ≤ (to - from) * 4294967295) }
{
    let mut large: u64 = 0;
    let mut sizes: u64 = 0;
    let mut id = from;
    // no `for`: a run says where it ended
    while id < to {
        let run = write_legacy_run(s, start, id, to, table);
        large += run.large;
        sizes += run.sizes;
        id = run.next;
        if id < to {
            let share = write_any(s, Layout::Legacy16, start, id, table);
            large += share.large as u64;
            sizes += share.size as u64;
            id += 1;
        }
    }
    Totals { large, sizes }
}

fn write_modern(s: &[u8], start: usize, from: u32, to: u32, table: &mut [u32]) -> Totals
    requires start_in_bounds { (start ≤ length s.now) × (length s.now ≤ limit) }
    requires from_le_to { (from ≤ to) × (to * width ≤ length table.old) }
    ensures { (table.new ≡ put_rows (leb from) (function_at s.now Modern12 start) table.old to)
        × (result ≡ sums (leb from) (λ i. share_of (row_at width table.new i)) to)
        × (result.large ≤ (to - from) * 4294967295) × (result.sizes ≤ (to - from) * 4294967295) }
{
    let mut large: u64 = 0;
    let mut sizes: u64 = 0;
    let mut id = from;
    // no `for`: a run says where it ended
    while id < to {
        let run = write_modern_run(s, start, id, to, table);
        large += run.large;
        sizes += run.sizes;
        id = run.next;
        if id < to {
            let share = write_any(s, Layout::Modern12, start, id, table);
            large += share.large as u64;
            sizes += share.size as u64;
            id += 1;
        }
    }
    Totals { large, sizes }
}

fn write_rows(
    s: &[u8],
    layout: Layout,
    start: usize,
    from: u32,
    to: u32,
    table: &mut [u32],
) -> Totals
    requires start_in_bounds { (start ≤ length s.now) × (length s.now ≤ limit) }
    requires from_le_to { (from ≤ to) × (to * width ≤ length table.old) }
    ensures { (table.new ≡ put_rows (leb from) (function_at s.now layout start) table.old to)
        × (result ≡ sums (leb from) (λ i. share_of (row_at width table.new i)) to)
        × (result.large ≤ (to - from) * 4294967295) × (result.sizes ≤ (to - from) * 4294967295) }
{
    match layout {
        Layout::Legacy16 => write_legacy(s, start, from, to, table),
        Layout::Modern12 => write_modern(s, start, from, to, table),
    }
}

// Reads `count` functions of the table at `start` into lent rows, and sets the totals. A refusal leaves all that is lent as it was.
pub fn read_functions(
    file: &[u8],
    layout: Layout,
    start: usize,
    count: u32,
    table: &mut [u32],
    large: &mut u64,
    sizes: &mut u64,
) -> Reading
    ensures { ReadFunctions file.now layout start count (lent table.old large.old sizes.old)
        result (lent table.new large.new sizes.new) }
{
    if LIMIT < file.len() {
        return Err(refuse(Reason::TooLong as u32, 0));
    }
    if file.len() < start {
        return Err(refuse(Reason::PastEnd as u32, 0));
    }
    if table.len() < (count as usize) * WIDTH {
        return Err(refuse(Reason::TooFewRows as u32, 0));
    }
    check_all(file, layout, start, count)?;
    let sums = write_rows(file, layout, start, 0, count, table);
    *large = sums.large;
    *sizes = sums.sizes;
    Ok(())
}

// The first of functions `from` to count - 1 that meets the span, count if none does. Both passes of a refresh go by it, so that the test is in one loop.
#[tactic(auto, using(crate::proofs::Passes::nexts))]
fn next_met(
    s: &[u8],
    layout: Layout,
    start: usize,
    low: usize,
    high: usize,
    from: u32,
    count: u32,
) -> u32
    requires { (start ≤ length s.now) × (length s.now ≤ limit) × (low ≤ high) × (high ≤ length s.now) × (from ≤ count) }
    ensures { Next (meets s.now layout start low high) from count result }
{
    for id in from..count {
        if meets_at(s, layout, start, low, high, id) {
            return id;
        }
    }
    count
}

// Where functions end that follow one another up to `end`, if function `id` comes to them.
fn end_after(end: u32, id: u32) -> u32
    requires { id < 4294967295 }
    ensures { result ≡ cond (eqb id end) (id + 1) end }
{
    if id == end {
        return id + 1;
    }
    end
}

// How many of functions 0 to count - 1 meet the span, the first of them being given, to where they do without a gap, and the totals of the rows that they have
// in the table; or the first refusal among them.
fn check_met(
    s: &[u8],
    layout: Layout,
    start: usize,
    count: u32,
    low: usize,
    high: usize,
    first: u32,
    table: &[u32],
) -> Result<Met, Refusal>
    requires start_in_bounds { (start ≤ length s.now) × (length s.now ≤ limit) × (low ≤ high) × (high ≤ length s.now) }
    requires next { Next (meets s.now layout start low high) 0 count first }
    requires width_in_bounds { count * width ≤ length table.now }
    ensures { (says_met result ≡ with_old (scan (meets s.now layout start low high) (function_at s.now layout start) count)
        (sums (meets s.now layout start low high) (λ i. share_of (row_at width table.now i)) count))
        × SolidTo (meets s.now layout start low high) (function_at s.now layout start) first count result }
{
    let mut n: u32 = 0;
    let mut end = first;
    let mut large: u64 = 0;
    let mut sizes: u64 = 0;
    let mut id = first;
    // no `for`: the next is found by a search
    while id < count {
        check_at(s, layout, start, id)?;
        let share = share_at(table, id);
        large += share.large as u64;
        sizes += share.size as u64;
        n += 1;
        end = end_after(end, id);
        id = next_met(s, layout, start, low, high, id + 1, count);
    }
    Ok(Met {
        count: n,
        end,
        old: Totals { large, sizes },
    })
}

// What function `id` adds to the totals, nothing if it cannot be read. It need not be fast.
fn new_share(s: &[u8], layout: Layout, start: usize, id: u32) -> Share
    requires { (start ≤ length s.now) × (length s.now ≤ limit) }
    ensures { result ≡ share_by (function_at s.now layout start id) }
{
    let mut row: [u32; WIDTH] = [0; WIDTH];
    row[RECORD_WIDTH] = INLINE;
    write_row(s, layout, start, id, &mut row);
    share_of(&row)
}

// The totals with the rows of those of functions 0 to count - 1 exchanged that meet the span, the first of them being given, or the first refusal.
fn keep_met(
    s: &[u8],
    layout: Layout,
    start: usize,
    count: u32,
    low: usize,
    high: usize,
    first: u32,
    table: &[u32],
    before: Totals,
) -> Kept
    requires start_in_bounds { (start ≤ length s.now) × (length s.now ≤ limit) × (low ≤ high) × (high ≤ length s.now) }
    requires next { Next (meets s.now layout start low high) 0 count first }
    requires width_in_bounds { count * width ≤ length table.now }
    ensures { answered result ≡ kept (meets s.now layout start low high) (λ i. share_of (row_at width table.now i))
        (λ i. share_by (function_at s.now layout start i)) before count }
{
    let mut totals = before;
    let mut id = first;
    // no `for`: the next is found by a search
    while id < count {
        let old = share_at(table, id);
        let new = new_share(s, layout, start, id);
        totals = exchange(totals, id, old, new)?;
        id = next_met(s, layout, start, low, high, id + 1, count);
    }
    Ok(totals)
}

// The rows of the n among functions 0 to count - 1 that meet the span, the first of them being given, and their totals.
fn patch_each(
    s: &[u8],
    layout: Layout,
    start: usize,
    count: u32,
    low: usize,
    high: usize,
    first: u32,
    n: u32,
    table: &mut [u32],
) -> Totals
    requires start_in_bounds { (start ≤ length s.now) × (length s.now ≤ limit) × (low ≤ high) × (high ≤ length s.now) }
    requires next { Next (meets s.now layout start low high) 0 count first }
    requires count_value { scan (meets s.now layout start low high) (function_at s.now layout start) count ≡ gives n }
    requires width_in_bounds { count * width ≤ length table.old }
    ensures { (table.new ≡ put_met s.now layout start low high table.old count)
        × (result ≡ sums (meets s.now layout start low high) (λ i. share_by (function_at s.now layout start i)) count)
        × (result.large ≤ n * 4294967295) × (result.sizes ≤ n * 4294967295) }
{
    let mut large: u64 = 0;
    let mut sizes: u64 = 0;
    let mut left = n;
    let mut id = first;
    while 0 < left {
        id = next_met(s, layout, start, low, high, id, count);
        let row = write_rows(s, layout, start, id, id + 1, table);
        large += row.large;
        sizes += row.sizes;
        id += 1;
        left -= 1;
    }
    Totals { large, sizes }
}

// The same, where all from the first on to `end` do: if they are all that do, they are written by one loop.
fn patch_met(
    s: &[u8],
    layout: Layout,
    start: usize,
    count: u32,
    low: usize,
    high: usize,
    first: u32,
    end: u32,
    n: u32,
    table: &mut [u32],
) -> Totals
    requires start_in_bounds { (start ≤ length s.now) × (length s.now ≤ limit) × (low ≤ high) × (high ≤ length s.now) }
    requires next { Next (meets s.now layout start low high) 0 count first }
    requires count_value { scan (meets s.now layout start low high) (function_at s.now layout start) count ≡ gives n }
    requires width_in_bounds { count * width ≤ length table.old }
    requires solid { Solid (meets s.now layout start low high) (function_at s.now layout start) first count end }
    ensures { (table.new ≡ put_met s.now layout start low high table.old count)
        × (result ≡ sums (meets s.now layout start low high) (λ i. share_by (function_at s.now layout start i)) count)
        × (result.large ≤ n * 4294967295) × (result.sizes ≤ n * 4294967295) }
{
    if end - first == n {
        return write_rows(s, layout, start, first, end, table);
    }
    patch_each(s, layout, start, count, low, high, first, n, table)
}

// Whether neither total can fall below 0 or go above 2^63 - 1, whatever is read: so with true totals, of which the old rows are a part. Then they need not
// be gone through row by row, and no large header is looked at before it is read. What a file can add is below 2^62: at most 2^30 functions, each of less than
// 2^32 bytes.
#[tactic(auto, using(crate::proofs::Sums::not_safe))]
fn is_safe(large: u64, sizes: u64, old: Totals) -> bool
    ensures { Safe large sizes old result }
{
    if large < old.large {
        return false;
    }
    if sizes < old.sizes {
        return false;
    }
    if SAFE <= large {
        return false;
    }
    if SAFE <= sizes {
        return false;
    }
    true
}

// The rows and the totals of a refresh whose functions can all be read, the totals of their old rows being given; or 16.
fn settle(
    s: &[u8],
    layout: Layout,
    start: usize,
    count: u32,
    low: usize,
    high: usize,
    first: u32,
    end: u32,
    n: u32,
    old: Totals,
    table: &mut [u32],
    large: &mut u64,
    sizes: &mut u64,
) -> Refreshed
    requires start_in_bounds { (start ≤ length s.now) × (length s.now ≤ limit) × (low ≤ high) × (high ≤ length s.now) }
    requires next { Next (meets s.now layout start low high) 0 count first }
    requires count_value { scan (meets s.now layout start low high) (function_at s.now layout start) count ≡ gives n }
    requires width_in_bounds { (count * width ≤ length table.old) × (count ≤ limit) }
    requires value { old ≡ sums (meets s.now layout start low high) (λ i. share_of (row_at width table.old i)) count }
    requires solid { Solid (meets s.now layout start low high) (function_at s.now layout start) first count end }
    ensures { Settled s.now layout start count low high n (lent table.old large.old sizes.old)
        result (lent table.new large.new sizes.new) }
{
    if is_safe(*large, *sizes, old) {
        let new = patch_met(s, layout, start, count, low, high, first, end, n, table);
        *large = *large - old.large + new.large;
        *sizes = *sizes - old.sizes + new.sizes;
        return Ok(n);
    }
    let before = Totals {
        large: *large,
        sizes: *sizes,
    };
    let after = keep_met(s, layout, start, count, low, high, first, table, before)?;
    patch_met(s, layout, start, count, low, high, first, end, n, table);
    *large = after.large;
    *sizes = after.sizes;
    Ok(n)
}

// How many inline headers the file has room for.
fn room_for(s: &[u8], layout: Layout, start: usize) -> usize
    requires { start ≤ length s.now }
    ensures { result ≡ held s.now layout start }
{
    let size = header_size(layout);
    (s.len() - start) / size
}

// Reads those of the `count` functions again that meet the bytes from low up to high of the new file, and keeps the totals. A refusal leaves all that is
// lent as it was.
pub fn refresh_functions(
    file: &[u8],
    layout: Layout,
    start: usize,
    count: u32,
    low: usize,
    high: usize,
    table: &mut [u32],
    large: &mut u64,
    sizes: &mut u64,
) -> Refreshed
    ensures { RefreshFunctions file.now layout start count low high (lent table.old large.old sizes.old)
        result (lent table.new large.new sizes.new) }
{
    if LIMIT < file.len() {
        return Err(refuse(Reason::TooLong as u32, 0));
    }
    if file.len() < start {
        return Err(refuse(Reason::PastEnd as u32, 0));
    }
    if high < low {
        return Err(refuse(Reason::BadSpan as u32, 0));
    }
    if file.len() < high {
        return Err(refuse(Reason::BadSpan as u32, 0));
    }
    if table.len() < (count as usize) * WIDTH {
        return Err(refuse(Reason::TooFewRows as u32, 0));
    }
    let room = room_for(file, layout, start);
    if room < count as usize {
        return Err(refuse(Reason::Cut as u32, room as u32));
    }
    let first = next_met(file, layout, start, low, high, 0, count);
    let met = check_met(file, layout, start, count, low, high, first, table)?;
    settle(
        file, layout, start, count, low, high, first, met.end, met.count, met.old, table, large,
        sizes,
    )
}
