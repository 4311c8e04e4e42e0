// The table of functions, written from lent rows into a lent buffer: checked first, written after.
#![tactic(auto)]

ghost use Rattle.std.specs.Prelude.{◌≡◌, true, false, cond, Some, None, ◌+◌, ◌^◌, ◌≤◌, ◌<◌, min, length};
ghost use Rattle.hbc_io.specs.Answer.{gives};
ghost use Rattle.hbc_io.specs.Answers.{answered};
ghost use Rattle.hbc_rows.specs.Rows.{row_at};
ghost use Rattle.hbc_function_record.specs.Record.{size_of, large_of};
ghost use Rattle.hbc_function_record.specs.Row.{width};
ghost use Rattle.hbc_function_bytes.specs.Bytes.{goes_inline};
ghost use Rattle.hbc_function_write.specs.Write.{rounded, end_at, put_headers, says_end, right_rows, WriteFunctions};
ghost use Rattle.hbc_function_write.specs.Private.{Room, Ends, Ended, Inlines, far, earlier, large_plan, looked_at, PutRow};

mod form;
mod rows;

use crate::form::{Form, LegacyForm, ModernForm};
use crate::rows::{Row, Rows};
use hbc_function_bytes::{inline_words, pointer_words, row_is_right};
use hbc_function_put::{put_header, put_large};
use hbc_function_record::{Layout, ROW_INFO_OFFSET, WIDTH, header_size, large_size};
use hbc_io::{LIMIT, Reason, Refusal, refuse};

// What the check knows after some rows: from where on large headers go, the end of what is written, and the first row that is to be refused 14.
#[derive(Clone, Copy)]
struct Plan {
    free: usize,
    end: usize,
    late: Option<u32>,
}

// A place that is past every buffer, every table and every info_offset: one further off gives the same answer.
const FAR: usize = 0x100_0000_0000;

// A place, or the nearest that is far enough.
fn nearest(large: usize) -> usize
    ensures { result ≡ min large far }
{
    large.min(FAR)
}

// The next multiple of 4.
fn rounded_up(n: usize) -> usize
    requires { n + 31 < 2 ^ 64 }
    ensures { result ≡ rounded n }
{
    (n + 3) / 4 * 4
}

// Whether a large row says where its large header ends.
fn says_end(row: [u32; WIDTH], layout: Layout, end: usize) -> bool
    ensures { result ≡ says_end layout row end }
{
    match layout {
        Layout::Legacy16 => true,
        Layout::Modern12 => row[ROW_INFO_OFFSET] as usize == end,
    }
}

// The first row that is to be refused 14, where large row `id` is one more.
fn first_late(
    late: Option<u32>,
    row: [u32; WIDTH],
    layout: Layout,
    end: usize,
    id: u32,
) -> Option<u32>
    ensures { result ≡ earlier late (cond (says_end layout row end) None (Some id)) }
{
    match late {
        Some(k) => Some(k),
        None => {
            if says_end(row, layout, end) {
                return None;
            }
            Some(id)
        }
    }
}

// The plan with one large row more.
fn with_large(plan: Plan, row: [u32; WIDTH], layout: Layout, id: u32) -> Plan
    requires { plan.free ≤ 2 ^ 60 }
    ensures { result ≡ large_plan layout row id plan }
{
    let end = rounded_up(plan.free) + large_size(layout);
    Plan {
        free: end,
        end,
        late: first_late(plan.late, row, layout, rounded_up(end), id),
    }
}

// The plan with row `id`, which does not go inline if it is right; none where it is wrong.
fn look_at(row: Row<'_>, layout: Layout, id: u32, plan: Plan) -> Option<Plan>
    requires { plan.free ≤ 2 ^ 60 }
    ensures { result ≡ looked_at layout row.entry.words.now id plan }
{
    let row = row.copied();
    if !row_is_right(row, layout, id) {
        return None;
    }
    Some(with_large(plan, row, layout, id))
}

// The end of what is written, or the first row that is refused 13, or else 14: one pass, since a row that is refused 13 is so at once, and the first that
// is refused 14 only when all were looked at.
fn check<F: Form>(rows: Rows<'_>, large: usize, table: usize) -> Result<usize, Refusal>
    requires { large ≤ far }
    ensures { answered result
        ≡ right_rows rows.entry.words.now F.LAYOUT rows.entry.count large
        (gives (end_at F.LAYOUT (row_at width rows.entry.words.now) large table rows.entry.count)) }
{
    let mut plan = Plan {
        free: large,
        end: table,
        late: None,
    };
    for id in 0..rows.count {
        let row = rows.row(id);
        if F::is_plain(row, id) {
            continue;
        }
        match look_at(row, F::LAYOUT, id, plan) {
            Some(p) => plan = p,
            None => return Err(refuse(Reason::BadRow as u32, id)),
        }
    }
    match plan.late {
        Some(id) => Err(refuse(Reason::BadInfoOffset as u32, id)),
        None => Ok(plan.end),
    }
}

fn check_rows(rows: Rows<'_>, layout: Layout, large: usize, table: usize) -> Result<usize, Refusal>
    requires { large ≤ far }
    ensures { answered result
        ≡ right_rows rows.entry.words.now layout rows.entry.count large
        (gives (end_at layout (row_at width rows.entry.words.now) large table rows.entry.count)) }
{
    match layout {
        Layout::Legacy16 => check::<LegacyForm>(rows, large, table),
        Layout::Modern12 => check::<ModernForm>(rows, large, table),
    }
}

// The headers of a row, the inline one at `at`, and from where on the next large one goes.
fn put_row_at<F: Form>(buffer: &mut [u8], row: Row<'_>, at: usize, free: usize, all: bool) -> usize
    requires size_of_in_bounds { at + size_of F.LAYOUT ≤ length buffer.old }
    requires large_of_in_bounds { goes_inline F.LAYOUT row.words.now ≡ false → rounded free + large_of F.LAYOUT ≤ length buffer.old }
    requires id_value { all ≡ true → goes_inline F.LAYOUT row.words.now ≡ true }
    requires ended { Ended F.LAYOUT row.words.now }
    ensures { PutRow F.LAYOUT at free row.entry.words.now buffer.old result buffer.new }
{
    let layout = F::LAYOUT;
    let size = F::HEADER;
    let more = F::LARGE;
    if F::is_inline(row, all) {
        put_header(
            &mut buffer[at..at + size],
            layout,
            inline_words(row.copied(), layout),
        );
        return free;
    }
    let place = rounded_up(free);
    put_header(
        &mut buffer[at..at + size],
        layout,
        pointer_words(place, layout),
    );
    let end = place + more;
    put_large(&mut buffer[place..end], layout, row.copied());
    end
}

// All rows' headers, where there is room for them; `all`: all go inline.
fn put_all<F: Form>(buffer: &mut [u8], rows: Rows<'_>, start: usize, large: usize, all: bool)
    requires room { Room F.LAYOUT (row_at width rows.words.now) start large rows.count (length buffer.old) }
    requires ends { Ends F.LAYOUT (row_at width rows.words.now) large rows.count }
    requires inlines { all ≡ true → Inlines F.LAYOUT (row_at width rows.words.now) rows.count }
    ensures { buffer.new ≡ put_headers F.LAYOUT (row_at width rows.entry.words.now) start large rows.entry.count buffer.old }
{
    let mut free = large;
    for id in 0..rows.count {
        free = put_row_at::<F>(
            buffer,
            rows.row(id),
            start + (id as usize) * F::HEADER,
            free,
            all,
        );
    }
}

fn put_rows(
    buffer: &mut [u8],
    rows: Rows<'_>,
    layout: Layout,
    start: usize,
    large: usize,
    all: bool,
)
    requires room { Room layout (row_at width rows.words.now) start large rows.count (length buffer.old) }
    requires ends { Ends layout (row_at width rows.words.now) large rows.count }
    requires inlines { all ≡ true → Inlines layout (row_at width rows.words.now) rows.count }
    ensures { buffer.new ≡ put_headers layout (row_at width rows.entry.words.now) start large rows.entry.count buffer.old }
{
    match layout {
        Layout::Legacy16 => put_all::<LegacyForm>(buffer, rows, start, large, all),
        Layout::Modern12 => put_all::<ModernForm>(buffer, rows, start, large, all),
    }
}

// Writes the headers of `count` rows into the buffer, the table at `start` and large headers from `large` on. A refusal leaves every byte as it was.
pub fn write_functions(
    rows: &[u32],
    layout: Layout,
    start: usize,
    count: u32,
    large: usize,
    buffer: &mut [u8],
) -> Result<usize, Refusal>
    ensures { WriteFunctions rows.now layout start count large buffer.old result buffer.new }
{
    if LIMIT < buffer.len() {
        return Err(refuse(Reason::TooLong as u32, 0));
    }
    if buffer.len() < start {
        return Err(refuse(Reason::PastEnd as u32, 0));
    }
    if rows.len() < (count as usize) * WIDTH {
        return Err(refuse(Reason::TooFewToRead as u32, 0));
    }
    let lent = Rows { words: rows, count };
    let table = start + (count as usize) * header_size(layout);
    let end = check_rows(lent, layout, nearest(large), table)?;
    if large < table {
        return Err(refuse(Reason::LargeBeforeEnd as u32, 0));
    }
    if buffer.len() < end {
        return Err(refuse(Reason::TooFewRows as u32, 0));
    }
    put_rows(buffer, lent, layout, start, large, end == table);
    Ok(end)
}
