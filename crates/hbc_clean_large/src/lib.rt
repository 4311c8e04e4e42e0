// Large headers that are tidy: at or after the table's end, and apart. Those in rising order take one pass. Else each pass looks at the large headers
// in a window of the file, by slots of one header's length: headers of one slot share bytes, and with any other only one in the slot beside it can. So
// it is enough to keep the first function of each slot, and the passes are no more than the windows of a file, however many functions there are.
#![tactic(auto)]

ghost use Rattle.std.specs.Prelude.{◌≡◌, Some, true, false, ℕ, ◌+◌, ◌-◌, ◌*◌, ◌/◌, ◌≤◌, ◌<◌, ◌^◌, length};
ghost use Rattle.hbc_io.specs.Answer.{gives, asked};
ghost use Rattle.hbc_io.specs.Outcome.{limit};
ghost use Rattle.hbc_io.specs.Answers.{answered};
ghost use Rattle.hbc_function_header.specs.Header.{function_at};
ghost use Rattle.hbc_function.specs.Table.{scan, all};
ghost use Rattle.hbc_lowest.specs.Lowest.{lowest_of};
ghost use Rattle.hbc_function_record.specs.Record.{large_of};
ghost use Rattle.hbc_clean_large.specs.Large.{breaks_large, check_large};
ghost use Rattle.hbc_clean_large.specs.Private.{spot_at, is_large, Here, Readable, slots, Tidy, Early, Nearer, Filled, Least, Looked, Swept, SweptOn};

use hbc_function_header::{Reading, check_function};
use hbc_function_record::{Layout, header_link, header_size, large_size};
use hbc_io::{LIMIT, Reason, refuse};
use hbc_lowest::Lowest;
use hbc_rows::word_of;

// How many slots a window has: 256 KiB of stack.
const SLOTS: usize = 65536;

// Where a function's large header is, if it has one: what its own header says, which is in the file. Not by way of function_ground, whose answer the loops
// here would take apart in memory.
#[tactic(auto, using(crate::proofs::Grounds::spot_link, hbc_function_header::proofs::Headers::size_times))]
fn spot_of(s: &[u8], layout: Layout, start: usize, id: u32) -> Option<usize>
    requires { (start ≤ length s.now) × (length s.now ≤ limit) × Here s.now layout start id }
    ensures { result ≡ spot_at s.now layout start id }
{
    header_link(s, layout, start + (id as usize) * header_size(layout))
}

// The first refusal among functions 0 to count - 1.
#[tactic(auto, using(hbc_function::proofs::Laws::scanning))]
fn check_all(s: &[u8], layout: Layout, start: usize, count: u32) -> Reading
    requires { (start ≤ length s.now) × (length s.now ≤ limit) }
    ensures result_value { answered result ≡ asked (scan all (function_at s.now layout start) count) }
    ensures readable { answered result ≡ gives tt → Readable s.now layout start count }
{
    for id in 0..count {
        check_function(s, layout, start, id)?;
    }
    Ok(())
}

// One pass: whether each large header starts where the one before it ends, or later, the first at or after the table's end.
fn is_rising(s: &[u8], layout: Layout, start: usize, count: u32, end: usize) -> bool
    requires { (start ≤ length s.now) × (length s.now ≤ limit) × Readable s.now layout start count }
    ensures { result ≡ true → Tidy (large_of layout) (spot_at s.now layout start) end count }
{
    let size = large_size(layout);
    let mut floor = end;
    for id in 0..count {
        let Some(place) = spot_of(s, layout, start, id) else {
            continue;
        };
        if place < floor {
            return false;
        }
        floor = place + size;
    }
    true
}

// The lowest function whose large header starts before the table's end.
fn first_early(s: &[u8], layout: Layout, start: usize, count: u32, end: usize) -> u32
    requires { (start ≤ length s.now) × (length s.now ≤ limit) × Readable s.now layout start count }
    ensures { Early (spot_at s.now layout start) end count result }
{
    for id in 0..count {
        if let Some(place) = spot_of(s, layout, start, id) {
            if place < end {
                return id;
            }
        }
    }
    count
}

// The lower of `best` and the function that a slot keeps, if its large header shares a byte with the one at `place`.
fn nearer(s: &[u8], layout: Layout, start: usize, kept: u32, place: usize, best: u32) -> u32
    requires { (start ≤ length s.now) × (length s.now ≤ limit) × (place ≤ limit) × ((v : ℕ) → kept ≡ v + 1 → Here s.now layout start v
        × (is_large (spot_at s.now layout start v) ≡ true)) }
    ensures { Nearer (large_of layout) (spot_at s.now layout start) kept place best result }
{
    if kept == 0 {
        return best;
    }
    let id = kept - 1;
    if best <= id {
        return best;
    }
    // it has one: no other function is kept
    let other = spot_of(s, layout, start, id).unwrap_or(0);
    let size = large_size(layout);
    if other + size <= place {
        return best;
    }
    if place + size <= other {
        return best;
    }
    id
}

// The slot before one of a window's, past the window where there is none.
fn left_of(k: usize) -> usize
    ensures { (0 < k → result ≡ k - 1) × (k ≡ 0 → result ≡ slots) }
{
    if k == 0 {
        return SLOTS;
    }
    k - 1
}

// One function of a window: what it finds in its slot and in those beside it, and itself if its slot is free.
fn look(
    s: &[u8],
    layout: Layout,
    start: usize,
    id: u32,
    first: usize,
    place: usize,
    best: u32,
    t: &mut [u32],
) -> u32
    requires { (start ≤ length s.now) × (length s.now ≤ limit) × (id < 4294967295) × Readable s.now layout start (id + 1)
        × (spot_at s.now layout start id ≡ Some place)
        × Filled (large_of layout) (spot_at s.now layout start) first id t.old }
    ensures { Looked (large_of layout) (spot_at s.now layout start) first id best result t.new }
{
    let slot = place / large_size(layout);
    if slot < first {
        return best;
    }
    let k = slot - first;
    if SLOTS <= k {
        return best;
    }
    let own = nearer(s, layout, start, word_of(t, k), place, best);
    let left = nearer(s, layout, start, word_of(t, left_of(k)), place, own);
    let right = nearer(s, layout, start, word_of(t, k + 1), place, left);
    if t[k] == 0 {
        t[k] = id + 1;
    }
    right
}

// One pass: the lower of `best` and the lowest function whose large header shares a byte with that of a higher one, both in the window from slot `first` on.
// Most functions are told to be outside by a byte, and their slot is not made out.
fn window(s: &[u8], layout: Layout, start: usize, count: u32, first: usize, best: u32) -> u32
    requires { (start ≤ length s.now) × (length s.now ≤ limit) × Readable s.now layout start count × (first ≤ 2 ^ 41) }
    ensures { Least (large_of layout) (spot_at s.now layout start) first count best result }
{
    let mut t = [0u32; SLOTS];
    let size = large_size(layout);
    let from = first * size;
    let to = (first + SLOTS) * size;
    let mut low = best;
    for id in 0..count {
        let Some(place) = spot_of(s, layout, start, id) else {
            continue;
        };
        if place < from {
            continue;
        }
        if to <= place {
            continue;
        }
        low = look(s, layout, start, id, first, place, low, &mut t);
    }
    low
}

// The windows from slot `from` on, with what was found in those before them.
fn rest(s: &[u8], layout: Layout, start: usize, count: u32, from: usize, best: u32) -> u32
    requires { (start ≤ length s.now) × (length s.now ≤ limit) × Readable s.now layout start count × (from ≤ 2 ^ 41) }
    ensures { SweptOn (large_of layout) (spot_at s.now layout start) from (length s.now) count best result }
{
    let size = large_size(layout);
    let mut first = from;
    let mut low = best;
    // no `for`: its end is a number of bytes, and none is lower than 0
    while first * size < s.len() {
        low = window(s, layout, start, count, first, low);
        if low == 0 {
            // none is lower
            return 0;
        }
        first += SLOTS - 1;
    }
    low
}

// The windows from slot `from` on. Each begins with the last slot of the one before it, so that two slots side by side are in one of them. A window is
// called from two places, so that its array is on no stack but while it runs.
fn windows(s: &[u8], layout: Layout, start: usize, count: u32, from: usize, best: u32) -> u32
    requires { (start ≤ length s.now) × (length s.now ≤ limit) × Readable s.now layout start count × (from ≤ 2 ^ 40) }
    ensures { Swept (large_of layout) (spot_at s.now layout start) from (length s.now) count best result }
{
    let low = window(s, layout, start, count, from, best);
    rest(s, layout, start, count, from + (SLOTS - 1), low)
}

// The slot before which no large header starts that shares a byte with one at or after the table's end.
fn first_slot(end: usize, size: usize) -> usize
    requires { 0 < size }
    ensures { result ≡ end / size - 1 }
{
    let slot = end / size;
    if slot == 0 {
        return 0;
    }
    slot - 1
}

// The lowest function that breaks the rule, `count` if none does.
fn lowest_large(s: &[u8], layout: Layout, start: usize, count: u32) -> u32
    requires { (start ≤ length s.now) × (length s.now ≤ limit) × Readable s.now layout start count }
    ensures { result ≡ lowest_of (breaks_large s.now layout start count) count }
{
    let end = start + (count as usize) * header_size(layout);
    if is_rising(s, layout, start, count, end) {
        return count;
    }
    let early = first_early(s, layout, start, count, end);
    if early == 0 {
        return 0;
    }
    windows(
        s,
        layout,
        start,
        count,
        first_slot(end, large_size(layout)),
        early,
    )
}

// The readers' refusal of the headers; else the lowest function whose large header is not tidy, `count` if all are.
#[tactic(auto, using(crate::proofs::Exits::exits))]
pub fn check_large(file: &[u8], layout: Layout, start: usize, count: u32) -> Lowest
    ensures { answered result ≡ check_large file.now layout start count }
{
    if LIMIT < file.len() {
        return Err(refuse(Reason::TooLong as u32, 0));
    }
    if file.len() < start {
        return Err(refuse(Reason::PastEnd as u32, 0));
    }
    check_all(file, layout, start, count)?;
    Ok(lowest_large(file, layout, start, count) as usize)
}
