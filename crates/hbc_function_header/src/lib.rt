// One function of a header table: what it is read from, its record or a refusal, its row, and whether it meets a span of the file.
#![tactic(auto)]

ghost use Rattle.std.specs.Prelude.{◌≡◌, ◌^◌, ◌≤◌, ◌<◌};
ghost use Rattle.hbc_io.specs.Answer.{gives, asked};
ghost use Rattle.hbc_io.specs.Answers.{answered};
ghost use Rattle.hbc_io.specs.Outcome.{limit};
ghost use Rattle.hbc_function_header.specs.Header.{header_at, opened, headed, read_function, function_ground, FunctionRow};
ghost use Rattle.hbc_function_header.specs.Meets.{function_meets};

use hbc_function_record::{Found, Layout, WIDTH, header_size, large_size};
use hbc_io::{LIMIT, Reason, Refusal, refuse};

// The answer for one function: its record, and the place of the large header that it was read from, INLINE where that was its own.
pub type Function = Result<Found, Refusal>;

// The same answer without the record: small, for a pass that only checks.
pub type Reading = Result<(), Refusal>;

// What a function is read from whose header is in the file: the header at a place, or that and the large one at another.
#[derive(Clone, Copy)]
pub enum Ground {
    Inline(usize),
    Large(usize, usize),
}

// The answer for what a function is read from.
pub type Grounded = Result<Ground, Refusal>;

// The answer for whether it meets a span.
pub type Meeting = Result<bool, Refusal>;

mod find;
mod meets;

// Where the header of function `id` starts, in a table at `start`.
#[tactic(auto, using(crate::proofs::Headers::size_times))]
fn header_at(layout: Layout, start: usize, id: u32) -> usize
    requires { start ≤ limit }
    ensures { (result ≡ header_at layout start id) × (result < 2 ^ 63) }
{
    start + (id as usize) * header_size(layout)
}

// The tests that come before all else, of the file and of the start.
#[tactic(auto, unfolding(hbc_io::specs::Lends::below))]
fn open(file: &[u8], start: usize) -> Reading
    ensures { answered result ≡ opened file.now start (gives tt) }
{
    if LIMIT < file.len() {
        return Err(refuse(Reason::TooLong as u32, 0));
    }
    if file.len() < start {
        return Err(refuse(Reason::PastEnd as u32, 0));
    }
    Ok(())
}

// Whether a function's header is in the file. The place is made out again behind it: an answer that holds it is taken apart in memory.
#[tactic(auto, unfolding(hbc_io::specs::Lends::below), using(crate::proofs::Headers::size_small))]
fn head(file: &[u8], layout: Layout, start: usize, id: u32) -> Reading
    requires { start ≤ limit }
    ensures { answered result ≡ headed file.now layout start id (gives tt) }
{
    if file.len() < header_at(layout, start, id) + header_size(layout) {
        return Err(refuse(Reason::Cut as u32, id));
    }
    Ok(())
}

// Function `id` of the table at `start`.
#[tactic(auto, unfolding(crate::specs::Header::read_function, crate::specs::Header::function_at), using(crate::proofs::Headers::opening))]
pub fn read_function(file: &[u8], layout: Layout, start: usize, id: u32) -> Function
    ensures { answered result ≡ read_function file.now layout start id }
{
    open(file, start)?;
    find::read(file, layout, header_at(layout, start, id), id)
}

// Whether it can be read: the same refusals, and no record.
#[tactic(auto, unfolding(crate::specs::Header::read_function, crate::specs::Header::function_at), using(crate::proofs::Headers::opening))]
pub fn check_function(file: &[u8], layout: Layout, start: usize, id: u32) -> Reading
    ensures { answered result ≡ asked (read_function file.now layout start id) }
{
    open(file, start)?;
    find::check(file, layout, header_at(layout, start, id), id)
}

// Its row into a lent row. A refusal changes nothing.
#[tactic(auto, unfolding(crate::specs::Header::row_answer), using(crate::proofs::Headers::opening, crate::proofs::Headers::row_other))]
pub fn function_row(file: &[u8], layout: Layout, start: usize, id: u32, row: &mut [u32]) -> Reading
    ensures { FunctionRow file.now layout start id row.old result row.new }
{
    open(file, start)?;
    if row.len() != WIDTH {
        return Err(refuse(Reason::TooFewRows as u32, 0));
    }
    find::row(file, layout, header_at(layout, start, id), id, row)
}

// What it is read from.
#[tactic(auto, unfolding(crate::specs::Header::function_ground), using(crate::proofs::Headers::heading))]
pub fn function_ground(file: &[u8], layout: Layout, start: usize, id: u32) -> Grounded
    ensures { answered result ≡ function_ground file.now layout start id }
{
    open(file, start)?;
    head(file, layout, start, id)?;
    Ok(find::ground_here(file, layout, header_at(layout, start, id)))
}

// Does it meet the bytes from low up to high? Made part of its callers: a refresh asks it in a loop, which as a call of its own it costs its registers.
#[inline(always)]
#[tactic(auto, unfolding(crate::specs::Meets::function_meets), using(crate::proofs::Headers::heading, crate::proofs::Meetings::meeting))]
pub fn function_meets(
    file: &[u8],
    layout: Layout,
    start: usize,
    id: u32,
    low: usize,
    high: usize,
) -> Meeting
    ensures { answered result ≡ function_meets file.now layout start id low high }
{
    open(file, start)?;
    if high < low {
        return Err(refuse(Reason::BadSpan as u32, 0));
    }
    if file.len() < high {
        return Err(refuse(Reason::BadSpan as u32, 0));
    }
    head(file, layout, start, id)?;
    let ground = find::ground_here(file, layout, header_at(layout, start, id));
    let own = header_size(layout);
    let large = large_size(layout);
    Ok(meets::ground_meets(ground, own, large, low, high))
}
