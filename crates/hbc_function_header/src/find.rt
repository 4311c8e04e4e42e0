// What a function is read from, by the place of its header, and what is made of it: what is found, its row, or only whether it can be read.
ghost use Rattle.std.specs.Prelude.{◌≡◌, ◌+◌, ◌^◌, ◌≤◌, ◌<◌, length};
ghost use Rattle.hbc_io.specs.Answer.{asked};
ghost use Rattle.hbc_io.specs.Answers.{answered, number_of};
ghost use Rattle.hbc_io.specs.Outcome.{limit, refusal_at};
ghost use Rattle.hbc_io.specs.Plain.{word_at};
ghost use Rattle.hbc_function_record.specs.Record.{size_of, large_of, inline_of, large_in};
ghost use Rattle.hbc_function_record.specs.Row.{width, inline};
ghost use Rattle.hbc_function_record.specs.declared.Layout.TheVariants.{Legacy16, Modern12};
ghost use Rattle.hbc_function_header.specs.Header.{ground_here, ground_of, where_of, where_at, record_at};
ghost use Rattle.hbc_function_header.specs.Private.{RowBy};

use crate::{Function, Ground, Reading};
use hbc_function_record::{
    Found, INLINE, Layout, header_link, header_size, inline_record, large_record, large_size,
    row_words,
};
use hbc_io::{Reason, Refusal, refuse};
use hbc_rows::put_row;

// Of a header that is in the file.
#[tactic(auto, using(hbc_io::proofs::Plains::word_there))]
pub(crate) fn ground_here(s: &[u8], layout: Layout, at: usize) -> Ground
    requires { at + size_of layout ≤ length s.now }
    ensures { result ≡ ground_here s.now layout at }
{
    match header_link(s, layout, at) {
        None => Ground::Inline(at),
        Some(place) => Ground::Large(at, place),
    }
}

#[tactic(auto, unfolding(crate::specs::Header::ground_of, hbc_io::specs::Lends::below), using(crate::proofs::Headers::size_small))]
fn ground_of(s: &[u8], layout: Layout, at: usize) -> Option<Ground>
    requires { at < 2 ^ 63 }
    ensures { result ≡ ground_of s.now layout at }
{
    if s.len() < at + header_size(layout) {
        return None;
    }
    Some(ground_here(s, layout, at))
}

// Where the record is: in its own header, which is None, or in a large one at a place; or why it is nowhere.
type Where = Result<Option<usize>, Reason>;

// By what the function is read from and the bytes of a large header.
#[tactic(auto, unfolding(crate::specs::Header::where_of, hbc_io::specs::Lends::below))]
fn where_of(s: &[u8], g: Option<Ground>, n: usize) -> Where
    ensures { result ≡ where_of s.now n g }
{
    match g {
        None => Err(Reason::Cut),
        Some(Ground::Inline(_)) => Ok(None),
        Some(Ground::Large(_, place)) => {
            if s.len() < place {
                return Err(Reason::PastEnd);
            }
            if s.len() - place < n {
                return Err(Reason::Cut);
            }
            Ok(Some(place))
        }
    }
}

#[tactic(auto, unfolding(crate::specs::Header::where_at))]
fn where_at(s: &[u8], layout: Layout, at: usize) -> Where
    requires { at < 2 ^ 63 }
    ensures { result ≡ where_at s.now layout at }
{
    where_of(s, ground_of(s, layout, at), large_size(layout))
}

// What is found in the inline header at `at`.
fn own(s: &[u8], layout: Layout, at: usize, id: u32) -> Found
    ensures { (result.own ≡ inline_of layout id (word_at (size_of layout) s.now at)) × (result.place ≡ inline) }
{
    Found {
        own: inline_record(s, layout, at, id),
        place: INLINE,
    }
}

// And in a large one that is there.
fn large(s: &[u8], layout: Layout, place: usize, id: u32) -> Found
    requires { (place + large_of layout ≤ length s.now) × (length s.now ≤ limit) }
    ensures { (result.own ≡ large_in s.now layout place id) × (result.place ≡ place) }
{
    Found {
        own: large_record(s, layout, place, id),
        place: place as u32,
    }
}

fn refused(reason: Reason, id: u32) -> Refusal
    ensures { result ≡ refusal_at (number_of reason) id }
{
    refuse(reason as u32, id)
}

pub(crate) fn read(s: &[u8], layout: Layout, at: usize, id: u32) -> Function
    requires { (at < 2 ^ 63) × (length s.now ≤ limit) }
    ensures { answered result ≡ record_at s.now layout at id }
{
    match where_at(s, layout, at) {
        Ok(None) => Ok(own(s, layout, at, id)),
        Ok(Some(place)) => Ok(large(s, layout, place, id)),
        Err(reason) => Err(refused(reason, id)),
    }
}

pub(crate) fn check(s: &[u8], layout: Layout, at: usize, id: u32) -> Reading
    requires { at < 2 ^ 63 }
    ensures { answered result ≡ asked (record_at s.now layout at id) }
{
    match where_at(s, layout, at) {
        Ok(_) => Ok(()),
        Err(reason) => Err(refused(reason, id)),
    }
}

// The row of each layout apart, so that a loop over one of them has nothing of the other.
fn legacy_row(s: &[u8], at: usize, id: u32, row: &mut [u32]) -> Reading
    requires at_bound { (at < 2 ^ 63) × (length s.now ≤ limit) }
    requires row_len { length row.old ≡ width }
    ensures { RowBy (record_at s.now Legacy16 at id) row.old result row.new }
{
    match where_at(s, Layout::Legacy16, at) {
        Ok(None) => {
            let words = row_words(own(s, Layout::Legacy16, at, id));
            put_row(row, 0, &words);
            Ok(())
        }
        Ok(Some(place)) => {
            let words = row_words(large(s, Layout::Legacy16, place, id));
            put_row(row, 0, &words);
            Ok(())
        }
        Err(reason) => Err(refused(reason, id)),
    }
}

fn modern_row(s: &[u8], at: usize, id: u32, row: &mut [u32]) -> Reading
    requires at_bound { (at < 2 ^ 63) × (length s.now ≤ limit) }
    requires row_len { length row.old ≡ width }
    ensures { RowBy (record_at s.now Modern12 at id) row.old result row.new }
{
    match where_at(s, Layout::Modern12, at) {
        Ok(None) => {
            let words = row_words(own(s, Layout::Modern12, at, id));
            put_row(row, 0, &words);
            Ok(())
        }
        Ok(Some(place)) => {
            let words = row_words(large(s, Layout::Modern12, place, id));
            put_row(row, 0, &words);
            Ok(())
        }
        Err(reason) => Err(refused(reason, id)),
    }
}

pub(crate) fn row(s: &[u8], layout: Layout, at: usize, id: u32, row: &mut [u32]) -> Reading
    requires at_bound { (at < 2 ^ 63) × (length s.now ≤ limit) }
    requires row_len { length row.old ≡ width }
    ensures { RowBy (record_at s.now layout at id) row.old result row.new }
{
    match layout {
        Layout::Legacy16 => legacy_row(s, at, id, row),
        Layout::Modern12 => modern_row(s, at, id, row),
    }
}
