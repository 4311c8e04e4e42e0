// One string's bytes: the part of the storage that its row names.
#![tactic(auto)]

ghost use Rattle.std.specs.Prelude.{◌≡◌};
ghost use Rattle.hbc_table_bytes.specs.StringBytes.{span_at, string_span, StringBytes};

use hbc_io::{Span, part};
use hbc_rows::word_of;
use hbc_table_strings::{STRING_BYTES, STRING_INVALID, STRING_START, STRING_WIDTH};

// The span that row `index` says, whatever the storage.
#[tactic(auto, using(crate::proofs::Laws::span_valid, crate::proofs::Laws::span_invalid, crate::proofs::Laws::span_none))]
fn span_at(rows: &[u32], index: usize) -> Span
    ensures { result ≡ span_at rows.now index }
{
    if index < rows.len() / STRING_WIDTH {
        let at = index * STRING_WIDTH;
        if word_of(rows, at + STRING_INVALID) == 0 {
            return Span {
                start: word_of(rows, at + STRING_START) as usize,
                len: word_of(rows, at + STRING_BYTES) as usize,
            };
        }
    }
    Span { start: 0, len: 0 }
}

// Where in the storage the string's bytes are; start and length 0 where there are none to hand back.
#[tactic(auto, unfolding(crate::specs::StringBytes::string_span))]
pub fn string_span(storage: &[u8], rows: &[u32], index: usize) -> Span
    ensures { result ≡ string_span storage.now rows.now index }
{
    let p = span_at(rows, index);
    if storage.len() < p.start {
        return Span { start: 0, len: 0 };
    }
    if storage.len() - p.start < p.len {
        return Span { start: 0, len: 0 };
    }
    p
}

// The string's bytes themselves.
pub fn string_bytes<'s, 'r>(storage: &'s [u8], rows: &'r [u32], index: usize) -> &'s [u8]
    ensures { StringBytes storage.entry rows.now index result }
{
    part(storage, span_at(rows, index))
}
