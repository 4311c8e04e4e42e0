// Two totals over the rows of a table of functions: how many were read from large headers, and the sum of their sizes.
#![tactic(auto)]

ghost use Rattle.std.specs.Prelude.{◌≡◌};
ghost use Rattle.hbc_io.specs.Answers.{answered};
ghost use Rattle.hbc_function_totals.specs.Totals.{share_of, exchanged};

use hbc_function_record::{INLINE, RECORD_WIDTH, ROW_SIZE};
use hbc_io::{Reason, Refusal, refuse};
use hbc_rows::word_of;

// What a row adds to them.
#[derive(Clone, Copy)]
pub struct Share {
    pub large: u32,
    pub size: u32,
}

#[derive(Clone, Copy)]
pub struct Totals {
    pub large: u64,
    pub sizes: u64,
}

// The totals after a row was exchanged, or the refusal.
pub type Kept = Result<Totals, Refusal>;

// The most that a total may be after a row was added: 2^63 - 1.
pub const MOST: u64 = 0x7FFF_FFFF_FFFF_FFFF;

// By its last word, not by its flags: the table may hold any words.
#[tactic(auto, unfolding(crate::specs::Totals::large_row, crate::specs::Totals::size_row))]
pub fn share_of(row: &[u32]) -> Share
    ensures { result ≡ share_of row.now }
{
    let size = word_of(row, ROW_SIZE);
    if word_of(row, RECORD_WIDTH) == INLINE {
        return Share { large: 0, size };
    }
    Share { large: 1, size }
}

// Row `id`: the old one is taken out of both, then the new one added to both.
#[tactic(auto, unfolding(crate::specs::Totals::exchanged, hbc_io::specs::Lends::below))]
pub fn exchange(now: Totals, id: u32, old: Share, new: Share) -> Kept
    ensures { answered result ≡ exchanged id now old new }
{
    if now.large < old.large as u64 {
        return Err(refuse(Reason::BadTotals as u32, id));
    }
    if now.sizes < old.size as u64 {
        return Err(refuse(Reason::BadTotals as u32, id));
    }
    let large = now.large - old.large as u64;
    let sizes = now.sizes - old.size as u64;
    if MOST - (new.large as u64) < large {
        return Err(refuse(Reason::BadTotals as u32, id));
    }
    if MOST - (new.size as u64) < sizes {
        return Err(refuse(Reason::BadTotals as u32, id));
    }
    Ok(Totals {
        large: large + new.large as u64,
        sizes: sizes + new.size as u64,
    })
}
