// Which strings are identifiers: kind runs, one word each, bit 31 the kind, the low 31 bits how many strings.
ghost use Rattle.std.specs.Prelude.{◌≡◌, ◌≤◌, ◌<◌, ◌^◌, length};
ghost use Rattle.hbc_table_strings.specs.Kinds.{run_kind, holding, spent};
ghost use Rattle.hbc_table_strings.specs.Private.{next_full, moved_in};

use crate::Mode;
use hbc_rows::{field_of, word_of};

// The kind run that is held, and how many strings it has still to name.
#[derive(Clone, Copy)]
pub struct Held {
    pub run: usize,
    pub left: u32,
}

#[tactic(auto, unfolding(crate::specs::Kinds::holding))]
pub(crate) fn holding(kinds: &[u32], run: usize) -> Held
    ensures { result ≡ holding kinds.now run }
{
    Held {
        run,
        left: field_of(word_of(kinds, run), 0, 31),
    }
}

// The first run from `run` on that is not empty, or the one behind the last.
#[tactic(auto, using(crate::proofs::Runs::full_more, crate::proofs::Runs::full_here, crate::proofs::Runs::full_none))]
fn next_full(kinds: &[u32], run: usize) -> usize
    requires { run ≤ length kinds.now }
    ensures { result ≡ next_full kinds.now run }
{
    for r in run..kinds.len() {
        if field_of(word_of(kinds, r), 0, 31) != 0 {
            return r;
        }
    }
    kinds.len()
}

// How a string gets its kind: before it, where nothing remains, the next run is held, be it empty or not; in Hermes the next that is not empty.
#[tactic(auto, unfolding(crate::specs::Kinds::moved_on, crate::specs::Private::passed_on))]
pub(crate) fn moved_on(mode: Mode, kinds: &[u32], h: Held) -> Held
    requires { h.run < 2 ^ 62 }
    ensures { result ≡ moved_in mode kinds.now h }
{
    if h.left != 0 {
        return h;
    }
    match mode {
        Mode::InOrder => holding(kinds, h.run + 1),
        Mode::Hermes => {
            if h.run < kinds.len() {
                return holding(kinds, next_full(kinds, h.run + 1));
            }
            h
        }
    }
}

pub(crate) fn spent(h: Held) -> Held
    ensures { result ≡ spent h }
{
    if h.left == 0 {
        return h;
    }
    Held {
        run: h.run,
        left: h.left - 1,
    }
}

// 1 identifier, 0 string.
#[tactic(auto, using(hbc_bits::proofs::Laws::field_lt), unfolding(crate::specs::Kinds::run_kind))]
pub(crate) fn run_kind(kinds: &[u32], run: usize) -> u32
    ensures { (result ≡ run_kind kinds.now run) × (result < 2) }
{
    field_of(word_of(kinds, run), 31, 1)
}
