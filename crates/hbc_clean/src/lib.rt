// The clean-bundle profile: whether headers, kinds, strings and literal series are tidy, by five rules in order. Nothing is lent to be written.
#![tactic(auto)]

ghost use Rattle.std.specs.Prelude.{◌≡◌, cond, List, ℕ, ◌+◌, ◌<◌, ◌^◌, length, ltb, eqb};
ghost use Rattle.hbc_io.specs.Answers.{answered};
ghost use Rattle.hbc_table_strings.specs.Hermes.{run_length, lengths};
ghost use Rattle.hbc_lowest.specs.Lowest.{lowest_of};
ghost use Rattle.hbc_clean.specs.Strings.{empty_run};
ghost use Rattle.hbc_clean.specs.Bundle.{found_by, says_bundle, given, check_bundle};
ghost use Rattle.hbc_clean.specs.Private.{run_found, check_strings, first_broken};

use hbc_clean_large::check_large;
use hbc_clean_series::{Lows, SERIES_WIDTH, check_series};
use hbc_function_record::Layout;
use hbc_io::{LIMIT, Reason, Refusal, refuse};
use hbc_lowest::Lowest;
use hbc_rows::{field_of, word_of};
use hbc_table_strings::judge_entry;

// What the profile asks for, by the numbers of docs/FORMAT.md, section 12, which C is told.
#[derive(Clone, Copy)]
pub enum Rule {
    // Large headers start at or after the table's end and share no bytes.
    LargeHeaders = 1,
    // Kind lengths add up to the string count, with no empty run.
    KindRuns = 2,
    // Each string is valid in Hermes mode.
    Strings = 3,
    // No series passes a length-0 tag.
    EmptyTags = 4,
    // Each literal string number is below the string count.
    LiteralStrings = 5,
}

// A broken rule, and its lowest place.
#[derive(Clone, Copy)]
pub struct Broken {
    pub rule: Rule,
    pub place: usize,
}

// The first broken rule, if it is not clean; or a reader's refusal.
pub type Bundle = Result<Option<Broken>, Refusal>;

// How many strings a run names.
#[tactic(auto, unfolding(hbc_table_strings::specs::Hermes::run_length))]
fn run_length(kinds: &[u32], run: usize) -> u32
    ensures { result ≡ run_length kinds.now run }
{
    field_of(word_of(kinds, run), 0, 31)
}

// The first run that is empty, how many there are if none is.
#[tactic(auto, using(crate::proofs::Runs::emptiness))]
fn empty_run(kinds: &[u32]) -> usize
    ensures { result ≡ lowest_of (empty_run kinds.now) (length kinds.now) }
{
    for run in 0..kinds.len() {
        if run_length(kinds, run) == 0 {
            return run;
        }
    }
    kinds.len()
}

// Whether the lengths of all runs add up to `strings`. Once they are above it nothing more is added.
#[tactic(auto, using(crate::proofs::Runs::summing))]
fn adds_up(kinds: &[u32], strings: u32) -> bool
    ensures { result ≡ eqb (lengths kinds.now (length kinds.now)) strings }
{
    let mut sum: u64 = 0;
    for run in 0..kinds.len() {
        sum += run_length(kinds, run) as u64;
        if (strings as u64) < sum {
            return false;
        }
    }
    sum == (strings as u64)
}

// The lowest place that breaks rule 2, if any does.
#[tactic(auto, using(crate::proofs::Runs::lowest_runs))]
fn lowest_run(kinds: &[u32], strings: u32) -> Option<usize>
    ensures { result ≡ run_found kinds.now strings }
{
    let run = empty_run(kinds);
    if run < kinds.len() {
        return Some(run);
    }
    if adds_up(kinds, strings) {
        return None;
    }
    Some(run)
}

// The lowest of the first i + 1 that is so, from the lowest of the first i.
// hbc_clean_series has the same: shared it would be a public call, which has no `requires`, and i + 1 needs one.
fn lower(best: usize, so: bool, i: usize) -> usize
    requires { i < 2 ^ 63 }
    ensures { result ≡ cond (ltb best i) best (cond so i (i + 1)) }
{
    if best < i {
        return best;
    }
    if so {
        return i;
    }
    i + 1
}

// The lowest string that is invalid, or the first refusal.
fn check_strings(strings: u32, small: &[u32], overflow: &[u32], storage: &[u8]) -> Lowest
    ensures { (kinds : List ℕ) → answered result ≡ check_strings kinds strings small.now overflow.now storage.now }
{
    if LIMIT < storage.len() {
        return Err(refuse(Reason::TooLong as u32, 0));
    }
    let n = (strings as usize).min(small.len());
    let mut low: usize = 0;
    for i in 0..n {
        let found = judge_entry(word_of(small, i), overflow, storage.len());
        if found == 2 {
            return Err(refuse(Reason::NoOverflowPair as u32, i as u32));
        }
        low = lower(low, found == 1, i);
    }
    Ok(low)
}

// The first broken rule, of what each part found.
#[tactic(auto, unfolding(hbc_io::specs::Lends::below))]
fn verdict(
    large: usize,
    count: usize,
    run: Option<usize>,
    text: usize,
    texts: usize,
    lows: Lows,
    series: usize,
) -> Option<Broken>
    ensures { found_by result ≡ first_broken large count run text texts lows.empty lows.high series }
{
    if large < count {
        return Some(Broken {
            rule: Rule::LargeHeaders,
            place: large,
        });
    }
    if let Some(place) = run {
        return Some(Broken {
            rule: Rule::KindRuns,
            place,
        });
    }
    if text < texts {
        return Some(Broken {
            rule: Rule::Strings,
            place: text,
        });
    }
    if lows.empty < series {
        return Some(Broken {
            rule: Rule::EmptyTags,
            place: lows.empty,
        });
    }
    if lows.high < series {
        return Some(Broken {
            rule: Rule::LiteralStrings,
            place: lows.high,
        });
    }
    None
}

// The readers' refusals, headers, strings in Hermes mode, series in order; then the first broken rule with its lowest place.
pub fn check_bundle(
    file: &[u8],
    layout: Layout,
    start: usize,
    count: u32,
    kinds: &[u32],
    strings: u32,
    small: &[u32],
    overflow: &[u32],
    storage: &[u8],
    keys: &[u8],
    values: &[u8],
    series: &[u32],
) -> Bundle
    ensures { says_bundle result ≡ check_bundle (given file.now layout start count kinds.now strings small.now
        overflow.now storage.now keys.now values.now series.now) }
{
    let large = check_large(file, layout, start, count)?;
    let text = check_strings(strings, small, overflow, storage)?;
    let lows = check_series(keys, values, series, strings)?;
    Ok(verdict(
        large,
        count as usize,
        lowest_run(kinds, strings),
        text,
        (strings as usize).min(small.len()),
        lows,
        series.len() / SERIES_WIDTH,
    ))
}
