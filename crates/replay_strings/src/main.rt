// Replays recorded answers of the published Rust from standard input (docs/RECORDS.md has the form of a record): the calls of strings, of literals, of debug
// data and of bundles. Makes each call, and says for each group how many records there are and how many were answered otherwise.
#![tactic(auto)]

mod buffer;
mod clean;
mod debug;
mod table;

use hbc_record::{Call, Tally, counted, field_at, field_of, head, past, report};
use hbc_stdio::{Out, read_full};
use hbc_table_strings::Mode;
use std::io;
use std::io::Stdin;

// Whether a call does what is recorded.
fn judge(call: Call) -> bool {
    match call.n.call {
        19 => table::read_u32_table(call),
        20 => table::read_pair_table(call),
        21 => table::decode_strings(call, Mode::InOrder),
        31 => table::decode_strings(call, Mode::Hermes),
        22 => table::string_bytes(call),
        32 => table::string_text(call),
        23 => buffer::read_literal(call),
        24 => buffer::read_series(call),
        25 => buffer::read_object(call),
        28 => debug::read_debug(call),
        35 => clean::check_bundle(call),
        _ => false,
    }
}

fn turn(out: &mut Out, record: &[u8], t: Tally) -> Tally {
    if record.is_empty() {
        return t;
    }
    let n = head(record);
    if n.call == 0 {
        return report(out, field_of(record, 1), t);
    }
    let s = field_of(record, 1);
    counted(t, judge(Call { record, s, n }))
}

// As many turns as there are bytes are enough: no fewer than there are records.
fn replay(out: &mut Out, s: &[u8]) {
    let mut t = Tally { all: 0, bad: 0 };
    let mut at: usize = 0;
    for _ in s {
        if s.len() <= at {
            return;
        }
        t = turn(out, field_at(s, at), t);
        at = past(s, at);
    }
}

// Apart from main, so that the buffer's length is no number that a proof goes by.
fn run(input: &mut Stdin, out: &mut Out, buf: &mut [u8]) -> io::Result<()> {
    let n = read_full(input, buf)?;
    replay(out, &buf[..n]);
    Ok(())
}

fn main(rt: HostRuntime) -> io::Result<()> {
    let mut buf = [0u8; 500000];
    let mut out = Out::new(rt.stdout());
    run(&mut rt.stdin(), &mut out, &mut buf)?;
    out.end()
}
