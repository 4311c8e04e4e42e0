// Replays recorded answers of the published Rust, and DWARF's worked examples, from standard input (docs/RECORDS.md has the form of a record): the calls of
// the cursor layer, of functions, and of handlers and sections. Makes each call, and says for each group how many records there are and how many were
// answered otherwise.
#![tactic(auto)]

mod cursor;
mod function;
mod parsing;

use hbc_record::{Call, Tally, counted, field_at, field_of, head, past, report};
use hbc_stdio::{Out, read_full};
use std::io;
use std::io::Stdin;

// Whether a call does what is recorded.
fn judge(call: Call) -> bool {
    match call.n.call {
        15 => function::read_functions(call),
        16 => function::read_function(call),
        17 => function::refresh_functions(call),
        18 => function::function_meets(call),
        26 => parsing::read_handlers(call),
        27 => parsing::trailing_sections(call),
        29 => function::function_ground(call),
        30 => function::write_functions(call),
        33 => parsing::why_no_handlers(call),
        34 => function::read_refreshed(call),
        _ => cursor::judge(call),
    }
}

fn turn(out: &mut Out, record: &[u8], t: Tally) -> Tally {
    if record.is_empty() {
        return t;
    }
    let n = head(record);
    if n.call == 0 {
        return report(out, field_of(record, 1), t);
    }
    let s = field_of(record, 1);
    counted(t, judge(Call { record, s, n }))
}

// As many turns as there are bytes are enough: no fewer than there are records.
fn replay(out: &mut Out, s: &[u8]) {
    let mut t = Tally { all: 0, bad: 0 };
    let mut at: usize = 0;
    for _ in s {
        if s.len() <= at {
            return;
        }
        t = turn(out, field_at(s, at), t);
        at = past(s, at);
    }
}

// Apart from main, so that the buffer's length is no number that a proof goes by.
fn run(input: &mut Stdin, out: &mut Out, buf: &mut [u8]) -> io::Result<()> {
    let n = read_full(input, buf)?;
    replay(out, &buf[..n]);
    Ok(())
}

fn main(rt: HostRuntime) -> io::Result<()> {
    let mut buf = [0u8; 500000];
    let mut out = Out::new(rt.stdout());
    run(&mut rt.stdin(), &mut out, &mut buf)?;
    out.end()
}
