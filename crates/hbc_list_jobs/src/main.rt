// Runs many jobs through the listing: each is a name's length in one byte, a job's length in four, the name, and the job.
#![tactic(auto)]

ghost use Rattle.std.specs.Prelude.{◌<◌, length, IfSome};

use hbc_io::{u8_at, u32_at};
use hbc_stdio::{Out, read_full};
use std::io;

// Runs the case at a place, and says where it ends; one that is cut is not run.
fn run(out: &mut Out, s: &[u8], at: usize) -> Option<usize>
    requires { at < length s.now }
    ensures { IfSome result (λ end. at < end) }
{
    let name = at + 5;
    let job = name + u8_at(s, at) as usize;
    let end = job + u32_at(s, at + 1) as usize;
    if s.len() < end {
        return None;
    }
    out.write_all(b"-- ");
    out.write_all(&s[name..job]);
    out.write_all(b"\n");
    // a refusal is shown in its line
    let _ = hbc_job::show::list(out, &s[job..end]);
    Some(end)
}

fn main(rt: HostRuntime) -> io::Result<()> {
    let mut buf = [0u8; 120000];
    let n = read_full(&mut rt.stdin(), &mut buf)?;
    let mut out = Out::new(rt.stdout());
    let mut at: usize = 0;
    // no `for`: the next case begins where this one ends
    while at < n {
        match run(&mut out, &buf[..n], at) {
            Some(end) => at = end,
            None => break,
        }
    }
    out.end()
}
