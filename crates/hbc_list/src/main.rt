// Lists the functions of the job on standard input.
#![tactic(auto)]

use hbc_stdio::{Out, read_full};
use std::io;

fn main(rt: HostRuntime) -> io::Result<()> {
    // the longest job is 21 + 65535 bytes: a longer input is none, and here still shows as longer
    let mut buf = [0u8; 65600];
    let n = read_full(&mut rt.stdin(), &mut buf)?;
    let mut out = Out::new(rt.stdout());
    // a refusal is shown in its line
    let _ = hbc_job::show::list(&mut out, &buf[..n]);
    out.end()
}
