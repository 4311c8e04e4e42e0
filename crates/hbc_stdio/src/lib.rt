// Standard input and output, as the programs use them. What is read or written no contract can say.
#![tactic(auto)]

ghost use Rattle.std.specs.Prelude.{◌≡◌, ◌≤◌, length, IfOk, Some, None, Ok, Err, MatchResult};
ghost use Rattle.hbc_stdio.specs.Out.{whole, Writes};

use std::io;
use std::io::{Read, Stdout, Write};

// Reads until buf is full or the input ends; how many bytes it put at the start of buf.
pub fn read_full<R: Read>(input: &mut R, buf: &mut [u8]) -> io::Result<usize>
    ensures { IfOk result (λ n. n ≤ length buf.new) }
{
    let mut done: usize = 0;
    // no `for`: how far it goes is what each read gave
    while done < buf.len() {
        let n = input.read(&mut buf[done..])?;
        if n == 0 {
            break;
        }
        done += n;
    }
    Ok(done)
}

// Standard output, and the first error of a write: behind it nothing is written. That all was written is what `end` answers.
#[derive(Drop)]
pub struct Out {
    to: Stdout,
    failed: Option<io::Error>,
}

impl Out {
    pub fn new(to: Stdout) -> Out
        ensures { result ≡ record { «to» = «to»; failed = None } }
    {
        Out { to, failed: None }
    }

    // Whether all went well so far.
    pub fn is_whole(&self) -> bool
        ensures { result ≡ whole self.now }
    {
        self.failed.is_none()
    }

    // Keeps the error of a write.
    fn keep(&mut self, written: io::Result<()>)
        ensures { MatchResult written (λ u. self.new ≡ self.old) (λ e. self.new.failed ≡ Some e) }
    {
        if let Err(e) = written {
            self.failed = Some(e);
        }
    }

    // Writes all of the bytes.
    pub fn write_all(&mut self, bytes: &[u8])
        ensures { Writes self.old self.new }
    {
        if self.is_whole() {
            let written = self.to.write_all(bytes);
            self.keep(written);
        }
    }

    // Writes the number in decimal digits.
    pub fn print_decimal(&mut self, n: u64)
        ensures { Writes self.old self.new }
    {
        if !self.is_whole() {
            return;
        }
        let written = write!(self.to, "{n}");
        self.keep(written);
    }

    // What became of the writes: the error of the one that failed.
    pub fn end(self) -> io::Result<()>
        ensures { MatchResult result (λ u. self.failed ≡ None) (λ e. self.failed ≡ Some e) }
    {
        match self.failed {
            Some(e) => Err(e),
            None => Ok(()),
        }
    }
}
