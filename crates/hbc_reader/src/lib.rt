// A reader that keeps its bytes with a position, after io.rs's ByteReader: thin calls over the cursor by value.
#![tactic(auto)]

ghost use Rattle.std.specs.Prelude.{◌≡◌};
ghost use Rattle.hbc_io.specs.Answers.{says, says_moved};
ghost use Rattle.hbc_io.specs.Outcome.{cursor_at, left, valued};
ghost use Rattle.hbc_io.specs.Plain.{plain_at, seek_to, bytes_at, IsPart};
ghost use Rattle.hbc_io_leb.specs.Leb.{leb_bytes};
ghost use Rattle.hbc_io_leb.specs.Answers.{uleb_of};
ghost use Rattle.hbc_reader.specs.Reader.{bytes_of, cursor_of, moved_to, after, fresh, Reads, sought_u32};

use hbc_io::{Cursor, Moved, Read, Span};
use hbc_io_leb::Uleb;

#[derive(Drop)]
pub struct ByteReader<'a> {
    data: &'a [u8],
    pos: usize,
}

impl<'a> ByteReader<'a> {
    pub fn new(data: &'a [u8]) -> ByteReader<'a>
        ensures { result ≡ fresh «data».entry }
    {
        ByteReader { data, pos: 0 }
    }

    // Its place as a cursor.
    fn cursor(&self) -> Cursor
        ensures { result ≡ cursor_at self.now.pos }
    {
        Cursor { at: self.pos }
    }

    // Moves to where an answer leaves the cursor.
    fn follow<T>(&mut self, answer: Read<T>) -> Read<T>
        ensures answers { result ≡ answer }
        ensures leaves { self.new ≡ moved_to self.old (after (says answer)) }
    {
        match answer {
            Ok((value, next)) => {
                self.pos = next.at;
                Ok((value, next))
            }
            Err(stopped) => {
                self.pos = stopped.cursor.at;
                Err(stopped)
            }
        }
    }

    pub fn position(&self) -> usize
        ensures { result ≡ self.now.pos }
    {
        self.pos
    }

    pub fn remaining(&self) -> usize
        ensures { result ≡ left (bytes_of self.now) (cursor_of self.now) }
    {
        hbc_io::remaining(self.data, self.cursor())
    }

    pub fn seek(&mut self, pos: usize) -> Moved
        ensures { Reads (λ s c. seek_to s c pos) self.old (says_moved result) self.new }
    {
        let answer = hbc_io::seek(self.data, self.cursor(), pos);
        self.pos = match answer {
            Ok(next) => next.at,
            Err(stopped) => stopped.cursor.at,
        };
        answer
    }

    pub fn read_u32(&mut self) -> Read<u32>
        ensures { Reads (plain_at 4) self.old (says result) self.new }
    {
        let answer = hbc_io::read_u32(self.data, self.cursor());
        self.follow(answer)
    }

    pub fn read_uleb128(&mut self) -> Read<Uleb>
        ensures { Reads (λ s c. valued uleb_of (leb_bytes s c)) self.old (says result) self.new }
    {
        let answer = hbc_io_leb::read_uleb128(self.data, self.cursor());
        self.follow(answer)
    }

    pub fn read_bytes(&mut self, len: usize) -> Read<Span>
        ensures { Reads (bytes_at len) self.old (says result) self.new }
    {
        let answer = hbc_io::read_bytes(self.data, self.cursor(), len);
        self.follow(answer)
    }

    // The bytes that a span names, as a part of the lent ones, empty where it leaves them.
    pub fn part(&self, span: Span) -> &'a [u8]
        ensures { IsPart self.now.«data» span result }
    {
        hbc_io::part(self.data, span)
    }
}

// The u32 at a place, through a reader: a caller of this one needs no reader of its own.
pub fn read_u32_at(s: &[u8], pos: usize) -> Read<u32>
    ensures { says result ≡ sought_u32 s.now pos }
{
    let mut reader = ByteReader::new(s);
    reader.seek(pos)?;
    reader.read_u32()
}
