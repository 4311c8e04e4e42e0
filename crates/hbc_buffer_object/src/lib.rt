// An object's series, after buffer.rs: key and value buffers that the caller lends, each with its own lifetime, one of them named by a yes or no.
#![tactic(auto)]

ghost use Rattle.std.specs.Prelude.{◌≡◌};
ghost use Rattle.hbc_buffer_object.specs.Object.{named, ObjectPart, start_of, ReadObject, object_in};

use hbc_buffer::read_series;
use hbc_io::{Refusal, Span, part};

// What was read: of the keys or not, and where its bytes are there.
#[derive(Clone, Copy)]
pub struct Object {
    pub yes: bool,
    pub start: usize,
    pub len: usize,
}

// The lent buffer that is named: yes means keys.
fn choose<'k: 'r, 'v: 'r, 'r>(keys: &'k [u8], values: &'v [u8], yes: bool) -> &'r [u8]
    ensures { result ≡ named yes keys.entry values.entry }
{
    if yes {
        return keys;
    }
    values
}

// The bytes of a series that was read, as a part of the buffer that it was read from, at a lifetime that both buffers outlive.
pub fn object_part<'k: 'r, 'v: 'r, 'r>(keys: &'k [u8], values: &'v [u8], o: Object) -> &'r [u8]
    ensures { ObjectPart keys.entry values.entry o result }
{
    let bytes = Span {
        start: o.start,
        len: o.len,
    };
    part(choose(keys, values, o.yes), bytes)
}

// The object of an answer; refused, that of no bytes, at the beginning of the buffer that was asked for.
pub fn object_in(yes: bool, answer: Result<Object, Refusal>) -> Object
    ensures { result ≡ object_in yes answer }
{
    match answer {
        Ok(o) => o,
        Err(_) => Object {
            yes,
            start: 0,
            len: 0,
        },
    }
}

fn start_of(offset: u32, count: u32) -> usize
    ensures { result ≡ start_of offset count }
{
    if count == 0 {
        return 0;
    }
    offset as usize
}

// Reads the series at `offset` of the named buffer into the two tables. Only that buffer is tested.
pub fn read_object<'k, 'v>(
    keys: &'k [u8],
    values: &'v [u8],
    yes: bool,
    offset: u32,
    count: u32,
    kinds: &mut [u32],
    payloads: &mut [u64],
) -> Result<Object, Refusal>
    ensures { ReadObject keys.now values.now yes offset count
        kinds.old payloads.old result kinds.new payloads.new }
{
    let s = choose(keys, values, yes);
    let len = read_series(s, offset, count, kinds, payloads)?;
    Ok(Object {
        yes,
        start: start_of(offset, count),
        len: len as usize,
    })
}
