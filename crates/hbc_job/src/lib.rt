// The listing: its job, which is tagged fields, each a tag of one byte, a length of two, and so many bytes; and its lines, in show.rt.
#![tactic(auto)]

ghost use Rattle.std.specs.Prelude.{◌≡◌, ◌^◌, ◌<◌};
ghost use Rattle.hbc_io.specs.Answer.{refuses};
ghost use Rattle.hbc_io.specs.Answers.{answered};
ghost use Rattle.hbc_job.specs.Job.{tagged, malformed, job_of};

use hbc_function_record::Layout;
use hbc_io::{LIMIT, Reason, Refusal, refuse, u8_at, u16_at, u32_at};

// Where the file of a job starts: after three heads, 1 + 4 + 4 bytes, and its own head.
pub const FILE: usize = 21;

#[derive(Clone, Copy)]
pub struct Parts {
    pub layout: Layout,
    pub start: u32,
    pub count: u32,
}

// How many functions are listed at most.
pub const LISTED: usize = 512;

pub mod show;

// Whether the field at a place has this tag and so many bytes.
#[tactic(auto, unfolding(crate::specs::Job::tagged))]
fn is_tagged(s: &[u8], at: usize, tag: u8, len: usize) -> bool
    requires { at < 2 ^ 63 }
    ensures { result ≡ tagged s.now at tag len }
{
    u8_at(s, at) == tag && u16_at(s, at + 1) as usize == len
}

// Whatever is wrong with a job, it has one number.
fn malformed() -> Refusal
    ensures { refuses result ≡ malformed }
{
    refuse(Reason::NoSuchLayout as u32, 0)
}

// The job that s holds.
#[tactic(auto, unfolding(crate::specs::Job::job_of, hbc_io::specs::Lends::below))]
pub fn parse_job(s: &[u8]) -> Result<Parts, Refusal>
    ensures { answered result ≡ job_of s.now }
{
    if LIMIT < s.len() {
        return Err(malformed());
    }
    if s.len() < FILE {
        return Err(malformed());
    }
    if !is_tagged(s, 0, 1, 1) {
        return Err(malformed());
    }
    if !is_tagged(s, 4, 2, 4) {
        return Err(malformed());
    }
    if !is_tagged(s, 11, 3, 4) {
        return Err(malformed());
    }
    if !is_tagged(s, 18, 4, s.len() - FILE) {
        return Err(malformed());
    }
    let start = u32_at(s, 7);
    let count = u32_at(s, 14);
    let layout = match u8_at(s, 3) {
        0 => Layout::Legacy16,
        1 => Layout::Modern12,
        _ => return Err(malformed()),
    };
    Ok(Parts {
        layout,
        start,
        count,
    })
}
