// The lines of a listing, on standard output: one for each function, or one alone for a refusal. What is written no contract can say.
ghost use Rattle.std.specs.Prelude.{◌≡◌};
ghost use Rattle.hbc_io.specs.Answers.{answered};
ghost use Rattle.hbc_job.specs.Job.{listing};

use crate::{FILE, LISTED, Parts, parse_job};
use hbc_function_record::{
    Layout, ROW_FLAGS, ROW_FRAME_SIZE, ROW_INFO_OFFSET, ROW_NAME, ROW_OFFSET, ROW_SIZE, WIDTH,
};
use hbc_io::Refusal;
use hbc_rows::word_of;
use hbc_stdio::Out;

fn refused(out: &mut Out, r: Refusal) {
    out.write_all(b"refused ");
    out.print_decimal(r.number as u64);
    out.write_all(b" at ");
    out.print_decimal(r.place as u64);
    out.write_all(b"\n");
}

fn heading(out: &mut Out, layout: Layout, count: u32) {
    match layout {
        Layout::Legacy16 => out.write_all(b"layout legacy16 functions "),
        Layout::Modern12 => out.write_all(b"layout modern12 functions "),
    }
    out.print_decimal(count as u64);
    out.write_all(b"\n");
}

fn field(out: &mut Out, name: &[u8], value: u32) {
    out.write_all(name);
    out.print_decimal(value as u64);
}

// Whether the line could be ended.
fn row(out: &mut Out, rows: &[u32], id: u32) -> bool {
    let at = (id as usize) * WIDTH;
    out.print_decimal(id as u64);
    field(out, b" offset ", word_of(rows, at + ROW_OFFSET));
    field(out, b" size ", word_of(rows, at + ROW_SIZE));
    field(out, b" name ", word_of(rows, at + ROW_NAME));
    field(out, b" info ", word_of(rows, at + ROW_INFO_OFFSET));
    field(out, b" frame ", word_of(rows, at + ROW_FRAME_SIZE));
    field(out, b" flags ", word_of(rows, at + ROW_FLAGS));
    out.write_all(b"\n");
    out.is_whole()
}

fn rows_of(out: &mut Out, rows: &[u32], count: u32) {
    for id in 0..count {
        if !row(out, rows, id) {
            return;
        }
    }
}

// The lines of the functions, or the refusal, of which there is no line yet.
fn list_functions(out: &mut Out, s: &[u8]) -> Result<Parts, Refusal>
    ensures { answered result ≡ listing s.now }
{
    let job = parse_job(s)?;
    let file = &s[FILE..];
    let mut rows = [0u32; LISTED * WIDTH];
    // No line shows them.
    let mut large: u64 = 0;
    let mut sizes: u64 = 0;
    hbc_function::read_functions(
        file,
        job.layout,
        job.start as usize,
        job.count,
        &mut rows,
        &mut large,
        &mut sizes,
    )?;
    heading(out, job.layout, job.count);
    rows_of(out, &rows, job.count);
    Ok(job)
}

// Lists a job's functions, at most LISTED of them, and answers the job, or the refusal that is shown.
pub fn list(out: &mut Out, s: &[u8]) -> Result<Parts, Refusal>
    ensures { answered result ≡ listing s.now }
{
    let listed = list_functions(out, s);
    if let Err(r) = listed {
        refused(out, r);
    }
    listed
}
