// Exception handlers, after parsing.rs: why a function has none, and the rows of those that are there.
// The reader counts and writes by one function that names the reason, `why_row`, and whoever asks for the reason asks the same one: what is listed
// and the reason cannot differ.
#![tactic(auto)]

ghost use Rattle.std.specs.Prelude.{◌≡◌, ◌+◌, ◌*◌, ◌≤◌, ◌<◌, ◌^◌, length};
ghost use Rattle.hbc_io.specs.Outcome.{limit};
ghost use Rattle.hbc_rows.specs.Rows.{put_rows};
ghost use Rattle.hbc_parsing_handlers.specs.Why.{handler_bytes, counted, table_at, why_at, why, WhyNoHandlers};
ghost use Rattle.hbc_parsing_handlers.specs.Handlers.{handler_width, total, handler_row, put_handlers, ReadHandlers};
ghost use Rattle.hbc_parsing_handlers.specs.Private.{Found};

use hbc_function_record::{ROW_FLAGS, ROW_INFO_OFFSET, WIDTH};
use hbc_io::{Cursor, LIMIT, Refusal, refuse};

// A count above this is none.
const MOST: u32 = 1000;

// The bytes of a handler in the file: start, end and target, four each.
const HANDLER_BYTES: usize = 12;

// The words of its row: function, start, end, target.
const HANDLER_WIDTH: usize = 4;

// A function's handlers: how many, and where the first one is.
#[derive(Clone, Copy)]
pub struct Table {
    pub count: u32,
    pub place: usize,
}

// Why a function has no handlers.
#[derive(Clone, Copy)]
pub enum Reason {
    FlagClear,
    InfoZero,
    InfoPast,
    NoRoom,
    CountZero,
    CountHigh,
    Cut,
}

// A count that stands at a place, and its triples, or why not.
#[tactic(auto, unfolding(crate::specs::Why::counted, hbc_io::specs::Lends::below, hbc_io::specs::Lends::choose))]
fn counted(file: &[u8], at: usize, count: u32) -> Result<Table, Reason>
    requires { at ≤ length file.now }
    ensures { result ≡ counted file.now at count }
{
    if count == 0 {
        return Err(Reason::CountZero);
    }
    if MOST < count {
        return Err(Reason::CountHigh);
    }
    if file.len() < at + 4 + HANDLER_BYTES * (count as usize) {
        return Err(Reason::Cut);
    }
    Ok(Table {
        count,
        place: at + 4,
    })
}

// What stands at a place.
#[tactic(auto, unfolding(crate::specs::Why::table_at, hbc_io::specs::Lends::below), using(hbc_io::proofs::Plains::word_there))]
fn table_at(file: &[u8], at: usize) -> Result<Table, Reason>
    requires { at ≤ length file.now }
    ensures { result ≡ table_at file.now at }
{
    if file.len() < at + 4 {
        return Err(Reason::NoRoom);
    }
    counted(file, at, hbc_io::u32_at(file, at))
}

// A file that is short enough to be read, and the lent rows of its functions: row `i` is function `i`.
#[derive(Clone, Copy)]
struct Functions<'a> {
    file: &'a [u8],
    rows: &'a [u32],
    ghost short: { length file.now ≤ limit },
}

impl Functions<'_> {
    // What the file says of a function with this info_offset and these flags.
    #[tactic(auto, unfolding(crate::specs::Why::why_at, hbc_io::specs::Lends::choose), using(hbc_io::proofs::Aligns::aligned))]
    fn why_at(self, info: u32, flags: u32) -> Result<Table, Reason>
        ensures { result ≡ why_at self.entry.file.now info flags }
    {
        let file = self.file;
        if hbc_rows::field_of(flags, 3, 1) == 0 {
            return Err(Reason::FlagClear);
        }
        if info == 0 {
            return Err(Reason::InfoZero);
        }
        let from = info as usize;
        if file.len() <= from {
            return Err(Reason::InfoPast);
        }
        let Ok(c) = hbc_io::align(file, Cursor { at: from }, 4) else {
            return Err(Reason::NoRoom);
        };
        table_at(file, c.at)
    }

    // Function `i`: only info_offset and flags are read.
    #[tactic(auto, unfolding(crate::specs::Why::why))]
    fn why(self, i: usize) -> Result<Table, Reason>
        requires { i < 2 ^ 32 }
        ensures { result ≡ why self.entry.file.now self.entry.rows.now i }
    {
        let info = hbc_rows::word_of(self.rows, i * WIDTH + ROW_INFO_OFFSET);
        let flags = hbc_rows::word_of(self.rows, i * WIDTH + ROW_FLAGS);
        self.why_at(info, flags)
    }

    // Its handlers: none for every reason.
    #[tactic(auto, using(crate::proofs::Laws::found_is))]
    fn shown(self, i: usize) -> Table
        requires { i < 2 ^ 32 }
        ensures { Found self.entry.file.now self.entry.rows.now i result }
    {
        self.why(i).unwrap_or(Table { count: 0, place: 0 })
    }

    // The rows of the first `n` functions, counted.
    fn count_all(self, n: usize) -> usize
        requires { n < 2 ^ 32 }
        ensures { result ≡ total self.entry.file.now self.entry.rows.now n }
    {
        let mut sum: usize = 0;
        for i in 0..n {
            sum += self.shown(i).count as usize;
        }
        sum
    }

    // One function's rows, put from row `first` on.
    fn write_one(self, function: u32, t: Table, first: usize, rows: &mut [u32])
        requires { (t.place + handler_bytes * t.count ≤ length self.file.now) × (first < 2 ^ 43) }
        ensures { rows.new ≡ put_rows handler_width (handler_row self.entry.file.now function t.place) first t.count rows.old }
    {
        let file = self.file;
        let place = t.place;
        let n = t.count as usize;
        for j in 0..n {
            let at = place + HANDLER_BYTES * j;
            let start = hbc_io::u32_at(file, at);
            let end = hbc_io::u32_at(file, at + 4);
            let target = hbc_io::u32_at(file, at + 8);
            let row = [function, start, end, target];
            hbc_rows::put_row(rows, first + j, &row);
        }
    }

    // All rows, function by function.
    fn write_all(self, n: usize, rows: &mut [u32])
        requires { n < 2 ^ 32 }
        ensures { rows.new ≡ put_handlers self.entry.file.now self.entry.rows.now n rows.old }
    {
        let mut first: usize = 0;
        for i in 0..n {
            let t = self.shown(i);
            self.write_one(i as u32, t, first, rows);
            first += t.count as usize;
        }
    }
}

// Why function `id` has no handlers, or how many it has: row `id` is function `id`, and may be any numbers.
#[tactic(auto, unfolding(crate::specs::Why::why_answer, hbc_io::specs::Lends::below))]
pub fn why_no_handlers(
    file: &[u8],
    functions: &[u32],
    id: u32,
) -> Result<Result<Table, Reason>, Refusal>
    ensures { WhyNoHandlers file.now functions.now id result }
{
    let i = id as usize;
    if LIMIT < file.len() {
        return Err(refuse(hbc_io::Reason::TooLong as u32, 0));
    }
    if functions.len() / WIDTH <= i {
        return Err(refuse(hbc_io::Reason::TooFewToRead as u32, 0));
    }
    let table = Functions {
        file,
        rows: functions,
    };
    Ok(table.why(i))
}

// The handlers of the first `count` functions. The number of rows is known only after reading, so that 4 comes last.
#[tactic(auto, unfolding(crate::specs::Handlers::handlers_answer, hbc_io::specs::Lends::below))]
pub fn read_handlers(
    file: &[u8],
    functions: &[u32],
    count: u32,
    rows: &mut [u32],
) -> Result<usize, Refusal>
    ensures { ReadHandlers file.now functions.now count rows.old result rows.new }
{
    let n = count as usize;
    if LIMIT < file.len() {
        return Err(refuse(hbc_io::Reason::TooLong as u32, 0));
    }
    if functions.len() / WIDTH < n {
        return Err(refuse(hbc_io::Reason::TooFewToRead as u32, 0));
    }
    let table = Functions {
        file,
        rows: functions,
    };
    let sum = table.count_all(n);
    if rows.len() / HANDLER_WIDTH < sum {
        return Err(refuse(hbc_io::Reason::TooFewRows as u32, 0));
    }
    table.write_all(n, rows);
    Ok(sum)
}
