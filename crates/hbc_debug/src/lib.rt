// The debug section, after debug.rs: strings, scopes with their names, and callees, into four lent tables.
// A first pass counts; only if every table has the rows does a second pass write, and it cannot fail.
#![tactic(auto)]

ghost use Rattle.std.specs.Prelude.{◌≡◌, ◌+◌, ◌≤◌, length};
ghost use Rattle.std.proofs.lemmas.List.Edits.{sets};
ghost use Rattle.hbc_io.specs.Outcome.{limit};
ghost use Rattle.hbc_io_leb.specs.Numbers.{exact};
ghost use Rattle.hbc_rows.specs.Rows.{rows};
ghost use Rattle.hbc_debug_parts.specs.Along.{every};
ghost use Rattle.hbc_debug_strings.specs.Strings.{strings_of, string_width, string_words, string_numbers};
ghost use Rattle.hbc_debug_scopes.specs.Private.{ScopesAre, RowsAre};
ghost use Rattle.hbc_debug_scopes.specs.Scopes.{scope_width, scope_numbers};
ghost use Rattle.hbc_debug_callees.specs.Callees.{callees_of, callee_width, callee_words, callee_numbers};
ghost use Rattle.hbc_debug.specs.Debug.{tables, contents, fits, ReadDebug};
ghost use Rattle.hbc_debug.specs.Private.{ReadParts};

use hbc_debug_callees::{CalleeCount, count_callees, write_callees};
use hbc_debug_parts::{InFile, Marked, find_parts, part_bytes};
use hbc_debug_rising::CALLEE_WORDS;
use hbc_debug_scopes::{SCOPE_WORDS, ScopeCounts, count_scopes, write_scopes};
use hbc_debug_strings::{STRING_WORDS, StringCount, count_strings, write_strings};
use hbc_io::{Reason, Refusal, refuse};

// How many rows each table has.
#[derive(Clone, Copy)]
pub struct Counts {
    pub strings: usize,
    pub scopes: usize,
    pub names: usize,
    pub callees: usize,
}

// The counts, and whether every LEB128 number that was read was exact.
pub type Debugged = Result<Marked<Counts>, Refusal>;

// Whether each table has room for its rows.
#[tactic(auto, unfolding(crate::specs::Debug::fits))]
fn fits(need: Counts, room: Counts) -> bool
    ensures { result ≡ fits need room }
{
    need.strings <= room.strings
        && need.scopes <= room.scopes
        && need.names <= room.names
        && need.callees <= room.callees
}

// A part of a file that was found short enough, so that no call on it is refused.
#[derive(Clone, Copy)]
struct PartBytes<'a> {
    bytes: &'a [u8],
    ghost short: { length bytes.now ≤ limit },
}

impl PartBytes<'_> {
    fn string_count(self) -> StringCount
        ensures { (result.strings ≡ length (strings_of self.entry.bytes.now)) × (result.exact ≡ every exact (string_numbers self.entry.bytes.now)) }
    {
        match count_strings(self.bytes) {
            Ok(k) => k,
            Err(_) => StringCount {
                strings: 0,
                exact: true,
            },
        }
    }

    fn scope_counts(self) -> ScopeCounts
        ensures { ScopesAre self.entry.bytes.now result.scopes result.names × (result.exact ≡ every exact (scope_numbers self.entry.bytes.now)) }
    {
        match count_scopes(self.bytes) {
            Ok(k) => k,
            Err(_) => ScopeCounts {
                scopes: 0,
                names: 0,
                exact: true,
            },
        }
    }

    fn callee_count(self, strings: u32) -> CalleeCount
        ensures { (result.callees ≡ length (callees_of strings self.entry.bytes.now))
            × (result.exact ≡ every exact (callee_numbers strings self.entry.bytes.now)) }
    {
        match count_callees(self.bytes, strings) {
            Ok(k) => k,
            Err(_) => CalleeCount {
                callees: 0,
                exact: true,
            },
        }
    }

    // The rows of a part, for which there is room.
    fn put_strings(self, base: InFile, count: usize, table: &mut [u32])
        requires { (base.0 + length self.bytes.now ≤ limit) × (count ≡ length (strings_of self.bytes.now)) × (count ≤ rows string_width table.old) }
        ensures { table.new ≡ sets table.old 0 (string_words base (strings_of self.entry.bytes.now)) }
    {
        let _ = write_strings(self.bytes, base, count, table);
    }

    fn put_scopes(self, strings: u32, counts: ScopeCounts, table: &mut [u32], names: &mut [u32])
        requires counts_value { ScopesAre self.bytes.now counts.scopes counts.names }
        requires scopes_bound { (counts.scopes ≤ rows scope_width table.old) × (counts.names ≤ length names.old) }
        ensures { RowsAre self.entry.bytes.now strings table.old names.old table.new names.new }
    {
        let _ = write_scopes(self.bytes, strings, counts, table, names);
    }

    fn put_callees(self, strings: u32, count: usize, table: &mut [u32])
        requires { (count ≡ length (callees_of strings self.bytes.now)) × (count ≤ rows callee_width table.old) }
        ensures { table.new ≡ sets table.old 0 (callee_words (callees_of strings self.entry.bytes.now)) }
    {
        let _ = write_callees(self.bytes, strings, count, table);
    }
}

fn read_parts(
    string_part: PartBytes,
    base: InFile,
    scope_part: PartBytes,
    callee_part: PartBytes,
    strings: &mut [u32],
    scopes: &mut [u32],
    names: &mut [u32],
    callees: &mut [u32],
) -> Debugged
    requires { base.0 + length string_part.bytes.now ≤ limit }
    ensures { ReadParts (contents string_part.entry.bytes.now base scope_part.entry.bytes.now callee_part.entry.bytes.now)
        (tables strings.old scopes.old names.old callees.old)
        result (tables strings.new scopes.new names.new callees.new) }
{
    let counted = string_part.string_count();
    let n = counted.strings;
    let found = scope_part.scope_counts();
    let k = callee_part.callee_count(n as u32);
    let need = Counts {
        strings: n,
        scopes: found.scopes,
        names: found.names,
        callees: k.callees,
    };
    let room = Counts {
        strings: strings.len() / STRING_WORDS,
        scopes: scopes.len() / SCOPE_WORDS,
        names: names.len(),
        callees: callees.len() / CALLEE_WORDS,
    };
    if fits(need, room) {
        string_part.put_strings(base, n, strings);
        scope_part.put_scopes(n as u32, found, scopes, names);
        callee_part.put_callees(n as u32, k.callees, callees);
        return Ok(Marked {
            value: need,
            exact: found.exact & (k.exact & counted.exact),
        });
    }
    Err(refuse(Reason::TooFewRows as u32, 0))
}

// Reads the debug section at `offset`: strings (2 words a row), scopes (5), names (1) and callees (2).
pub fn read_debug(
    file: &[u8],
    offset: u32,
    strings: &mut [u32],
    scopes: &mut [u32],
    names: &mut [u32],
    callees: &mut [u32],
) -> Debugged
    ensures { ReadDebug file.now offset
        (tables strings.old scopes.old names.old callees.old)
        result (tables strings.new scopes.new names.new callees.new) }
{
    let parts = find_parts(file, offset)?;
    let string_bytes = part_bytes(file, parts.strings);
    let scope_bytes = part_bytes(file, parts.scopes);
    let callee_bytes = part_bytes(file, parts.callees);
    read_parts(
        PartBytes {
            bytes: string_bytes,
        },
        parts.strings.start,
        PartBytes { bytes: scope_bytes },
        PartBytes {
            bytes: callee_bytes,
        },
        strings,
        scopes,
        names,
        callees,
    )
}
