// The trailing sections, after parsing.rs: regexp table, regexp storage, CJS pairs, function sources if given, bytecode.
// A section is found by a read of its bytes and an align, as the Rust finds it; its entries are had by hbc_table's pair call at its start.
#![tactic(auto)]

ghost use Rattle.std.specs.Prelude.{◌≡◌};
ghost use Rattle.hbc_io.specs.Answer.{told};
ghost use Rattle.hbc_io.specs.Answers.{says, answered};
ghost use Rattle.hbc_parsing_sections.specs.Sections.{section_at, pairs_at, sources_at, sections_from, sections_at};

use hbc_io::{Cursor, Read, Refusal};

// Where a section starts in the file, how many bytes it has with its padding, and how many entries.
#[derive(Clone, Copy)]
pub struct Section {
    pub start: usize,
    pub size: usize,
    pub entries: u32,
}

#[derive(Clone, Copy)]
pub struct Sections {
    pub regexps: Section,
    pub storage: Section,
    pub cjs: Section,
    // none where they are not asked for
    pub sources: Option<Section>,
    pub bytecode: Section,
}

// So many bytes at the cursor, padded to 4 in the file.
#[tactic(auto, unfolding(crate::specs::Sections::section_at), using(crate::proofs::Laws::section_on))]
fn section_at(file: &[u8], c: Cursor, bytes: usize, entries: u32) -> Read<Section>
    ensures { says result ≡ section_at bytes entries file.now c }
{
    let start = c.at;
    let (_, next) = hbc_io::read_bytes(file, c, bytes)?;
    let end = hbc_io::align(file, next, 4)?;
    let size = end.at - start;
    Ok((
        Section {
            start,
            size,
            entries,
        },
        end,
    ))
}

// So many pairs, 8 bytes each.
#[tactic(auto, unfolding(crate::specs::Sections::pairs_at))]
fn pairs_at(file: &[u8], c: Cursor, count: u32) -> Read<Section>
    ensures { says result ≡ pairs_at count file.now c }
{
    section_at(file, c, 8 * (count as usize), count)
}

#[tactic(auto, unfolding(crate::specs::Sections::sources_at))]
fn sources_at(file: &[u8], c: Cursor, given: bool, count: u32) -> Read<Option<Section>>
    ensures { says result ≡ sources_at given count file.now c }
{
    if given {
        let (s, next) = pairs_at(file, c, count)?;
        Ok((Some(s), next))
    } else {
        Ok((None, c))
    }
}

// The sections from the cursor on.
#[tactic(auto, unfolding(crate::specs::Sections::sections_from))]
fn sections_from(
    file: &[u8],
    c: Cursor,
    regexps: u32,
    storage: u32,
    cjs: u32,
    given: bool,
    sources: u32,
) -> Result<Sections, Refusal>
    ensures { answered result ≡ told (sections_from regexps storage cjs given sources file.now c) }
{
    let (regexps, c) = pairs_at(file, c, regexps)?;
    let (storage, c) = section_at(file, c, storage as usize, 0)?;
    let (cjs, c) = pairs_at(file, c, cjs)?;
    let (sources, c) = sources_at(file, c, given, sources)?;
    let bytecode = Section {
        start: c.at,
        size: hbc_io::remaining(file, c),
        entries: 0,
    };
    Ok(Sections {
        regexps,
        storage,
        cjs,
        sources,
        bytecode,
    })
}

// The sections of a file from a start; `sources` counts only if `given`.
#[tactic(auto, unfolding(crate::specs::Sections::sections_at))]
pub fn trailing_sections(
    file: &[u8],
    start: usize,
    regexps: u32,
    storage: u32,
    cjs: u32,
    given: bool,
    sources: u32,
) -> Result<Sections, Refusal>
    ensures { answered result ≡ told (sections_at start regexps storage cjs given sources file.now) }
{
    let c = hbc_io::seek(file, hbc_io::first(), start)?;
    sections_from(file, c, regexps, storage, cjs, given, sources)
}
