// The calls on texts.
ghost use Rattle.hbc_c_text.specs.Text.{ToldText};

// Accepted, the answer is the text's length.
#[unsafe(no_mangle)]
pub extern "C" fn hbc_string_text(storage: &[u8], rows: &[u32], index: usize, out: &mut [u8]) -> u64
    ensures { ToldText storage.now rows.now index out.old result out.new }
{
    hbc_c::text::hbc_string_text(storage, rows, index, out)
}
