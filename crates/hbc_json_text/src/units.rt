// A string's bytes: not too many, and no half unit at the end.
ghost use Rattle.std.specs.Prelude.{◌≤◌, length};
ghost use Rattle.hbc_io.specs.Outcome.{limit};
ghost use Rattle.hbc_json_text.specs.Private.{Even};

#[derive(Clone, Copy)]
pub(crate) struct Units<'a> {
    pub(crate) bytes: &'a [u8],
    pub(crate) wide: bool,
    pub ghost few: { length bytes.now ≤ limit },
    pub ghost even: { Even wide (length bytes.now) },
}
