// What a text is stands in specs/. Here is what a call that writes one answers.
#![tactic(auto)]

use hbc_io::Refusal;

// How many bytes were written.
pub type Text = Result<usize, Refusal>;
