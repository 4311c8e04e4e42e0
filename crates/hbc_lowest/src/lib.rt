// The lowest number that is so, for every rule alike: what a search answers. Its definition and laws stand in specs/ and proofs/.
#![tactic(auto)]

use hbc_io::Refusal;

// The lowest place, or how many there are where it is none; or a refusal, before any place is looked at.
pub type Lowest = Result<usize, Refusal>;
