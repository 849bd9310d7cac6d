//! Whether a variable is named in claims, steps of a proof and items of a leg.
#![tactic(auto)]

mod claims;
mod drafts;

pub use claims::{mentions, some_noted_mentions};
pub use drafts::{draft_mentions, drafts_mention, is_among, steps_mention};
