// The parts of the outcome from plain values: progression-free survival (PFS), best response and duration (document 01, "Outcome"). The definitions are those of
// `outcome_rules`, which take these values from lists of records.
#![tactic(auto)]

mod days; // days.rt: days apart, and a day that may be absent
mod gap; // gap.rt: two visits missed
mod pfs; // pfs.rt: progression-free survival
mod best; // best.rt: best response
mod duration; // duration.rt: duration of response

pub use best::best_of;
pub use days::is_recorded;
pub use duration::duration_of;
pub use pfs::pfs_of;

// A death without an evaluable visit is an event up to this many days after day 1.
pub const EARLY_DEATH_LIMIT: u32 = 91;
