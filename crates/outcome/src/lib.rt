// The outcome of a held subject with the settled marks (document 01, "Outcome", "Settled" and "Where a call stops", 12). Demand 3, over any
// list of additions and readings, is proved here.
#![tactic(auto)]

use outcome_rules::{BestResponse, DurationResult, PfsResult};

mod settled; // settled.rt: the settled marks
mod reading; // reading.rt: the outcome of a held subject

pub use reading::read_outcome;

// For each part of the outcome, whether no further record can change it.
#[derive(Clone, Copy)]
pub struct SettledMarks {
    pub pfs: bool,
    pub best: bool,
    pub duration: bool,
}

#[derive(Clone, Copy)]
pub struct OutcomeResult {
    pub pfs: PfsResult,
    pub best: BestResponse,
    pub duration: Option<DurationResult>,
    pub settled: SettledMarks,
}

// Refusal 12.
#[derive(Clone, Copy)]
pub struct OutOfRange;
