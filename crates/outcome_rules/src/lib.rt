// What the outcome consists of (document 01, "Outcome"). The rules are definitions in specs/, on lists of records, with their theorems; the code that follows
// them is `outcome_values`.
#![tactic(auto)]

use dates::StudyDay;
use response_rules::OverallAnswer;

#[derive(Clone, Copy)]
pub struct JudgedVisit {
    pub day: StudyDay,
    pub answer: OverallAnswer,
}

#[derive(Clone, Copy)]
pub enum PfsStatus {
    Event,
    Censored,
}

// Progression-free survival.
#[derive(Clone, Copy)]
pub struct PfsResult {
    pub status: PfsStatus,
    pub day: StudyDay,
}

#[derive(Clone, Copy, PartialEq, Eq, PartialOrd, Ord)]
pub enum BestResponse {
    CR,
    PR,
    SD,
    PD,
    // Not evaluable.
    NE,
}

// A duration of response, with the status of progression-free survival.
#[derive(Clone, Copy)]
pub struct DurationResult {
    pub status: PfsStatus,
    pub days: u64,
}
