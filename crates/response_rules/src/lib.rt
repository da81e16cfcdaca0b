// What the response rules take and answer (document 01, "Visit responses" and "Change in size, file and listing"). The rules are definitions in specs/, with
// their laws; the code that follows them is `response`.
#![tactic(auto)]

// What a baseline leaves for judging visits.
#[derive(Clone, Copy)]
pub struct BaselineDisease {
    // False where the baseline is missing.
    pub assessed: bool,
    // How many of the five targets there are.
    pub count: u8,
    pub nodes: [bool; 5],
    pub baselinesum: u32,
}

// What earlier visits leave for judging the next one.
#[derive(Clone, Copy)]
pub struct Earlier {
    pub nadir: u32,
}

// In the order of the grid's rows; PD, which has none, is last.
#[derive(Clone, Copy)]
pub enum TargetAnswer {
    CR,
    PR,
    SD,
    // Not evaluable.
    NE,
    // No targets.
    NA,
    PD,
}

// In the order of the grid's codes.
#[derive(Clone, Copy)]
pub enum OverallAnswer {
    CR,
    PR,
    SD,
    // Not evaluable.
    NE,
    PD,
}

// Tenths of a percent; a decrease is at least one tenth. `None` of it: there is no change to give.
#[derive(Clone, Copy)]
pub enum Change {
    Increase(u64),
    Decrease(u64),
}
