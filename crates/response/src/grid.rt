// The grid and the overall answer.
ghost use Rattle.std.specs.Prelude.{◌≡◌, ◌<◌, ◌≤◌, None, Some, IfSome};
ghost use Rattle.laws.specs.Choice.{pick};
ghost use Rattle.response_rules.specs.Words.{PD, code_of, target_word, status_word, overall_word};
ghost use Rattle.response_rules.specs.OverallAnswer.{rows, columns, row_of, column_of, cell, is_pd, overall_by};

use records::Status;
use response_rules::{OverallAnswer, TargetAnswer};

// The codes of answers in the grid; PD, which no cell has, follows them. Document 01 names a table of answer codes, so they stay numbers.
const CR: u8 = 0;

const PR: u8 = 1;

const SD: u8 = 2;

const NE: u8 = 3;

// Target rows CR, PR, SD, NE, NA; non-target columns CR, NN, NE, NA.
const GRID: [[u8; 4]; 5] = [
    [CR, PR, PR, CR],
    [PR, PR, PR, PR],
    [SD, SD, SD, SD],
    [NE, NE, NE, NE],
    [CR, SD, NE, NE],
];

// PD has no row.
fn row(target: TargetAnswer) -> Option<usize>
    ensures number { result ≡ pick (is_pd (target_word target)) None (Some (row_of (target_word target))) }
    ensures in_grid { IfSome result (λ r. r < rows) }
{
    match target {
        TargetAnswer::CR => Some(0),
        TargetAnswer::PR => Some(1),
        TargetAnswer::SD => Some(2),
        TargetAnswer::NE => Some(3),
        TargetAnswer::NA => Some(4),
        TargetAnswer::PD => None,
    }
}

// PD has no column.
fn column(status: Status) -> Option<usize>
    ensures number { result ≡ pick (is_pd (status_word status)) None (Some (column_of (status_word status))) }
    ensures in_grid { IfSome result (λ c. c < columns) }
{
    match status {
        Status::CR => Some(0),
        Status::NN => Some(1),
        Status::NE => Some(2),
        Status::NA => Some(3),
        Status::PD => None,
    }
}

fn code_at(row: usize, column: usize) -> u8
    requires { (row < rows) × (column < columns) }
    ensures { (result ≡ code_of (cell row column)) × (result ≤ code_of PD) }
{
    GRID[row][column]
}

fn answer(code: u8) -> OverallAnswer
    requires { code ≤ code_of PD }
    ensures { code_of (overall_word result) ≡ code }
{
    match code {
        CR => OverallAnswer::CR,
        PR => OverallAnswer::PR,
        SD => OverallAnswer::SD,
        NE => OverallAnswer::NE,
        _ => OverallAnswer::PD,
    }
}

#[tactic(auto, unfolding(response_rules::specs::OverallAnswer::overall_by))]
pub(crate) fn overall_answer(
    assessed: bool,
    newlesion: bool,
    target: TargetAnswer,
    status: Status,
) -> OverallAnswer
    ensures { overall_word result ≡ overall_by assessed newlesion (target_word target) (status_word status) }
{
    if !assessed {
        return OverallAnswer::NE;
    }
    if newlesion {
        return OverallAnswer::PD;
    }
    let (Some(row), Some(column)) = (row(target), column(status)) else {
        return OverallAnswer::PD;
    };
    answer(code_at(row, column))
}
