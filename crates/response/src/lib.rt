// Visit responses and the change from baseline (document 01, "Visit responses" and "Change in size, file and listing").
#![tactic(auto)]

ghost use Rattle.response_rules.specs.Inputs.{visit_of};
ghost use Rattle.response.specs.Judging.{JudgesBaseline, JudgesVisit};

use records::{BaselineEntry, VisitEntry};
use response_rules::{BaselineDisease, Change, Earlier, OverallAnswer, TargetAnswer};

mod sums; // sums.rt: sums of sizes, and whether every target is measured
mod targets; // targets.rt: the target answer
mod grid; // grid.rt: the grid, and the overall answer
mod nadir; // nadir.rt: the nadir after a visit
mod change; // change.rt: the change from baseline

#[derive(Clone, Copy)]
pub struct BaselineAnswer {
    pub disease: BaselineDisease,
    // What is left for judging the first visit.
    pub after: Earlier,
}

#[derive(Clone, Copy)]
pub struct VisitAnswer {
    pub target: TargetAnswer,
    pub overall: OverallAnswer,
    pub change: Option<Change>,
    // What this visit and the earlier ones leave for judging the next one.
    pub after: Earlier,
}

pub fn judge_baseline(entry: BaselineEntry, nodes: [bool; 5], sizes: [u16; 5]) -> BaselineAnswer
    ensures { JudgesBaseline entry nodes sizes result }
{
    let sum = sums::baseline_sum(entry.count, sizes);
    let disease = BaselineDisease {
        assessed: entry.assessed,
        count: entry.count,
        nodes,
        baselinesum: sum,
    };
    BaselineAnswer {
        disease,
        after: Earlier { nadir: sum },
    }
}

#[tactic(auto, unfolding(response_rules::specs::VisitAnswers::overall_answer))]
pub fn judge_visit(
    baseline: BaselineDisease,
    earlier: Earlier,
    entry: VisitEntry,
    measured: [bool; 5],
    sizes: [u16; 5],
) -> VisitAnswer
    ensures { JudgesVisit baseline earlier (visit_of entry measured sizes) result }
{
    let sum = sums::sum_of_diameters(measured, sizes);
    let complete = sums::all_measured(baseline.count, measured);
    let target = targets::target_answer(baseline, earlier, complete, sum, sizes);
    VisitAnswer {
        target,
        overall: grid::overall_answer(baseline.assessed, entry.newlesion, target, entry.status),
        change: change::change_from_baseline(baseline, complete, sum),
        after: nadir::after_visit(earlier, complete, sum),
    }
}
