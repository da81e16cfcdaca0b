// The target answer: six rules, the first that applies.
ghost use Rattle.std.specs.Prelude.{◌≡◌};
ghost use Rattle.response_rules.specs.Words.{target_word};
ghost use Rattle.response_rules.specs.Inputs.{Visit};
ghost use Rattle.response_rules.specs.SumOfDiameters.{sum_of_diameters, all_measured};
ghost use Rattle.response_rules.specs.TargetAnswer.{disappeared, all_disappeared, progression_from_nadir, partial_response, target_answer};
ghost use Rattle.records.specs.Forms.{new_unit};

use response_rules::{BaselineDisease, Earlier, TargetAnswer};

// In tenths of a millimetre; document 02 calls a node below 10 mm normal.
const NORMAL_BELOW: u16 = 100;

// Progression: tenths of a millimetre above the nadir, and fifths of it.
const PROGRESSION_INCREASE: u64 = 50;

const PROGRESSION_FIFTHS: u64 = 6;

// A partial response: tenths of the baseline sum, which is 30 % less.
const PARTIAL_RESPONSE_TENTHS: u64 = 7;

fn has_disappeared(node: bool, size: u16) -> bool
    ensures { result ≡ disappeared new_unit node size }
{
    (size == 0) | (node & (size < NORMAL_BELOW))
}

#[tactic(auto, unfolding(response_rules::specs::TargetAnswer::all_disappeared))]
fn all_disappeared(count: u8, nodes: [bool; 5], sizes: [u16; 5]) -> bool
    ensures { result ≡ all_disappeared new_unit count nodes sizes }
{
    for i in 0..5 {
        if i < count as usize && !has_disappeared(nodes[i], sizes[i]) {
            return false;
        }
    }
    true
}

#[tactic(auto, unfolding(response_rules::specs::TargetAnswer::progression_from_nadir))]
fn progression_from_nadir(nadir: u32, sum: u32) -> bool
    ensures { result ≡ progression_from_nadir new_unit nadir sum }
{
    nadir as u64 + PROGRESSION_INCREASE <= sum as u64
        && PROGRESSION_FIFTHS * nadir as u64 <= 5 * sum as u64
}

#[tactic(auto, unfolding(response_rules::specs::TargetAnswer::partial_response))]
fn partial_response(baseline: u32, sum: u32) -> bool
    ensures { result ≡ partial_response baseline sum }
{
    10 * sum as u64 <= PARTIAL_RESPONSE_TENTHS * baseline as u64
}

// `complete`: every target is measured.
#[tactic(auto, unfolding(response_rules::specs::TargetAnswer::target_answer))]
pub(crate) fn target_answer(
    baseline: BaselineDisease,
    earlier: Earlier,
    complete: bool,
    sum: u32,
    sizes: [u16; 5],
) -> TargetAnswer
    ensures { (v : Visit) → complete ≡ all_measured baseline.count v.measured → sum ≡ sum_of_diameters v.measured v.sizes → sizes ≡ v.sizes → target_word result ≡ target_answer new_unit baseline earlier v }
{
    if baseline.count == 0 {
        return TargetAnswer::NA;
    }
    if complete && all_disappeared(baseline.count, baseline.nodes, sizes) {
        return TargetAnswer::CR;
    }
    if progression_from_nadir(earlier.nadir, sum) {
        return TargetAnswer::PD;
    }
    if !complete {
        return TargetAnswer::NE;
    }
    if partial_response(baseline.baselinesum, sum) {
        return TargetAnswer::PR;
    }
    TargetAnswer::SD
}
