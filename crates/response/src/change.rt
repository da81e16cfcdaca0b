// The change from baseline.
ghost use Rattle.std.specs.Prelude.{◌≡◌, ◌*◌, ◌≤◌, Some};
ghost use Rattle.response_rules.specs.Inputs.{Visit};
ghost use Rattle.response_rules.specs.SumOfDiameters.{sum_of_diameters, all_measured};
ghost use Rattle.response_rules.specs.Change.{nearest, change_values, change_between, change_of};

use response_rules::{BaselineDisease, Change};

// A part of the baseline sum in tenths of a percent.
fn tenths(part: u32, baseline: u32) -> u64
    requires { 1 ≤ baseline }
    ensures { result ≡ nearest (1000 * part) baseline }
{
    let whole = baseline as u64;
    (2 * (1000 * part as u64) + whole) / (2 * whole)
}

#[tactic(auto, unfolding(response_rules::specs::Change::change_between))]
fn change_between(baseline: u32, sum: u32) -> Change
    requires { 1 ≤ baseline }
    ensures { change_values (Some result) ≡ change_between baseline sum }
{
    if baseline <= sum {
        return Change::Increase(tenths(sum - baseline, baseline));
    }
    match tenths(baseline - sum, baseline) {
        0 => Change::Increase(0),
        less => Change::Decrease(less),
    }
}

// `complete`: every target is measured.
#[tactic(auto, unfolding(response_rules::specs::Change::change_of))]
pub(crate) fn change_from_baseline(
    baseline: BaselineDisease,
    complete: bool,
    sum: u32,
) -> Option<Change>
    ensures { (v : Visit) → complete ≡ all_measured baseline.count v.measured → sum ≡ sum_of_diameters v.measured v.sizes → change_values result ≡ change_of baseline v }
{
    if baseline.count == 0 || !complete || baseline.baselinesum == 0 {
        return None;
    }
    Some(change_between(baseline.baselinesum, sum))
}
