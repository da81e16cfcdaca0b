// The nadir after a visit.
ghost use Rattle.std.specs.Prelude.{◌≡◌};
ghost use Rattle.response_rules.specs.Inputs.{Visit};
ghost use Rattle.response_rules.specs.SumOfDiameters.{sum_of_diameters, all_measured};
ghost use Rattle.response_rules.specs.Nadir.{after_visit};
ghost use Rattle.response_rules.specs.declared.BaselineDisease.{BaselineDisease};

use response_rules::Earlier;

// `complete`: every target is measured.
#[tactic(auto, unfolding(response_rules::specs::Nadir::after_visit))]
pub(crate) fn after_visit(earlier: Earlier, complete: bool, sum: u32) -> Earlier
    ensures { (b : BaselineDisease) (v : Visit) → complete ≡ all_measured b.count v.measured → sum ≡ sum_of_diameters v.measured v.sizes → result ≡ after_visit b earlier v }
{
    let nadir = if complete {
        sum.min(earlier.nadir)
    } else {
        earlier.nadir
    };
    Earlier { nadir }
}
