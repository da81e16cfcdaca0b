// Whether a visit fits the baseline.
ghost use Rattle.std.specs.Prelude.{◌≡◌};
ghost use Rattle.outcome_rules.specs.LawfulLists.{measured_beyond, fits_by};

use records::Status;

#[tactic(auto, unfolding(outcome_rules::specs::LawfulLists::measured_beyond))]
fn measured_beyond(count: u8, measured: [bool; 5]) -> bool
    ensures { result ≡ measured_beyond count measured }
{
    for i in 0..5 {
        if count as usize <= i && measured[i] {
            return true;
        }
    }
    false
}

#[tactic(auto, unfolding(outcome_rules::specs::LawfulLists::fits_by))]
pub(crate) fn fits(count: u8, nontarget: bool, status: Status, measured: [bool; 5]) -> bool
    ensures { result ≡ fits_by count nontarget status measured }
{
    !measured_beyond(count, measured) && nontarget != matches!(status, Status::NA)
}
