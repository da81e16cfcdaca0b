// The settled marks of the three parts.
ghost use Rattle.std.specs.Prelude.{◌≡◌};
ghost use Rattle.outcome_rules.specs.Values.{best_word, duration_values};
ghost use Rattle.outcome_rules.specs.BestResponse.{is_cr};
ghost use Rattle.outcome_rules.specs.Settled.{pfs_settled_by, best_settled_by, duration_settled_by};

use dates::StudyDay;
use outcome_rules::{BestResponse, DurationResult};
use outcome_values::EARLY_DEATH_LIMIT;

// From this day on no death is an early one.
const SETTLED_FROM: u32 = EARLY_DEATH_LIMIT + 2;

#[tactic(auto, unfolding(outcome_rules::specs::Settled::pfs_settled_by, outcome_rules::specs::Settled::settled_from, outcome_rules::specs::Pfs::early_death_limit))]
pub(crate) fn pfs_settled(assessed: bool, progressed: bool, dead: bool, latest: StudyDay) -> bool
    ensures { result ≡ pfs_settled_by assessed progressed dead latest.0 }
{
    if assessed {
        return progressed | dead;
    }
    dead | (SETTLED_FROM <= latest.0)
}

fn is_cr(best: BestResponse) -> bool
    ensures { result ≡ is_cr (best_word best) }
{
    matches!(best, BestResponse::CR)
}

#[tactic(auto, unfolding(outcome_rules::specs::Settled::best_settled_by))]
pub(crate) fn best_settled(
    progressed: bool,
    therapy: bool,
    dead: bool,
    assessed: bool,
    best: BestResponse,
) -> bool
    ensures { result ≡ best_settled_by progressed therapy dead assessed (best_word best) }
{
    progressed | (therapy | (dead | (!assessed | is_cr(best))))
}

#[tactic(auto, unfolding(outcome_rules::specs::Settled::duration_settled_by))]
pub(crate) fn duration_settled(duration: Option<DurationResult>, pfs: bool, best: bool) -> bool
    ensures { result ≡ duration_settled_by (duration_values duration) pfs best }
{
    match duration {
        None => best,
        Some(_) => pfs,
    }
}
