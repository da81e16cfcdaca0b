// The outcome of a held subject.
ghost use Rattle.std.specs.Prelude.{◌≡◌};
ghost use Rattle.outcome.specs.ReadingOutcome.{outcome_values, outcome_of, ReadsOutcome};

use super::settled::{best_settled, duration_settled, pfs_settled};
use super::{OutOfRange, OutcomeResult, SettledMarks};
use outcome_values::{duration_of, is_recorded, pfs_of};
use subject::Subject;

#[tactic(auto, unfolding(crate::specs::ReadingOutcome::outcome_of))]
fn outcome_of(s: Subject) -> OutcomeResult
    ensures { outcome_values result ≡ outcome_of s }
{
    let followup = s.followup;
    let event = followup.event;
    let best = followup.counting.best;
    let pfs = pfs_of(
        event.progression,
        followup.deathday,
        event.lastvisit,
        event.lastevaluable,
    );
    let duration = duration_of(best, followup.counting.firstresponse, pfs);
    let progressed = is_recorded(event.progression);
    let dead = is_recorded(followup.deathday);
    let assessed = s.enrolment.disease.assessed;
    let pfs_mark = pfs_settled(assessed, progressed, dead, followup.latestday);
    let best_mark = best_settled(progressed, followup.therapyrecorded, dead, assessed, best);
    let duration_mark = duration_settled(duration, pfs_mark, best_mark);
    let settled = SettledMarks {
        pfs: pfs_mark,
        best: best_mark,
        duration: duration_mark,
    };
    OutcomeResult {
        pfs,
        best,
        duration,
        settled,
    }
}

#[tactic(auto, unfolding(crate::specs::ReadingOutcome::reading_of, subject::specs::Range::in_range))]
pub fn read_outcome(s: Subject) -> Result<OutcomeResult, OutOfRange>
    ensures { ReadsOutcome s result }
{
    if !subject::enrolment_in_range(s.enrolment) || !subject::followup_in_range(s.followup) {
        return Err(OutOfRange);
    }
    Ok(outcome_of(s))
}
