// Progression-free survival.
ghost use Rattle.std.specs.Prelude.{◌≡◌};
ghost use Rattle.outcome_rules.specs.Values.{day_value, pfs_values, none, on};
ghost use Rattle.outcome_rules.specs.Pfs.{event_unless_missed, pfs_of};

use super::EARLY_DEATH_LIMIT;
use super::days::days_between;
use super::gap::two_visits_missed;
use dates::StudyDay;
use outcome_rules::{PfsResult, PfsStatus};

fn event_unless_missed(day: StudyDay, previous: StudyDay, evaluable: Option<StudyDay>) -> PfsResult
    ensures { pfs_values result ≡ event_unless_missed day.0 previous.0 (day_value evaluable) }
{
    if two_visits_missed(day, previous) {
        return PfsResult {
            status: PfsStatus::Censored,
            day: evaluable.unwrap_or(StudyDay(1)),
        };
    }
    PfsResult {
        status: PfsStatus::Event,
        day,
    }
}

#[tactic(auto, unfolding(outcome_rules::specs::Pfs::early_death_limit))]
fn pfs_of_death(day: StudyDay, previous: StudyDay, evaluable: Option<StudyDay>) -> PfsResult
    ensures { pfs_values result ≡ pfs_of none (on day.0) previous.0 (day_value evaluable) }
{
    match evaluable {
        Some(_) => event_unless_missed(day, previous, evaluable),
        None if days_between(StudyDay(1), day) <= EARLY_DEATH_LIMIT => PfsResult {
            status: PfsStatus::Event,
            day,
        },
        None => PfsResult {
            status: PfsStatus::Censored,
            day: StudyDay(1),
        },
    }
}

// From the days of progression and death, the day of the last visit before the event (day 1 if none) and the last evaluable one.
pub fn pfs_of(
    progression: Option<StudyDay>,
    death: Option<StudyDay>,
    previous: StudyDay,
    evaluable: Option<StudyDay>,
) -> PfsResult
    ensures { pfs_values result ≡ pfs_of (day_value progression) (day_value death) previous.0 (day_value evaluable) }
{
    match (progression, death) {
        (Some(day), _) => event_unless_missed(day, previous, evaluable),
        (None, Some(day)) => pfs_of_death(day, previous, evaluable),
        (None, None) => PfsResult {
            status: PfsStatus::Censored,
            day: evaluable.unwrap_or(StudyDay(1)),
        },
    }
}
