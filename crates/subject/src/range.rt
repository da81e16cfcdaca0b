// What 12 judges: whether the two parts of a held subject are in range.
ghost use Rattle.std.specs.Prelude.{◌≡◌};
ghost use Rattle.subject.specs.Range.{day_in_range, maybe_in_range, event_in_range, counting_in_range, enrolment_in_range, follow_up_in_range};

use super::{CountingVisits, Enrolment, EventDays, FollowUp};
use dates::StudyDay;
use records::{LARGEST_SIZE, MOST_TARGETS};

// The randomisation's day is the first.
const FIRST_DAY: u32 = 1;

// The day number of the last date.
const LAST_DAY: u32 = 40177;

const LARGEST_SUM: u32 = MOST_TARGETS as u32 * LARGEST_SIZE as u32;

fn day_in_range(day: StudyDay) -> bool
    ensures { result ≡ day_in_range day.0 }
{
    FIRST_DAY <= day.0 && day.0 <= LAST_DAY
}

fn maybe_in_range(day: Option<StudyDay>) -> bool
    ensures { result ≡ maybe_in_range day }
{
    match day {
        None => true,
        Some(d) => day_in_range(d),
    }
}

fn event_in_range(event: EventDays) -> bool
    ensures { result ≡ event_in_range event }
{
    day_in_range(event.lastvisit)
        && maybe_in_range(event.progression)
        && maybe_in_range(event.lastevaluable)
}

fn counting_in_range(counting: CountingVisits) -> bool
    ensures { result ≡ counting_in_range counting }
{
    maybe_in_range(counting.firstresponse) && maybe_in_range(counting.crstart)
}

#[tactic(auto, unfolding(crate::specs::Range::enrolment_in_range))]
pub fn enrolment_in_range(e: Enrolment) -> bool
    ensures { result ≡ enrolment_in_range e }
{
    dates::date_exists(e.randomisation)
        && e.disease.count <= MOST_TARGETS
        && e.disease.baselinesum <= LARGEST_SUM
}

#[tactic(auto, unfolding(crate::specs::Range::follow_up_in_range))]
pub fn followup_in_range(f: FollowUp) -> bool
    ensures { result ≡ follow_up_in_range f }
{
    f.earlier.nadir <= LARGEST_SUM
        && day_in_range(f.latestday)
        && maybe_in_range(f.deathday)
        && event_in_range(f.event)
        && counting_in_range(f.counting)
}
