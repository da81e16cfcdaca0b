// What one visit more makes of the days of the event and of what the counting visits show.
ghost use Rattle.std.specs.Prelude.{◌≡◌};
ghost use Rattle.outcome_rules.specs.Course.{judged_values};
ghost use Rattle.subject.specs.OneVisitMore.{evaluable_on, event_after, best_from, better_of, best_shown, first_response_after, cr_start_after, counting_after};

use super::days::{confirmed_on, first_recorded};
use super::{CountingVisits, EventDays};
use dates::StudyDay;
use outcome_rules::{BestResponse, JudgedVisit};
use outcome_values::{best_of, is_recorded};
use response_rules::OverallAnswer;

// The day from which SD is a best response.
const STABLE_DISEASE_FROM: u32 = 36;

fn evaluable_on(visit: StudyDay) -> EventDays
    ensures { result ≡ evaluable_on visit }
{
    EventDays {
        progression: None,
        lastvisit: visit,
        lastevaluable: Some(visit),
    }
}

#[tactic(auto, unfolding(crate::specs::OneVisitMore::event_after))]
pub fn event_after(event: EventDays, visit: JudgedVisit) -> EventDays
    ensures { result ≡ event_after event (judged_values visit) }
{
    if is_recorded(event.progression) {
        return event;
    }
    match visit.answer {
        OverallAnswer::PD => EventDays {
            progression: Some(visit.day),
            ..event
        },
        OverallAnswer::NE => EventDays {
            lastvisit: visit.day,
            ..event
        },
        OverallAnswer::CR | OverallAnswer::PR | OverallAnswer::SD => evaluable_on(visit.day),
    }
}

// The first of two in the order of document 01, in which the answers are declared.
fn better_of(a: BestResponse, b: BestResponse) -> BestResponse
    ensures { result ≡ better_of a b }
{
    a.min(b)
}

// What a counting visit shows with those before it.
fn best_shown(c: CountingVisits, visit: JudgedVisit) -> BestResponse
    ensures { result ≡ best_from (best_shown c (judged_values visit)) }
{
    let day = visit.day;
    let late = STABLE_DISEASE_FROM <= day.0;
    match visit.answer {
        OverallAnswer::CR => best_of(
            confirmed_on(c.crstart, day),
            confirmed_on(c.firstresponse, day),
            late,
            false,
        ),
        OverallAnswer::PR => best_of(false, confirmed_on(c.firstresponse, day), late, false),
        OverallAnswer::SD => best_of(false, false, late, false),
        OverallAnswer::PD => BestResponse::PD,
        OverallAnswer::NE => BestResponse::NE,
    }
}

fn first_response_after(first: Option<StudyDay>, visit: JudgedVisit) -> Option<StudyDay>
    ensures { result ≡ first_response_after first (judged_values visit) }
{
    match visit.answer {
        OverallAnswer::CR | OverallAnswer::PR => first_recorded(first, visit.day),
        OverallAnswer::SD | OverallAnswer::PD | OverallAnswer::NE => first,
    }
}

fn cr_start_after(start: Option<StudyDay>, visit: JudgedVisit) -> Option<StudyDay>
    ensures { result ≡ cr_start_after start (judged_values visit) }
{
    match visit.answer {
        OverallAnswer::CR => first_recorded(start, visit.day),
        OverallAnswer::NE => start,
        OverallAnswer::PR | OverallAnswer::SD | OverallAnswer::PD => None,
    }
}

#[tactic(auto, unfolding(crate::specs::OneVisitMore::counting_after))]
pub fn counting_after(c: CountingVisits, visit: JudgedVisit) -> CountingVisits
    ensures { result ≡ counting_after c (judged_values visit) }
{
    let shown = best_shown(c, visit);
    CountingVisits {
        firstresponse: first_response_after(c.firstresponse, visit),
        crstart: cr_start_after(c.crstart, visit),
        best: better_of(c.best, shown),
    }
}
