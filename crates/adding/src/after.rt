// The follow-up after a record.
ghost use Rattle.std.specs.Prelude.{◌≡◌};
ghost use Rattle.laws.specs.Choice.{pick};
ghost use Rattle.outcome_rules.specs.Course.{judged_values};
ghost use Rattle.subject.specs.OneVisitMore.{counting_after};
ghost use Rattle.adding.specs.OneRecordMore.{judged_as, judged_added, on_later_day, therapy_added, death_added};

use dates::StudyDay;
use outcome_rules::JudgedVisit;
use outcome_values::is_recorded;
use response::VisitAnswer;
use subject::{CountingVisits, FollowUp, counting_after, event_after};

fn counting_unless(closed: bool, c: CountingVisits, visit: JudgedVisit) -> CountingVisits
    ensures { result ≡ pick closed c (counting_after c (judged_values visit)) }
{
    if closed {
        return c;
    }
    counting_after(c, visit)
}

pub(crate) fn after_visit(f: FollowUp, day: StudyDay, judged: VisitAnswer) -> FollowUp
    ensures { result ≡ judged_added f judged.after (judged_as day judged) }
{
    let closed = f.therapyrecorded | is_recorded(f.event.progression);
    let visit = JudgedVisit {
        day,
        answer: judged.overall,
    };
    FollowUp {
        earlier: judged.after,
        latestday: day,
        event: event_after(f.event, visit),
        counting: counting_unless(closed, f.counting, visit),
        ..f
    }
}

// On a later day, with or without a therapy and a death.
fn on_later_day(f: FollowUp, day: StudyDay, therapy: bool, death: Option<StudyDay>) -> FollowUp
    ensures { result ≡ on_later_day f day therapy death }
{
    FollowUp {
        latestday: day,
        therapyrecorded: therapy,
        deathday: death,
        ..f
    }
}

#[tactic(auto, unfolding(crate::specs::OneRecordMore::therapy_added))]
pub(crate) fn after_therapy(f: FollowUp, day: StudyDay) -> FollowUp
    ensures { result ≡ therapy_added f day }
{
    on_later_day(f, day, true, f.deathday)
}

#[tactic(auto, unfolding(crate::specs::OneRecordMore::death_added))]
pub(crate) fn after_death(f: FollowUp, day: StudyDay) -> FollowUp
    ensures { result ≡ death_added f day }
{
    on_later_day(f, day, f.therapyrecorded, Some(day))
}
