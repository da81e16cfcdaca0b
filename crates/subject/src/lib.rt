// What is held of one subject between calls: opened with a baseline, after one visit more, and whether it is in range (document 01, "Outcome" and "Where a
// call stops", 1 to 5, 7 and 12). That what is held follows the list of the records is proved here.
#![tactic(auto)]

ghost use Rattle.std.specs.Prelude.{◌≡◌, Err};
ghost use Rattle.codec.specs.Reading.{read_number};
ghost use Rattle.subject.specs.Opening.{open_number};

use codec::ReadRefusal;
use dates::{Date, StudyDay};
use outcome_rules::BestResponse;
use records::OwnRefusal;
use response_rules::{BaselineDisease, Earlier};

mod days; // days.rt: days that may be absent
mod range; // range.rt: what 12 judges
mod visits; // visits.rt: the days and the best response after one visit more
mod opening; // opening.rt: opening a subject with a baseline

pub use opening::{open_bytes, open_number, open_subject};
pub use range::{enrolment_in_range, followup_in_range};
pub use visits::{counting_after, event_after};

// What progression-free survival is read from, beside the day of death.
#[derive(Clone, Copy)]
pub struct EventDays {
    pub progression: Option<StudyDay>,
    // The last visit recorded before the event, evaluable or not, or day 1.
    pub lastvisit: StudyDay,
    // The last evaluable visit before the event.
    pub lastevaluable: Option<StudyDay>,
}

// What the counting visits show.
#[derive(Clone, Copy)]
pub struct CountingVisits {
    // The first CR or PR.
    pub firstresponse: Option<StudyDay>,
    // The first CR since which every one was CR or NE.
    pub crstart: Option<StudyDay>,
    pub best: BestResponse,
}

// What an opening makes and no addition moves.
#[derive(Clone, Copy)]
pub struct Enrolment {
    pub randomisation: Date,
    // Has non-target lesions.
    pub nontarget: bool,
    pub disease: BaselineDisease,
}

// What additions move.
#[derive(Clone, Copy)]
pub struct FollowUp {
    pub earlier: Earlier,
    // The day of the last record, or day 1.
    pub latestday: StudyDay,
    pub therapyrecorded: bool,
    pub deathday: Option<StudyDay>,
    pub event: EventDays,
    pub counting: CountingVisits,
}

#[derive(Clone, Copy)]
pub struct Subject {
    pub enrolment: Enrolment,
    pub followup: FollowUp,
}

#[derive(Clone, Copy)]
pub enum OpenRefusal {
    // This and the next from bytes alone.
    WrongLength,
    NoSuchKind,
    Own(OwnRefusal),
    NotBaseline,
}

impl From<ReadRefusal> for OpenRefusal {
    ghost from_gives = { λ read refusal. open_number (Err refusal) ≡ read_number (Err read) };

    fn from(read: ReadRefusal) -> OpenRefusal {
        match read {
            ReadRefusal::WrongLength => OpenRefusal::WrongLength,
            ReadRefusal::NoSuchKind => OpenRefusal::NoSuchKind,
            ReadRefusal::Own(own) => OpenRefusal::Own(own),
        }
    }
}

// The subject opened; beside a refusal one fixed blank, which adding and reading refuse and `Opens` promises, so that this is no Result of a subject.
#[derive(Clone, Copy)]
pub struct OpenResult {
    pub subject: Subject,
    pub answer: Result<(), OpenRefusal>,
}
