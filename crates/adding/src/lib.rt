// Adding a record, from its value or its bytes: the refusals 1 to 5 and 8 to 12, the subject after it and the responses at a visit (document 01,
// "Where a call stops", "Visit responses" and "Outcome"). That all of it follows the list of the records is proved here.
#![tactic(auto)]

ghost use Rattle.std.specs.Prelude.{◌≡◌, Err};
ghost use Rattle.records.specs.Refusals.{own_number};
ghost use Rattle.codec.specs.Reading.{read_number};
ghost use Rattle.adding.specs.Refusals.{refusal_number, add_number};

use codec::ReadRefusal;
use dates::StudyDay;
use records::{OwnRefusal, Record, Status};
use response_rules::{Change, OverallAnswer, TargetAnswer};
use subject::{FollowUp, Subject};

mod fitting; // fitting.rt: whether a visit fits the baseline
mod after; // after.rt: the follow-up after a record
mod refusals; // refusals.rt: the first refusal that meets a record
mod dating; // dating.rt: a record on its study day, with its own refusal
mod stepping; // stepping.rt: one record more
mod calls; // calls.rt: adding by value, where the caller keeps the subject, and from bytes

pub use calls::{add, add_bytes, added};

// The responses at a visit, which its line of the listing has too.
#[derive(Clone, Copy)]
pub struct VisitResponse {
    pub day: StudyDay,
    pub target: TargetAnswer,
    pub nontarget: Status,
    pub overall: OverallAnswer,
    pub change: Option<Change>,
}

#[derive(Clone, Copy)]
pub enum AddRefusal {
    // This and the next from bytes alone.
    WrongLength,
    NoSuchKind,
    SecondBaseline,
    AfterDeath,
    TooEarly,
    Misfit,
    OutOfRange,
    Own(OwnRefusal),
}

impl From<OwnRefusal> for AddRefusal {
    ghost from_gives = { λ own refusal. refusal_number refusal ≡ own_number own };

    fn from(own: OwnRefusal) -> AddRefusal {
        AddRefusal::Own(own)
    }
}

impl From<ReadRefusal> for AddRefusal {
    ghost from_gives = { λ read refusal. refusal_number refusal ≡ read_number (Err read) };

    fn from(read: ReadRefusal) -> AddRefusal {
        match read {
            ReadRefusal::WrongLength => AddRefusal::WrongLength,
            ReadRefusal::NoSuchKind => AddRefusal::NoSuchKind,
            ReadRefusal::Own(own) => AddRefusal::Own(own),
        }
    }
}

// The responses where a visit was added, none where a therapy or a death was.
pub type AddAnswer = Result<Option<VisitResponse>, AddRefusal>;

// The number in document 01; 0 where the record was added.
pub fn add_number(answer: AddAnswer) -> u8
    ensures { result ≡ add_number answer }
{
    match answer {
        Ok(_) => 0,
        Err(AddRefusal::WrongLength) => 1,
        Err(AddRefusal::NoSuchKind) => 2,
        Err(AddRefusal::SecondBaseline) => 8,
        Err(AddRefusal::AfterDeath) => 9,
        Err(AddRefusal::TooEarly) => 10,
        Err(AddRefusal::Misfit) => 11,
        Err(AddRefusal::OutOfRange) => 12,
        Err(AddRefusal::Own(own)) => records::own_number(own),
    }
}

// The subject after an addition; the same subject beside a refusal, which `Answered` promises, so that this is no Result of a subject.
#[derive(Clone, Copy)]
pub struct AddResult {
    pub subject: Subject,
    pub answer: AddAnswer,
}

// A record, given or read, on its study day, with its own refusal.
#[derive(Clone, Copy)]
pub(crate) struct Dated {
    pub(crate) day: StudyDay,
    pub(crate) own: Result<(), AddRefusal>,
    pub(crate) found: Record,
}

// The part of the subject that an addition moves, after it; the same beside a refusal, which `StepsBy` promises.
#[derive(Clone, Copy)]
pub(crate) struct Step {
    pub(crate) followup: FollowUp,
    pub(crate) answer: AddAnswer,
}
