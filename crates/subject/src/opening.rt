// Opening a subject with a baseline, from a record or from its bytes, and the blank that stands beside a refusal.
ghost use Rattle.std.specs.Prelude.{◌≡◌, Err};
ghost use Rattle.subject.specs.Opening.{no_visits, no_counting_visits, subject_of_baseline, blank_subject, open_number, OpensChecked, Opens, OpensBytes};

use super::{CountingVisits, Enrolment, EventDays, FollowUp, OpenRefusal, OpenResult, Subject};
use dates::{Date, StudyDay};
use outcome_rules::BestResponse;
use records::{BaselineEntry, Entry, Record};
use response_rules::{BaselineDisease, Earlier};

// The number in document 01; 0 where a subject was opened.
pub fn open_number(answer: Result<(), OpenRefusal>) -> u8
    ensures { result ≡ open_number answer }
{
    match answer {
        Ok(()) => 0,
        Err(OpenRefusal::WrongLength) => 1,
        Err(OpenRefusal::NoSuchKind) => 2,
        Err(OpenRefusal::Own(own)) => records::own_number(own),
        Err(OpenRefusal::NotBaseline) => 7,
    }
}

fn no_visits(day: StudyDay) -> EventDays
    ensures { result ≡ no_visits day }
{
    EventDays {
        progression: None,
        lastvisit: day,
        lastevaluable: None,
    }
}

fn no_counting_visits() -> CountingVisits
    ensures { result ≡ no_counting_visits }
{
    CountingVisits {
        firstresponse: None,
        crstart: None,
        best: BestResponse::NE,
    }
}

fn subject_of_baseline(entry: BaselineEntry, nodes: [bool; 5], sizes: [u16; 5]) -> Subject
    ensures { result ≡ subject_of_baseline entry nodes sizes }
{
    let judged = response::judge_baseline(entry, nodes, sizes);
    let enrolment = Enrolment {
        randomisation: entry.date,
        nontarget: entry.nontarget,
        disease: judged.disease,
    };
    let followup = FollowUp {
        earlier: judged.after,
        latestday: StudyDay(1),
        therapyrecorded: false,
        deathday: None,
        event: no_visits(StudyDay(1)),
        counting: no_counting_visits(),
    };
    Subject {
        enrolment,
        followup,
    }
}

fn blank_subject() -> Subject
    ensures { result ≡ blank_subject }
{
    let enrolment = Enrolment {
        randomisation: Date {
            year: 0,
            month: 0,
            day: 0,
        },
        nontarget: false,
        disease: BaselineDisease {
            assessed: false,
            count: 0,
            nodes: [false; 5],
            baselinesum: 0,
        },
    };
    let followup = FollowUp {
        earlier: Earlier { nadir: 0 },
        latestday: StudyDay(0),
        therapyrecorded: false,
        deathday: None,
        event: no_visits(StudyDay(0)),
        counting: no_counting_visits(),
    };
    Subject {
        enrolment,
        followup,
    }
}

fn refused(refusal: OpenRefusal) -> OpenResult
    ensures { (result.answer ≡ Err refusal) × (result.subject ≡ blank_subject) }
{
    OpenResult {
        subject: blank_subject(),
        answer: Err(refusal),
    }
}

// Refusal 7.
fn open_checked(entry: Entry, marks: [bool; 5], sizes: [u16; 5]) -> OpenResult
    ensures { OpensChecked entry marks sizes result.answer result.subject }
{
    match entry {
        Entry::Baseline(b) => OpenResult {
            subject: subject_of_baseline(b, marks, sizes),
            answer: Ok(()),
        },
        Entry::Visit(_) | Entry::Therapy(_) | Entry::Death(_) => refused(OpenRefusal::NotBaseline),
    }
}

pub fn open_subject(r: Record) -> OpenResult
    ensures { Opens r result.answer result.subject }
{
    match records::check(r) {
        Ok(()) => open_checked(r.entry, r.marks, r.sizes),
        Err(own) => refused(OpenRefusal::Own(own)),
    }
}

// The record is judged as it is read, and not again.
pub fn open_bytes(bytes: &[u8]) -> OpenResult
    ensures { OpensBytes bytes.now result.answer result.subject }
{
    let read = codec::read(bytes);
    let found = read.found;
    match read.answer {
        Ok(()) => open_checked(found.entry, found.marks, found.sizes),
        Err(refusal) => refused(OpenRefusal::from(refusal)),
    }
}
