// One record more.
ghost use Rattle.std.specs.Prelude.{◌≡◌, Err};
ghost use Rattle.response_rules.specs.Words.{target_word, status_word, overall_word};
ghost use Rattle.response_rules.specs.Change.{change_values};
ghost use Rattle.records.specs.declared.Entry.TheVariants as E;
ghost use Rattle.adding.specs.Responses.{response_values};
ghost use Rattle.adding.specs.Refusals.{add_number};
ghost use Rattle.adding.specs.Stepping.{StepsBy, Steps, StepsLater};

use super::after::{after_death, after_therapy, after_visit};
use super::refusals::{
    refusal_of_baseline, refusal_of_step, refusal_of_therapy_or_death, refusal_of_visit,
};
use super::{AddRefusal, Dated, Step, VisitResponse};
use dates::StudyDay;
use records::{Entry, VisitEntry};
use response::VisitAnswer;
use subject::{Enrolment, FollowUp};

fn refused(f: FollowUp, refusal: AddRefusal) -> Step
    ensures { (result.answer ≡ Err refusal) × (result.followup ≡ f) }
{
    Step {
        followup: f,
        answer: Err(refusal),
    }
}

fn response_of(day: StudyDay, v: VisitEntry, judged: VisitAnswer) -> VisitResponse
    ensures { response_values result ≡ record { day = day.0; target = target_word judged.target; nontarget = status_word v.status; overall = overall_word judged.overall; change = change_values judged.change } }
{
    VisitResponse {
        day,
        target: judged.target,
        nontarget: v.status,
        overall: judged.overall,
        change: judged.change,
    }
}

// A visit that no refusal meets.
fn place_visit(
    e: Enrolment,
    f: FollowUp,
    day: StudyDay,
    v: VisitEntry,
    measured: [bool; 5],
    sizes: [u16; 5],
) -> Step
    ensures { StepsBy e f day (E.Visit v) measured sizes 0 result }
{
    let judged = response::judge_visit(e.disease, f.earlier, v, measured, sizes);
    Step {
        followup: after_visit(f, day, judged),
        answer: Ok(Some(response_of(day, v, judged))),
    }
}

// A step makes the follow-up alone, so that it takes the two parts of a subject, and a therapy or a death the one.
fn step_visit(inside: bool, e: Enrolment, f: FollowUp, x: Dated, v: VisitEntry) -> Step
    ensures { Steps inside e f x.day (add_number x.own) (E.Visit v) x.found.marks x.found.sizes result }
{
    let found = x.found;
    let behind = refusal_of_visit(e, f, x.day, v, found.marks);
    match refusal_of_step(inside, x.own, behind) {
        Ok(()) => place_visit(e, f, x.day, v, found.marks, found.sizes),
        Err(refusal) => refused(f, refusal),
    }
}

// A therapy or a death, by the follow-up after it.
fn step_later(inside: bool, f: FollowUp, x: Dated, next: FollowUp) -> Step
    ensures { StepsLater inside f x next result }
{
    let behind = refusal_of_therapy_or_death(f, x.day);
    match refusal_of_step(inside, x.own, behind) {
        Ok(()) => Step {
            followup: next,
            answer: Ok(None),
        },
        Err(refusal) => refused(f, refusal),
    }
}

pub(crate) fn step(inside: bool, e: Enrolment, f: FollowUp, x: Dated) -> Step
    ensures { Steps inside e f x.day (add_number x.own) x.found.entry x.found.marks x.found.sizes result }
{
    match x.found.entry {
        Entry::Baseline(_) => refused(f, refusal_of_baseline(inside, x.own)),
        Entry::Visit(v) => step_visit(inside, e, f, x, v),
        Entry::Therapy(_) => step_later(inside, f, x, after_therapy(f, x.day)),
        Entry::Death(_) => step_later(inside, f, x, after_death(f, x.day)),
    }
}
