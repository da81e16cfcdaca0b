// Answers on standard output: their numbers, chosen by the names of their cases, and the outcome in the lines of the listing.
use adding::AddAnswer;
use file::FileRefusal;
use outcome::{OutOfRange, OutcomeResult, SettledMarks};
use outcome_rules::{BestResponse, DurationResult, PfsStatus};
use output::{Output, STANDARD_OUTPUT};
use std::fmt::{self, Write};
use subject::OpenRefusal;

// The status with the space behind it.
#[derive(Drop)]
struct Status(PfsStatus);

impl fmt::Display for Status {
    fn fmt<W: fmt::Write>(&self, f: &mut fmt::Formatter<W>) -> fmt::Result {
        f.write_str(match self.0 {
            PfsStatus::Event => "EVENT ",
            PfsStatus::Censored => "CENSORED ",
        })
    }
}

#[derive(Drop)]
struct Best(BestResponse);

impl fmt::Display for Best {
    fn fmt<W: fmt::Write>(&self, f: &mut fmt::Formatter<W>) -> fmt::Result {
        f.write_str(match self.0 {
            BestResponse::CR => "CR",
            BestResponse::PR => "PR",
            BestResponse::SD => "SD",
            BestResponse::PD => "PD",
            BestResponse::NE => "NE",
        })
    }
}

#[derive(Drop)]
struct Duration(Option<DurationResult>);

impl fmt::Display for Duration {
    fn fmt<W: fmt::Write>(&self, f: &mut fmt::Formatter<W>) -> fmt::Result {
        match self.0 {
            None => f.write_str("none"),
            Some(r) => write!(f, "{}{}", Status(r.status), r.days),
        }
    }
}

// Behind a space, 1 for a part that is settled, else 0.
#[derive(Drop)]
struct Mark(bool);

impl fmt::Display for Mark {
    fn fmt<W: fmt::Write>(&self, f: &mut fmt::Formatter<W>) -> fmt::Result {
        f.write_str(if self.0 { " 1" } else { " 0" })
    }
}

#[derive(Drop)]
struct Marks(SettledMarks);

impl fmt::Display for Marks {
    fn fmt<W: fmt::Write>(&self, f: &mut fmt::Formatter<W>) -> fmt::Result {
        let settled = self.0;
        write!(
            f,
            "{}{}{}",
            Mark(settled.pfs),
            Mark(settled.best),
            Mark(settled.duration)
        )
    }
}

pub(crate) fn text(line: &[u8]) {
    io::write_all(STANDARD_OUTPUT, line);
}

pub(crate) fn length(n: usize) {
    let _ = write!(Output(STANDARD_OUTPUT), "{n}\n");
}

// Behind an A, which starts the numbers of a history.
pub(crate) fn opened(answer: Result<(), OpenRefusal>) {
    let _ = write!(
        Output(STANDARD_OUTPUT),
        "A {}",
        subject::open_number(answer)
    );
}

// Behind a space.
pub(crate) fn added(answer: AddAnswer) {
    let _ = write!(Output(STANDARD_OUTPUT), " {}", adding::add_number(answer));
}

fn outcome_lines(o: OutcomeResult) {
    let _ = write!(
        Output(STANDARD_OUTPUT),
        "\nP {}{}\nB {}\nD {}\nS{}\n",
        Status(o.pfs.status),
        o.pfs.day.0,
        Best(o.best),
        Duration(o.duration),
        Marks(o.settled)
    );
}

// Below the line of numbers, which it ends.
pub(crate) fn outcome(reading: Result<OutcomeResult, OutOfRange>) {
    match reading {
        Ok(o) => outcome_lines(o),
        Err(OutOfRange) => text(b"\nR 12\n"),
    }
}

// The outcome of a file on one line.
fn accepted(o: OutcomeResult) {
    let _ = write!(
        Output(STANDARD_OUTPUT),
        "F {}{} {} {}{}\n",
        Status(o.pfs.status),
        o.pfs.day.0,
        Best(o.best),
        Duration(o.duration),
        Marks(o.settled)
    );
}

fn refused(r: FileRefusal) {
    let _ = write!(Output(STANDARD_OUTPUT), "F R {} {}\n", r.number, r.index);
}

pub(crate) fn judged(answer: Result<OutcomeResult, FileRefusal>) {
    match answer {
        Ok(o) => accepted(o),
        Err(r) => refused(r),
    }
}
