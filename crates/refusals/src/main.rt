// Where a call stops (document 01): each refusal, the orders in which they are judged, and the longest file. The file `stdout`, to which what is printed
// is held, is worked out by hand from document 01.
#![tactic(auto)]

use dates::StudyDay;
use outcome_rules::BestResponse;
use output::{Output, STANDARD_OUTPUT};
use records::Record;
use std::fmt::Write;
use subject::{CountingVisits, EventDays, FollowUp, Subject};
use writing::WriteRefusal;

fn text(line: &str) {
    let _ = Output(STANDARD_OUTPUT).write_str(line);
}

// The last reading is printed, and needed no more.
fn show_history(name: &[u8], bytes: &[u8]) {
    let _ = history::show_history(name, bytes);
}

// So is what judging the file answers.
fn show_file(name: &[u8], bytes: &[u8]) {
    let _ = history::show_file(name, bytes);
}

// 2 to 5, a record's own, before those of opening and adding.
fn own_refusals_of_files() {
    // One target of 20; thirteen zeros.
    show_history(
        b"no such kind\n",
        b"\x2F\xC8\x21\x88\x19\x00\x00\x00\x00\x00\x00\x00\x00\x00\x00\x00\x00\x00\x00\x00\x00\x00\x00\x00\x00\x00",
    );
    // One target of 20; a visit on day 43 (500.1), which reading refuses by 4.
    show_history(
        b"a measured size of 500.1 mm\n",
        b"\x2F\xC8\x21\x88\x19\x00\x00\x00\x00\x00\x00\x00\x00\x4F\xC8\x4C\x0C\xE2\x40\x00\x00\x00\x00\x00\x00\x00",
    );
    // One target of 20; a visit on day 43 (not measured, with a size of 500.1), which reading refuses by 5.
    show_history(
        b"an unmeasured size of 500.1 mm\n",
        b"\x2F\xC8\x21\x88\x19\x00\x00\x00\x00\x00\x00\x00\x00\x4F\xC8\x4C\x04\xE2\x40\x00\x00\x00\x00\x00\x00\x00",
    );
    // A baseline that is assessed, without targets and without non-target disease.
    show_history(
        b"assessed without disease\n",
        b"\x2F\xC8\x21\x80\x00\x00\x00\x00\x00\x00\x00\x00\x00",
    );
    // A baseline that is missing with count 7, which reading refuses by 5.
    show_history(
        b"5 alone\n",
        b"\x2F\xC8\x21\x38\x00\x00\x00\x00\x00\x00\x00\x00\x00",
    );
    // A visit with status 6, which reading refuses by 4; opening refuses the blank record by 3.
    show_history(
        b"4 before 7\n",
        b"\x4F\xC8\x4C\xC8\x3C\x20\x78\x00\x00\x00\x00\x00\x00",
    );
    // The baseline of the printed example; the same on 2020-02-30.
    show_history(
        b"3 before 8\n",
        b"\x2F\xC8\x21\xD0\x32\x10\x64\x00\x00\x00\x00\x00\x00\x2F\xC8\x5E\xD0\x32\x10\x64\x00\x00\x00\x00\x00\x00",
    );
}

// 7 and 8.
fn baseline_refusals() {
    // A therapy, which opening refuses by 7; a visit, which the blank subject refuses by 12.
    show_history(
        b"no baseline\n",
        b"\x6F\xC8\x21\x00\x00\x00\x00\x00\x00\x00\x00\x00\x00\x4F\xC8\x4C\x48\x3C\x20\x78\x00\x00\x00\x00\x00\x00",
    );
    // The baseline of the printed example twice.
    show_history(
        b"a second baseline\n",
        b"\x2F\xC8\x21\xD0\x32\x10\x64\x00\x00\x00\x00\x00\x00\x2F\xC8\x21\xD0\x32\x10\x64\x00\x00\x00\x00\x00\x00",
    );
}

// 9 to 11.
fn later_refusals() {
    // The baseline of the printed example; death on day 5, therapy on day 6.
    show_history(
        b"after a death\n",
        b"\x2F\xC8\x21\xD0\x32\x10\x64\x00\x00\x00\x00\x00\x00\x8F\xC8\x25\x00\x00\x00\x00\x00\x00\x00\x00\x00\x00\x6F\xC8\x26\x00\x00\x00\x00\x00\x00\x00\x00\x00\x00",
    );
    // One target of 20; death on day 5, a visit on day 4 (20).
    show_history(
        b"9 before 10\n",
        b"\x2F\xC8\x21\x88\x19\x00\x00\x00\x00\x00\x00\x00\x00\x8F\xC8\x25\x00\x00\x00\x00\x00\x00\x00\x00\x00\x00\x4F\xC8\x24\x08\x32\x00\x00\x00\x00\x00\x00\x00\x00",
    );
    // The baseline of the printed example; a visit on day 1, which 10 meets.
    show_history(
        b"a visit on day 1\n",
        b"\x2F\xC8\x21\xD0\x32\x10\x64\x00\x00\x00\x00\x00\x00\x4F\xC8\x21\x48\x3C\x20\x78\x00\x00\x00\x00\x00\x00",
    );
    // The baseline of the printed example; a therapy on 2019-12-31, which 10 meets.
    show_history(
        b"before randomisation\n",
        b"\x2F\xC8\x21\xD0\x32\x10\x64\x00\x00\x00\x00\x00\x00\x6F\xC7\x9F\x00\x00\x00\x00\x00\x00\x00\x00\x00\x00",
    );
    // One target of 20; visits on day 43 (20), and on the same day with two measured.
    show_history(
        b"10 before 11\n",
        b"\x2F\xC8\x21\x88\x19\x00\x00\x00\x00\x00\x00\x00\x00\x4F\xC8\x4C\x08\x32\x00\x00\x00\x00\x00\x00\x00\x00\x4F\xC8\x4C\x08\x32\x20\x64\x00\x00\x00\x00\x00\x00",
    );
    // One target of 20; a visit on day 43 with two measured.
    show_history(
        b"a target beyond the count\n",
        b"\x2F\xC8\x21\x88\x19\x00\x00\x00\x00\x00\x00\x00\x00\x4F\xC8\x4C\x08\x32\x20\xC8\x00\x00\x00\x00\x00\x00",
    );
}

// Refusal 13, and as many records as a file may have, of kind 0.
fn lengths() {
    // Nothing.
    show_file(b"no bytes\n", b"");
    // The first baseline and one byte more.
    show_file(
        b"fourteen bytes\n",
        b"\x2F\xC8\x21\xD0\x32\x10\x64\x00\x00\x00\x00\x00\x00\x00",
    );
    let zeros = [0; 52013];
    show_file(b"52,013 bytes\n", &zeros);
    show_file(b"52,001 bytes\n", &zeros[..52001]);
    show_file(b"52,000 bytes\n", &zeros[..52000]);
}

fn print_number(n: u8) {
    let _ = write!(Output(STANDARD_OUTPUT), "{n}\n");
}

fn print_written(answer: Result<(), WriteRefusal>) {
    match answer {
        Ok(()) => text("0\n"),
        Err(WriteRefusal::Own(own)) => print_number(records::own_number(own)),
        Err(WriteRefusal::ShortOutput) => text("6\n"),
    }
}

// 1 and 6 meet no file.
fn bytes_of_one() {
    let short = codec::read(b"\x2F\xC8\x21\xD0\x32\x10\x64\x00\x00\x00\x00\x00");
    text("twelve bytes read\n");
    print_number(codec::read_number(short.answer));
    let baseline = codec::read(b"\x2F\xC8\x21\xD0\x32\x10\x64\x00\x00\x00\x00\x00\x00");
    let mut out = [0; 12];
    let unwritten = writing::write(baseline.found, &mut out);
    text("into twelve bytes written\n");
    print_written(unwritten);
}

// What opening, adding, adding to a subject out of range, and writing into twelve bytes answer for a record that 4 or 5 meets.
fn own_refusal(name: &str, r: Record, held: Subject) {
    let opened = subject::open_subject(r);
    let unopened = subject::open_number(opened.answer);
    let unadded = adding::add_number(adding::added(held, r).answer);
    let unjudged = adding::add_number(adding::added(opened.subject, r).answer);
    text(name);
    let _ = write!(
        Output(STANDARD_OUTPUT),
        "A {unopened} {unadded} {unjudged}\n"
    );
    let mut out = [0; 12];
    let unwritten = writing::write(r, &mut out);
    print_written(unwritten);
}

// The baseline of the printed example, and that baseline with a size of 500.1 mm, and with a size beyond the count.
fn own_refusals() {
    let baseline = codec::read(b"\x2F\xC8\x21\xD0\x32\x10\x64\x00\x00\x00\x00\x00\x00");
    let found = baseline.found;
    let held = subject::open_subject(found).subject;
    let large = Record {
        sizes: [5001, 200, 0, 0, 0],
        ..found
    };
    let beyond = Record {
        sizes: [400, 200, 1, 0, 0],
        ..found
    };
    own_refusal("4 by the calls\n", large, held);
    own_refusal("5 by the calls\n", beyond, held);
}

// 14 on a held subject that no lawful list leads to: PFS is censored on day 43, and the first response is on day 50.
fn late_response() {
    let baseline = codec::read(b"\x2F\xC8\x21\xD0\x32\x10\x64\x00\x00\x00\x00\x00\x00");
    let held = subject::open_subject(baseline.found).subject;
    let late = Subject {
        enrolment: held.enrolment,
        followup: FollowUp {
            earlier: held.followup.earlier,
            latestday: StudyDay(78),
            therapyrecorded: false,
            deathday: None,
            event: EventDays {
                progression: None,
                lastvisit: StudyDay(43),
                lastevaluable: Some(StudyDay(43)),
            },
            counting: CountingVisits {
                firstresponse: Some(StudyDay(50)),
                crstart: None,
                best: BestResponse::PR,
            },
        },
    };
    text("a response behind the end of PFS\n");
    match file::end_file(late, 3) {
        Ok(_) => text("accepted\n"),
        Err(r) => {
            let _ = write!(Output(STANDARD_OUTPUT), "F R {} {}\n", r.number, r.index);
        }
    }
}

// The longest file is standard input: randomisation on 1990-01-01 with targets 40 and node 20 and non-target disease, and 3,999 visits, on
// days 10,000 to 13,997 and 40,177, all (0, 0) and NN. It is read in many chunks.
fn longest_file(rt: &HostRuntime) {
    let mut bytes = [0; 65536];
    let read = input::read_input(&mut rt.stdin(), &mut bytes);
    show_history(b"the longest file\n", &bytes[..read.count]);
}

// Randomisation is on 2020-01-01 in each history but the longest. Sizes are given in millimetres.
fn main(rt: HostRuntime) {
    own_refusals_of_files();
    baseline_refusals();
    later_refusals();
    lengths();
    bytes_of_one();
    own_refusals();
    late_response();
    longest_file(&rt);
}
