// Old files converted (document 02, request 1): the printed example, each refusal, the orders in which they are judged, what is left of the output, and the
// longest file. The file `stdout`, to which what is printed is held, is worked out by hand. Of each conversion: its name; the number of bytes written, or R
// with a number and an index; and behind a conversion what `history` shows of the file written.
#![tactic(auto)]

use file::FileRefusal;
use output::{Output, STANDARD_OUTPUT};
use std::fmt::Write;

fn print_refused(r: FileRefusal) {
    let _ = write!(Output(STANDARD_OUTPUT), "R {} {}\n", r.number, r.index);
}

// Into an output of 65,536 bytes.
fn show(name: &str, old: &[u8]) {
    let _ = Output(STANDARD_OUTPUT).write_str(name);
    let mut out = [0; 65536];
    match converter::convert(old, &mut out) {
        Ok(n) => {
            let _ = write!(Output(STANDARD_OUTPUT), "{n}\n");
            let _ = history::show_file(b"", &out[..n]);
        }
        Err(r) => print_refused(r),
    }
}

// The four records of document 01's printed example.
fn printed_example() {
    show(
        "the printed example\n",
        b"\x2F\xC8\x21\xD0\x28\x82\x80\x00\x00\x00\x00\x4F\xC8\x4C\x48\x31\x03\x00\x00\x00\x00\x00\x4F\xC8\x79\x48\x01\x02\x40\x00\x00\x00\x00\x4F\xC8\xA6\x48\x01\x03\xC0\x00\x00\x00\x00",
    );
}

// 2 to 5, by the limits of the old form.
fn own_refusals() {
    // One target of 20; eleven zeros.
    show(
        "no such kind\n",
        b"\x2F\xC8\x21\x88\x14\x00\x00\x00\x00\x00\x00\x00\x00\x00\x00\x00\x00\x00\x00\x00\x00\x00",
    );
    // The baseline of the printed example; the same on 2020-02-30.
    show(
        "no such date\n",
        b"\x2F\xC8\x21\xD0\x28\x82\x80\x00\x00\x00\x00\x2F\xC8\x5E\xD0\x28\x82\x80\x00\x00\x00\x00",
    );
    // One target of 20; a visit on day 43 (501).
    show(
        "a measured size of 501\n",
        b"\x2F\xC8\x21\x88\x14\x00\x00\x00\x00\x00\x00\x4F\xC8\x4C\x0B\xEA\x00\x00\x00\x00\x00\x00",
    );
    // One target of 20; a visit on day 43 (1023), which is ten times in no 13 bits.
    show(
        "a measured size of 1023\n",
        b"\x2F\xC8\x21\x88\x14\x00\x00\x00\x00\x00\x00\x4F\xC8\x4C\x0F\xFE\x00\x00\x00\x00\x00\x00",
    );
    // One target of 9.
    show(
        "a target of 9\n",
        b"\x2F\xC8\x21\x88\x09\x00\x00\x00\x00\x00\x00",
    );
    // One node of 14.
    show(
        "a node of 14\n",
        b"\x2F\xC8\x21\x8C\x0E\x00\x00\x00\x00\x00\x00",
    );
    // One target of 20, and the last bit set.
    show(
        "a spare bit\n",
        b"\x2F\xC8\x21\x88\x14\x00\x00\x00\x00\x00\x01",
    );
    // One target of 20; a visit on day 43 (not measured, with a size of 501).
    show(
        "an unmeasured size of 501\n",
        b"\x2F\xC8\x21\x88\x14\x00\x00\x00\x00\x00\x00\x4F\xC8\x4C\x03\xEA\x00\x00\x00\x00\x00\x00",
    );
}

// 7 to 11, with the index of the record.
fn later_refusals() {
    // A therapy.
    show(
        "no baseline\n",
        b"\x6F\xC8\x21\x00\x00\x00\x00\x00\x00\x00\x00",
    );
    // The baseline of the printed example twice.
    show(
        "a second baseline\n",
        b"\x2F\xC8\x21\xD0\x28\x82\x80\x00\x00\x00\x00\x2F\xC8\x21\xD0\x28\x82\x80\x00\x00\x00\x00",
    );
    // The baseline of the printed example; death on day 5, therapy on day 6.
    show(
        "after a death\n",
        b"\x2F\xC8\x21\xD0\x28\x82\x80\x00\x00\x00\x00\x8F\xC8\x25\x00\x00\x00\x00\x00\x00\x00\x00\x6F\xC8\x26\x00\x00\x00\x00\x00\x00\x00\x00",
    );
    // The baseline of the printed example; a visit on day 1.
    show(
        "a visit on day 1\n",
        b"\x2F\xC8\x21\xD0\x28\x82\x80\x00\x00\x00\x00\x4F\xC8\x21\x48\x31\x03\x00\x00\x00\x00\x00",
    );
    // One target of 20; a visit on day 43 with two measured.
    show(
        "a target beyond the count\n",
        b"\x2F\xC8\x21\x88\x14\x00\x00\x00\x00\x00\x00\x4F\xC8\x4C\x08\x29\x05\x00\x00\x00\x00\x00",
    );
}

// 13, by the lengths of the old form.
fn lengths() {
    let zeros = [0; 44011];
    show("no bytes\n", b"");
    show("thirteen bytes\n", &zeros[..13]);
    show("44,011 bytes\n", &zeros);
    show("44,000 bytes\n", &zeros[..44000]);
}

fn print_bytes(bytes: &[u8]) {
    for b in bytes {
        let _ = write!(Output(STANDARD_OUTPUT), " {b}");
    }
    let _ = Output(STANDARD_OUTPUT).write_str("\n");
}

// Into an output that the caller lends, and the bytes that are left in it.
fn show_output(name: &str, old: &[u8], out: &mut [u8]) {
    let _ = Output(STANDARD_OUTPUT).write_str(name);
    match converter::convert(old, out) {
        Ok(n) => {
            let _ = write!(Output(STANDARD_OUTPUT), "{n}\n");
        }
        Err(r) => print_refused(r),
    }
    print_bytes(out);
}

// 6, index 0, behind all others, and what is left of the output.
fn outputs() {
    let mut short = [7; 51];
    let mut exact = [7; 52];
    let mut long = [7; 54];
    let mut none = [7; 1];
    // The printed example.
    show_output(
        "into 51 bytes\n",
        b"\x2F\xC8\x21\xD0\x28\x82\x80\x00\x00\x00\x00\x4F\xC8\x4C\x48\x31\x03\x00\x00\x00\x00\x00\x4F\xC8\x79\x48\x01\x02\x40\x00\x00\x00\x00\x4F\xC8\xA6\x48\x01\x03\xC0\x00\x00\x00\x00",
        &mut short,
    );
    show_output(
        "into 52 bytes\n",
        b"\x2F\xC8\x21\xD0\x28\x82\x80\x00\x00\x00\x00\x4F\xC8\x4C\x48\x31\x03\x00\x00\x00\x00\x00\x4F\xC8\x79\x48\x01\x02\x40\x00\x00\x00\x00\x4F\xC8\xA6\x48\x01\x03\xC0\x00\x00\x00\x00",
        &mut exact,
    );
    show_output(
        "into 54 bytes\n",
        b"\x2F\xC8\x21\xD0\x28\x82\x80\x00\x00\x00\x00\x4F\xC8\x4C\x48\x31\x03\x00\x00\x00\x00\x00\x4F\xC8\x79\x48\x01\x02\x40\x00\x00\x00\x00\x4F\xC8\xA6\x48\x01\x03\xC0\x00\x00\x00\x00",
        &mut long,
    );
    // The baseline of the printed example; a visit on day 1.
    show_output(
        "10 before 6\n",
        b"\x2F\xC8\x21\xD0\x28\x82\x80\x00\x00\x00\x00\x4F\xC8\x21\x48\x31\x03\x00\x00\x00\x00\x00",
        &mut none,
    );
    // Thirteen zeros.
    show_output(
        "13 before 6\n",
        b"\x00\x00\x00\x00\x00\x00\x00\x00\x00\x00\x00\x00\x00",
        &mut none,
    );
    // The baseline and the first two visits of the printed example; the first visit again.
    show_output(
        "refused behind three records\n",
        b"\x2F\xC8\x21\xD0\x28\x82\x80\x00\x00\x00\x00\x4F\xC8\x4C\x48\x31\x03\x00\x00\x00\x00\x00\x4F\xC8\x79\x48\x01\x02\x40\x00\x00\x00\x00\x4F\xC8\x4C\x48\x31\x03\x00\x00\x00\x00\x00",
        &mut short,
    );
}

// The longest old file is standard input: randomisation on 1990-01-01 with targets 40 and node 20 and non-target disease, and 3,999 visits, on days 10,000 to
// 13,997 and 40,177, all (0, 0) and NN. `refusals` reads its longest file by the same two calls.
fn longest_file(rt: &HostRuntime) {
    let mut bytes = [0; 65536];
    let read = input::read_input(&mut rt.stdin(), &mut bytes);
    show("the longest file\n", &bytes[..read.count]);
}

// Sizes are given in millimetres.
fn main(rt: HostRuntime) {
    printed_example();
    own_refusals();
    later_refusals();
    lengths();
    outputs();
    longest_file(&rt);
}
