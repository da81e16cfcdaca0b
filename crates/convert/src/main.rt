// The program that converts (document 02, request 1): a file of the old form from standard input, the same file in the new form to standard output. A refused
// file writes nothing to standard output, and R with its number and the index of a record to standard error.
#![tactic(auto)]

use anyhow::{Result, ensure};
use file::FileRefusal;
use input::End;
use output::{Output, STANDARD_ERROR};
use std::fmt::Write;

fn print_refusal(r: FileRefusal) {
    let _ = write!(Output(STANDARD_ERROR), "R {} {}\n", r.number, r.index);
}

fn print_converted(rt: &impl Print, old: &[u8]) -> Result<()> {
    let mut out = [0; 65536];
    match converter::convert(old, &mut out) {
        Ok(n) => ensure!(
            rt.write_all(&out[..n]).is_ok(),
            "convert: standard output cannot be written"
        ),
        Err(r) => print_refusal(r),
    }
    Ok(())
}

fn convert_input(rt: &HostRuntime) -> Result<()> {
    let mut bytes = [0; 65536];
    let read = input::read_input(&mut rt.stdin(), &mut bytes);
    ensure!(
        read.end != End::Failed,
        "convert: standard input cannot be read"
    );
    print_converted(rt, &bytes[..read.count])
}

// An error changes no exit status.
fn main(rt: HostRuntime) {
    if let Err(error) = convert_input(&rt) {
        let _ = rt.eprintln(error);
    }
}
