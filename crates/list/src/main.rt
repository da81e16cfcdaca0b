// The listing program (document 01, "Change in size, file and listing"): a file from standard input, its listing to standard output. A read
// that fails is no end of input, so that a file that was cut off is never listed as a whole one.
#![tactic(auto)]

use anyhow::{Result, ensure};
use input::End;

fn print_listing(rt: &impl Print, bytes: &[u8]) -> Result<()> {
    let mut page = listing_text::blank_page();
    let n = listing::list(bytes, &mut page);
    ensure!(
        rt.write_all(&page[..n]).is_ok(),
        "list: standard output cannot be written"
    );
    Ok(())
}

// `convert` has the same two calls with other messages.
fn list_input(rt: &HostRuntime) -> Result<()> {
    let mut bytes = [0; 65536];
    let read = input::read_input(&mut rt.stdin(), &mut bytes);
    ensure!(
        read.end != End::Failed,
        "list: standard input cannot be read"
    );
    print_listing(rt, &bytes[..read.count])
}

// An error changes no exit status.
fn main(rt: HostRuntime) {
    if let Err(error) = list_input(&rt) {
        let _ = rt.eprintln(error);
    }
}
