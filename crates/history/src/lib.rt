// A history, which is a byte string of records, on standard output: replayed as calls, judged as a file, and listed. The last reading, or the judged file, is answered too,
// with its promise, also where a print fails. Of each history: its name; behind A the numbers of the answers of opening and adding, 0 where done; the lines P, B, D and S of the last
// reading, or R and its number; behind F what judging the file answers; then its listing. The programs `examples` and `refusals` print by it.
#![tactic(auto)]

ghost use Rattle.file.specs.Verdict.{JudgesFile};
ghost use Rattle.history.specs.Replay.{records_in, Replayed};

use file::FileRefusal;
use outcome::{OutOfRange, OutcomeResult};

mod print; // print.rt: answers on standard output
mod replay; // replay.rt: the calls that a byte string makes

const LONG_LISTING: usize = 1000;

// Of a long listing only how many bytes it has, its first line of 24 bytes, and the last one with the four of the outcome.
fn print_listing(text: &[u8]) {
    if text.len() <= LONG_LISTING {
        return print::text(text);
    }
    print::length(text.len());
    print::text(&text[..24]);
    print::text(&text[text.len() - 71..]);
}

fn listing(bytes: &[u8]) {
    let mut page = listing_text::blank_page();
    let n = listing::list(bytes, &mut page);
    print_listing(&page[..n]);
}

fn judged(bytes: &[u8]) -> Result<OutcomeResult, FileRefusal>
    ensures { JudgesFile bytes.now result }
{
    let answer = file::judge_file(bytes);
    print::judged(answer);
    answer
}

fn replayed(name: &[u8], bytes: &[u8]) -> Result<OutcomeResult, OutOfRange>
    ensures { Replayed (records_in bytes.now) result }
{
    print::text(name);
    let o = replay::replay(bytes);
    print::outcome(o);
    o
}

// The last reading of the replay.
pub fn show_history(name: &[u8], bytes: &[u8]) -> Result<OutcomeResult, OutOfRange>
    ensures { Replayed (records_in bytes.now) result }
{
    let o = replayed(name, bytes);
    let _ = judged(bytes);
    listing(bytes);
    o
}

// As a file alone, for bytes that are no whole records.
pub fn show_file(name: &[u8], bytes: &[u8]) -> Result<OutcomeResult, FileRefusal>
    ensures { JudgesFile bytes.now result }
{
    print::text(name);
    let answer = judged(bytes);
    listing(bytes);
    answer
}
