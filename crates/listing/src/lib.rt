// The listing of a file (document 01, "Change in size, file and listing"): judged and its visits' lines written in one pass.
#![tactic(auto)]

ghost use Rattle.std.specs.Prelude.{◌≡◌, ◌≤◌, length, take, drop, ◌++◌};
ghost use Rattle.file.specs.Verdict.{file_values, refused};
ghost use Rattle.listing_text.specs.Text.{longest_listing};
ghost use Rattle.listing.specs.Writing.{JudgesInto, ListsFile};

use codec::RECORD_LENGTH;
use file::FileRefusal;
use listing_text::PAGE_LENGTH;
use outcome::OutcomeResult;

mod page; // page.rt: texts and numbers into a page
mod words; // words.rt: the words of answers into a page
mod visits; // visits.rt: the line of a visit
mod outcomes; // outcomes.rt: the lines of the outcome, and the line of a refusal

// A file judged, and how many bytes the lines written so far take.
#[derive(Clone, Copy)]
struct JudgedLines {
    answer: Result<OutcomeResult, FileRefusal>,
    length: usize,
}

fn stopped(number: u8, index: usize, length: usize) -> JudgedLines
    ensures { (file_values result.answer ≡ refused number index) × (result.length ≡ length) }
{
    JudgedLines {
        answer: file::refused(number, index),
        length,
    }
}

// A loop of its own beside `file::judge_file`, for the page; file/src/lib.rt says why.
fn judge_into(bytes: &[u8], page: &mut [u8]) -> JudgedLines
    requires { length page.old ≡ longest_listing }
    ensures { JudgesInto bytes.now page.old result.answer result.length page.new }
{
    if codec::bad_length(bytes.len()) {
        return stopped(13, 0, 0);
    }
    let first = subject::open_bytes(&bytes[0..RECORD_LENGTH]);
    if first.answer.is_err() {
        return stopped(subject::open_number(first.answer), 0, 0);
    }
    let mut subject = first.subject;
    let mut at: usize = 0;
    let later = &bytes[RECORD_LENGTH..];
    for (k, part) in later.chunks_exact(RECORD_LENGTH).enumerate() {
        let addition = adding::add_bytes(subject, part);
        if addition.answer.is_err() {
            return stopped(adding::add_number(addition.answer), k + 1, at);
        }
        subject = addition.subject;
        at = visits::put_lines(page, at, addition.answer);
    }
    JudgedLines {
        answer: file::end_file(subject, later.len() / RECORD_LENGTH),
        length: at,
    }
}

fn copy(from: &[u8], page: &mut [u8], n: usize)
    requires { (n ≤ length from.now) × (n ≤ length page.old) }
    ensures { page.new ≡ take n from.now ++ drop n page.old }
{
    page[..n].copy_from_slice(&from[..n]);
}

// The page has room for the longest listing, so that none is cut short. Where a file is refused behind a visit, the page is restored first.
pub fn list(bytes: &[u8], page: &mut [u8; PAGE_LENGTH]) -> usize
    ensures { ListsFile bytes.now page.old result page.new }
{
    let before = *page;
    let judged = judge_into(bytes, page);
    match judged.answer {
        Ok(outcome) => outcomes::put_outcome(page, judged.length, outcome),
        Err(refusal) => {
            copy(&before, page, judged.length);
            outcomes::put_refusal(page, refusal)
        }
    }
}
