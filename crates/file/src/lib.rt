// A file of records judged: its refusal with the index of a record, or its outcome with the settled marks (document 01, "Change in size,
// file and listing" and "Where a call stops", 13 and 14). That it is judged as the calls on its records are is proved here.
#![tactic(auto)]

ghost use Rattle.std.specs.Prelude.{◌≡◌};
ghost use Rattle.file.specs.Verdict.{file_values, refused as stopped, JudgesFile};

use codec::RECORD_LENGTH;
use outcome::OutcomeResult;

mod ending; // ending.rt: behind the last record

pub use ending::end_file;

#[derive(Clone, Copy)]
pub struct FileRefusal {
    // The number in document 01, which the line of a refusal prints: an enum of eleven cases would be turned back into it at once.
    pub number: u8,
    // The record that stops the file, from 0.
    pub index: usize,
}

pub fn refused(number: u8, index: usize) -> Result<OutcomeResult, FileRefusal>
    ensures { file_values result ≡ stopped number index }
{
    Err(FileRefusal { number, index })
}

// The loops of listing and converter differ from this one in the page and in the calls: one loop for all would take three closures with a clause each.
pub fn judge_file(bytes: &[u8]) -> Result<OutcomeResult, FileRefusal>
    ensures { JudgesFile bytes.now result }
{
    if codec::bad_length(bytes.len()) {
        return refused(13, 0);
    }
    let first = subject::open_bytes(&bytes[0..RECORD_LENGTH]);
    if first.answer.is_err() {
        return refused(subject::open_number(first.answer), 0);
    }
    let mut subject = first.subject;
    let later = &bytes[RECORD_LENGTH..];
    for (k, part) in later.chunks_exact(RECORD_LENGTH).enumerate() {
        let addition = adding::add_bytes(subject, part);
        if addition.answer.is_err() {
            return refused(adding::add_number(addition.answer), k + 1);
        }
        subject = addition.subject;
    }
    end_file(subject, later.len() / RECORD_LENGTH)
}
