// A replay of calls: a subject opened with the first record of a byte string, each further one added to it, refused or not, and its outcome
// read after each. The answers are printed as they come.
ghost use Rattle.std.specs.Prelude.{◌≡◌};
ghost use Rattle.codec.specs.Reading.{record_of_bytes};
ghost use Rattle.history.specs.Replay.{records_in, Replayed};
ghost use Rattle.records.specs.Forms.{new_form};

use super::print;
use codec::RECORD_LENGTH;
use outcome::{OutOfRange, OutcomeResult};
use records::Record;

// The record in a part's bytes; the blank one, which opening and adding refuse by 3, where reading refuses them.
fn record_in(part: &[u8]) -> Record
    ensures { result ≡ record_of_bytes new_form part.now }
{
    let result = codec::read(part);
    result.found
}

pub(crate) fn replay(bytes: &[u8]) -> Result<OutcomeResult, OutOfRange>
    ensures { Replayed (records_in bytes.now) result }
{
    if bytes.len() < RECORD_LENGTH {
        return Err(OutOfRange);
    }
    let opened = subject::open_subject(record_in(&bytes[..RECORD_LENGTH]));
    print::opened(opened.answer);
    let mut subject = opened.subject;
    for part in bytes[RECORD_LENGTH..].chunks_exact(RECORD_LENGTH) {
        let addition = adding::added(subject, record_in(part));
        print::added(addition.answer);
        subject = addition.subject;
        let _between = outcome::read_outcome(subject);
    }
    outcome::read_outcome(subject)
}
