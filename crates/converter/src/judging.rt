// An old file judged, by its own lengths and limits.
ghost use Rattle.converter.specs.Judging.{JudgesOldFile};

use super::placing::{add_old, open_old};
use codec::OLD_RECORD_LENGTH;
use file::{FileRefusal, refused};
use outcome::OutcomeResult;

// A loop of its own beside `file::judge_file`, for the calls on old records; file/src/lib.rt says why.
pub(crate) fn judge_old(old: &[u8]) -> Result<OutcomeResult, FileRefusal>
    ensures { JudgesOldFile old.now result }
{
    if codec::bad_old_length(old.len()) {
        return refused(13, 0);
    }
    let mut subject = match open_old(&old[0..OLD_RECORD_LENGTH]) {
        Ok(opened) => opened,
        Err(number) => return refused(number, 0),
    };
    let later = &old[OLD_RECORD_LENGTH..];
    for (k, part) in later.chunks_exact(OLD_RECORD_LENGTH).enumerate() {
        subject = match add_old(subject, part) {
            Ok(next) => next,
            Err(number) => return refused(number, k + 1),
        };
    }
    file::end_file(subject, later.len() / OLD_RECORD_LENGTH)
}
