// A record of the old form, 11 bytes with sizes in whole millimetres, read into one of the new form (document 02, request 1). With each size times ten the
// judge of the new form refuses the same records.
ghost use Rattle.codec.specs.OldReading.{ReadsOld};

use super::decode::{kind_in, raw_in};
use crate::{ReadRefusal, ReadResult, judged, refused};

pub const OLD_RECORD_LENGTH: usize = 11;

// As `read`, with a promise of its own; what the two share is in decode.rt.
pub fn read_old(s: &[u8]) -> ReadResult
    ensures { ReadsOld s.now result }
{
    let Some(bytes) = s.as_array::<OLD_RECORD_LENGTH>() else {
        return refused(ReadRefusal::WrongLength);
    };
    let Some(kind) = kind_in(bytes) else {
        return refused(ReadRefusal::NoSuchKind);
    };
    judged(raw_in(kind, bytes))
}
