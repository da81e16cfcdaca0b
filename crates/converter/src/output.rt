// The records of an accepted old file, written in the new form one behind the other.
ghost use Rattle.std.specs.Prelude.{◌≡◌, ◌++◌, ◌+◌, ◌≤◌, length, take, drop};
ghost use Rattle.records.specs.Forms.{old_form};
ghost use Rattle.codec.specs.Bytes.{record_length};
ghost use Rattle.codec.specs.Reading.{refusal_of_bytes};
ghost use Rattle.codec.specs.Parts.{parts_of};
ghost use Rattle.converter.specs.Conversion.{converted_part, converted};
ghost use Rattle.converter.specs.Judging.{AllRead};

use codec::{OLD_RECORD_LENGTH, RECORD_LENGTH};

fn write_record(part: &[u8], out: &mut [u8], at: usize)
    requires { (refusal_of_bytes old_form part.now ≡ 0) × (at + record_length ≤ length out.old) }
    ensures { out.new ≡ take at out.old ++ (converted_part part.now ++ drop record_length (drop at out.old)) }
{
    let read = codec::read_old(part);
    // Nothing refuses a record that was accepted, and there is room.
    let _ = writing::write(read.found, &mut out[at..]);
}

pub(crate) fn write_records(old: &[u8], out: &mut [u8])
    requires { AllRead (parts_of old_form old.now) × (length (converted old.now) ≤ length out.old) }
    ensures { out.new ≡ converted old.now ++ drop (length (converted old.now)) out.old }
{
    for (k, part) in old.chunks_exact(OLD_RECORD_LENGTH).enumerate() {
        write_record(part, out, k * RECORD_LENGTH);
    }
}
