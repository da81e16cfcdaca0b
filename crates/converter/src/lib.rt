// A file of the old form, of 11-byte records with sizes in whole millimetres, turned into the new one, each size times ten (document 02, request 1). That
// the two are listed alike is proved here.
#![tactic(auto)]

ghost use Rattle.converter.specs.Conversion.{Converts};

use codec::{OLD_RECORD_LENGTH, RECORD_LENGTH};
use file::FileRefusal;

mod placing; // placing.rt: an old record opens a subject or is added to one
mod judging; // judging.rt: an old file judged
mod output; // output.rt: the records of an accepted file, written in the new form

// How many bytes were written. The whole file is judged before the first byte is stored.
pub fn convert(old: &[u8], out: &mut [u8]) -> Result<usize, FileRefusal>
    ensures { Converts old.now out.old result out.new }
{
    judging::judge_old(old)?;
    let size = old.len() / OLD_RECORD_LENGTH * RECORD_LENGTH;
    if out.len() < size {
        return Err(FileRefusal {
            number: 6,
            index: 0,
        });
    }
    output::write_records(old, out);
    Ok(size)
}
