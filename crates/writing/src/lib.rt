// A record as 13 bytes, written into any lent output (document 01, "Where a call stops", 3 to 6, and document 02, request 1). That reading and writing undo
// each other is proved here.
#![tactic(auto)]

ghost use Rattle.std.specs.Prelude.{◌≡◌};
ghost use Rattle.writing.specs.Writing.{Writes};
ghost use Rattle.writing.specs.declared.WriteRefusal.TheVariants as WriteRefusal;

use codec::RECORD_LENGTH;
use records::{OwnRefusal, Record};

mod encode; // encode.rt: a record that no refusal meets to bytes

#[derive(Clone, Copy)]
pub enum WriteRefusal {
    Own(OwnRefusal),
    ShortOutput,
}

impl From<OwnRefusal> for WriteRefusal {
    ghost from_gives = { λ own refusal. refusal ≡ WriteRefusal.Own own };

    fn from(own: OwnRefusal) -> WriteRefusal {
        WriteRefusal::Own(own)
    }
}

pub fn write(r: Record, out: &mut [u8]) -> Result<(), WriteRefusal>
    ensures { Writes r out.old result out.new }
{
    records::check(r)?;
    if out.len() < RECORD_LENGTH {
        return Err(WriteRefusal::ShortOutput);
    }
    let head = encode::head_number(r.entry);
    let high = encode::high_number(r.entry, r.marks, r.sizes);
    let low = encode::low_number(r.entry, r.marks, r.sizes);
    encode::store(head, high, low, out);
    Ok(())
}
