// The bytes of a record of either form (document 02, request 1). The forms differ in the number of bytes and in the width and the unit of a size.
ghost use Rattle.std.specs.Prelude.{◌≡◌, ℕ, List, length};
ghost use Rattle.codec.specs.FormsRead.{IsForm};
ghost use Rattle.records.specs.Forms.{Form, old_form, new_form};

use crate::{OLD_RECORD_LENGTH, RECORD_LENGTH};

pub(crate) trait RecordBytes {
    const LENGTH: u32;

    // The bits of a size.
    const SIZE_WIDTH: u32;

    // How many tenths of a millimetre a size counts.
    const TENTHS: u16;

    ghost LENGTH: { ℕ };

    ghost SIZE_WIDTH: { ℕ };

    ghost TENTHS: { ℕ };

    ghost form: { Form };

    ghost bytes: { Self → List ℕ };

    fn bytes(&self) -> &[u8]
        ensures same { result.now ≡ bytes self.now }
        ensures whole { length result.now ≡ form.record_length };

    ghost known: { IsForm form LENGTH SIZE_WIDTH TENTHS };
}

impl RecordBytes for [u8; OLD_RECORD_LENGTH] {
    const LENGTH: u32 = OLD_RECORD_LENGTH as u32;

    const SIZE_WIDTH: u32 = 10;

    const TENTHS: u16 = 10;

    ghost LENGTH = { 11 };

    ghost SIZE_WIDTH = { 10 };

    ghost TENTHS = { 10 };

    ghost form = { old_form };

    ghost bytes = { λ s. s };

    ghost known = { IsForm.old };

    fn bytes(&self) -> &[u8] {
        self
    }
}

impl RecordBytes for [u8; RECORD_LENGTH] {
    const LENGTH: u32 = RECORD_LENGTH as u32;

    const SIZE_WIDTH: u32 = 13;

    const TENTHS: u16 = 1;

    ghost LENGTH = { 13 };

    ghost SIZE_WIDTH = { 13 };

    ghost TENTHS = { 1 };

    ghost form = { new_form };

    ghost bytes = { λ s. s };

    ghost known = { IsForm.new };

    fn bytes(&self) -> &[u8] {
        self
    }
}
