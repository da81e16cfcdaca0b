// Text on standard output and standard error by the numbers of these files, for functions that take no handle.
#![tactic(auto)]

use std::fmt;

pub const STANDARD_OUTPUT: i32 = 1;

pub const STANDARD_ERROR: i32 = 2;

// The file of this number. Each piece of a text is written by itself; where that fails, what is left of it is left out, and the next piece is tried.
#[derive(Clone, Copy)]
pub struct Output(pub i32);

impl fmt::Write for Output {
    fn write_str(&mut self, text: &str) -> fmt::Result {
        io::write_all(self.0, text.as_bytes());
        Ok(())
    }
}
