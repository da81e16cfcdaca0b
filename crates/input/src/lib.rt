// What standard input holds, to its end or past the longest file (document 01, "Change in size, file and listing"). The programs `list`, `convert`,
// `refusals` and `conversions` read by it.
#![tactic(auto)]

ghost use Rattle.std.specs.Prelude.{◌≡◌, ◌+◌, ◌≤◌, length};
ghost use Rattle.std.proofs.Math.Seq.{paste};
ghost use Rattle.input.specs.Received.{Received};

use std::io::Read;

// Why reading ended.
#[derive(Clone, Copy, Debug, PartialEq, Eq)]
pub enum End {
    // A read failed.
    Failed,
    EndOfInput,
    // There are more bytes than a file may have.
    PastLongest,
}

#[derive(Clone, Copy)]
pub struct Input {
    pub end: End,
    // How many bytes were read.
    pub count: usize,
}

fn store(chunk: &[u8], n: usize, bytes: &mut [u8], at: usize)
    requires { (n ≤ length chunk.now) × (at + n ≤ length bytes.old) }
    ensures { bytes.new ≡ paste bytes.old at chunk.now n }
{
    bytes[at..at + n].copy_from_slice(&chunk[..n]);
}

// By chunks, since a read into a part of a lent slice is not covered by the kit's proofs. There is room for 52,000 bytes and a chunk of 4,096.
fn read_into<R: Read>(reader: &mut R, bytes: &mut [u8]) -> Input
    requires { length bytes.old ≡ 65536 }
    ensures { Received bytes.old result bytes.new }
{
    let mut chunk = [0; 4096];
    let mut count: usize = 0;
    // One byte more than a file may have is enough to refuse it. A `while`, since it counts bytes and not turns.
    while count <= codec::MOST_BYTES {
        let n = match reader.read(&mut chunk) {
            Ok(n) => n,
            Err(_) => {
                return Input {
                    end: End::Failed,
                    count,
                };
            }
        };
        if n == 0 {
            return Input {
                end: End::EndOfInput,
                count,
            };
        }
        store(&chunk, n, bytes, count);
        count += n;
    }
    Input {
        end: End::PastLongest,
        count,
    }
}

// Of the reader, as standard input. An endless input ends too, and a read that fails is no end of input.
pub fn read_input<R: Read>(reader: &mut R, bytes: &mut [u8; 65536]) -> Input
    ensures { Received bytes.old result bytes.new }
{
    read_into(reader, bytes)
}

#[cfg(test)]
mod tests {
    use super::*;
    use std::io::ErrorKind;

    // Some whole chunks of one byte value, and then a failure or the end.
    #[derive(Drop)]
    struct Chunks {
        left: usize,
        fails: bool,
    }

    impl Read for Chunks {
        fn read(&mut self, buf: &mut [u8]) -> std::io::Result<usize> {
            if self.left == 0 {
                if self.fails {
                    return Err(std::io::Error::from(ErrorKind::Other));
                }
                return Ok(0);
            }
            self.left -= 1;
            buf.fill(7);
            Ok(buf.len())
        }
    }

    // The number of chunks, whether a failure is behind them, and what is answered. A 13th chunk brings more bytes than a file may have.
    #[test]
    fn a_failed_read_is_no_end_of_input(rt: HostRuntime) {
        for (left, fails, end, count) in [
            (0, true, End::Failed, 0),
            (0, false, End::EndOfInput, 0),
            (2, true, End::Failed, 8192),
            (2, false, End::EndOfInput, 8192),
            (12, true, End::Failed, 49152),
            (13, true, End::PastLongest, 53248),
        ] {
            let mut bytes = [0; 65536];
            let read = read_input(&mut Chunks { left, fails }, &mut bytes);
            assert_eq!(rt; read.end, end, "after {left} chunks");
            assert_eq!(rt; read.count, count, "after {left} chunks");
            let last = count.saturating_sub(1);
            assert_eq!(rt;
                bytes[last],
                if count == 0 { 0 } else { 7 },
                "after {left} chunks"
            );
            assert_eq!(rt; bytes[count], 0, "after {left} chunks");
        }
    }
}
