// Reads an input whole into lent bytes, and bytes to lend.
#![tactic(auto)]

ghost use Rattle.std.specs.Prelude.{◌≡◌, ◌<◌, IfOk, length, take};
ghost use Rattle.std.specs.Io.{ReadsAtMost};
ghost use Rattle.std.specs.Io.KnownBytes.{Consumes, IsAtEnd};
ghost use Rattle.whole_input.specs.Zeros.{zeros};

use std::io;
use std::io::Read;

// As many zeros as the array's type says. The rule keeps a caller's goals from writing them out.
#[tactic(auto, unfolding(crate::specs::Zeros::zeros))]
pub fn zeros<const N: usize>() -> [u8; N]
    ensures value { result ≡ zeros N }
    ensures len { N ≡ length result }
{
    [0; N]
}

// Reads until the input ends, buf is full or a read fails. What was read is the front of buf, and where that is not all
// of it, the input has ended. A loop of its own, since `read_exact` fails where an input ends and `read_to_end` needs a
// heap.
pub fn read_full<R: Read>(input: &mut R, buf: &mut [u8]) -> io::Result<usize>
    ensures bound { ReadsAtMost result buf.new }
    ensures bytes { IfOk result (λ n. Consumes (R.remaining input.old) (R.remaining input.new) (take n buf.new)) }
    ensures end { IfOk result (λ n. n < length buf.new → IsAtEnd (R.remaining input.new)) }
{
    let mut len = 0;
    while len < buf.len() {
        let more = input.read(&mut buf[len..])?;
        if more == 0 {
            return Ok(len);
        }
        len += more;
    }
    Ok(len)
}
