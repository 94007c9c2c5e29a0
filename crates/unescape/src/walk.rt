// The two walks over the pieces: one measures, one writes; token_text compares. One walk over closures would be no
// plainer than these loops of a few lines, each of which keeps something else: a length, a place, the bytes left.
ghost use Rattle.std.specs.Prelude.{◌≡◌, ◌++◌, ◌≤◌, length, drop};
ghost use Rattle.text.specs.Numbers.{max_document};
ghost use Rattle.unescape_pieces.specs.Cursor.{meaning_of};
ghost use Rattle.unescape.specs.Walk.{measured_of, WrittenFits, buffer_after};

use unescape_pieces::{Cursor, Fault};

// The length of what is written from a cursor on, or why nothing is.
pub(crate) fn measure(cursor: Cursor) -> Result<usize, Fault>
    requires { length cursor.text.now ≤ max_document }
    ensures { result ≡ measured_of (meaning_of cursor.entry) }
{
    let mut len = 0;
    for piece in cursor {
        let bytes = piece?;
        len += bytes.as_slice().len();
    }
    Ok(len)
}

// The bytes of s, put over the first ones of out. By `copy_from_slice` the library would need memmove, and it needs
// memcpy and memset alone; by `zip` over `iter_mut`, tried, the proof did not close.
#[tactic(auto, using(crate::proofs::Filling::copied))]
fn copy(s: &[u8], out: &mut [u8])
    requires { length s.now ≤ length out.old }
    ensures { out.new ≡ s.now ++ drop (length s.now) out.old }
{
    for i in 0..s.len() {
        out[i] = s[i];
    }
}

// The text from a cursor on, put over the first bytes of out.
pub(crate) fn write(cursor: Cursor, out: &mut [u8])
    requires { WrittenFits (meaning_of cursor) (length out.old) }
    ensures { out.new ≡ buffer_after (meaning_of cursor.entry) out.old }
{
    let mut len = 0;
    for piece in cursor {
        // Never so: what means nothing has no length that fits.
        let Ok(found) = piece else {
            return;
        };
        let bytes = found.as_slice();
        copy(bytes, &mut out[len..]);
        len += bytes.len();
    }
}
