// Reading a text piece by piece.
ghost use Rattle.std.specs.Prelude.{◌≡◌, ◌-◌};
ghost use Rattle.unescape_pieces.specs.Pieces.{fault_at};
ghost use Rattle.unescape_pieces.specs.Cursor.{Shows, piece_bytes, Skips, slice_of};

use crate::cursor::{Bytes, Cursor};
use crate::fault::Fault;
use crate::pieces::{Piece, Spot, next_piece};
use text::Part;

// A fault of the bytes from `at` on, as one of the text.
fn placed(fault: Fault, at: usize) -> Fault
    requires { Shows (18446744073709551615 - at) fault }
    ensures { result ≡ fault_at at fault }
{
    match fault {
        Fault::InvalidEscape(p) => Fault::InvalidEscape(Part {
            start: at + p.start,
            end: at + p.end,
        }),
        other => other,
    }
}

// The bytes of a piece, `passed` being those that are passed with it.
#[tactic(auto, using(utf8::proofs::Encodings::encoded_bytes))]
fn bytes_of<'a>(piece: Piece, passed: &'a [u8]) -> Bytes<'a>
    requires { Skips piece passed.now }
    ensures { slice_of result ≡ piece_bytes piece passed.now }
{
    match piece {
        Piece::Run(skip) => Bytes::AsTheyStand(&passed[skip..]),
        Piece::Scalar(n) => Bytes::Encoded(utf8::encode(n)),
    }
}

impl<'a> Bytes<'a> {
    pub fn as_slice(&self) -> &[u8]
        ensures { result.now ≡ slice_of self.now }
    {
        match self {
            Bytes::AsTheyStand(s) => s,
            Bytes::Encoded(e) => &e.bytes[..e.len],
        }
    }
}

impl<'a> Iterator for Cursor<'a> {
    ghost use Rattle.std.specs.Iterator.{at_most};
    ghost use Rattle.unescape_pieces.specs.Cursor.{Comes, size};

    type Item = Result<Bytes<'a>, Fault>;

    ghost next_gives = { Comes };

    ghost remaining = { λ c. at_most (size c) };

    // The piece at the cursor, which moves behind it; None at the end of the text. A fault is the last that comes.
    fn next(&mut self) -> Option<Result<Bytes<'a>, Fault>> {
        let at = self.at;
        let text = self.text;
        let rest = &text[at..];
        let found = match next_piece(self.spot, self.indent, rest) {
            Ok(found) => found,
            Err(fault) => {
                self.at = text.len();
                self.spot = Spot::Break;
                return Some(Err(placed(fault, at)));
            }
        };
        let next = found?;
        let passed = &rest[..next.pass];
        self.at = at + next.pass;
        self.spot = next.spot;
        Some(Ok(bytes_of(next.piece, passed)))
    }
}
