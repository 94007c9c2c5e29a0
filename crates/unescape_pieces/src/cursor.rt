// A text that is read piece by piece.
ghost use Rattle.std.specs.Prelude.{◌≤◌, length};

use crate::pieces::Spot;

// The bytes that a piece comes to: bytes of the text as they stand, or the encoding of a scalar value.
#[derive(Clone, Copy)]
pub enum Bytes<'a> {
    AsTheyStand(&'a [u8]),
    Encoded(utf8::Encoded),
}

// A place in a text that is read with an indentation, and what stands there.
#[derive(Clone, Copy)]
pub struct Cursor<'a> {
    pub text: &'a [u8],
    pub indent: &'a [u8],
    pub at: usize,
    pub spot: Spot,
    pub ghost within: { at ≤ length text.now },
}
