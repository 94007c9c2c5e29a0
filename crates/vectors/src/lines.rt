// The lines of the stored answers: a tag, a space, `x` and the text's bytes in lower-case hexadecimal, then the
// answer's numbers in decimal, each behind a space.
ghost use Rattle.std.specs.Prelude.{◌<◌, IfSome};

// The value of a hexadecimal digit.
fn digit(b: u8) -> Option<u8>
    ensures { IfSome result (λ d. d < 16) }
{
    match b {
        b'0'..=b'9' => Some(b - b'0'),
        b'a'..=b'f' => Some(b - b'a' + 10),
        _ => None,
    }
}

// The bytes that stand in hexadecimal, put into `room`.
pub fn text_in<'a>(hex: &[u8], room: &'a mut [u8; 256]) -> Option<&'a [u8]> {
    let (pairs, rest) = hex.as_chunks::<2>();
    if !rest.is_empty() {
        return None;
    }
    for (byte, [high, low]) in room.iter_mut().zip(pairs) {
        *byte = digit(*high)? * 16 + digit(*low)?;
    }
    room.get(..pairs.len())
}

// A line, and what is left of its numbers, each of which stands behind one byte. Where none is left, or one has over
// nine digits, the next is read from the line's start on (docs/DECISIONS.md, 'Beside the Rust').
#[derive(Clone, Copy)]
pub struct Numbers<'a> {
    pub line: &'a [u8],
    pub rest: &'a [u8],
}

impl<'a> Numbers<'a> {
    // The next number: 0 where none is left, and the first nine digits of a longer one.
    pub fn next(&mut self) -> usize {
        let mut value: usize = 0;
        let left = self.rest;
        self.rest = self.line;
        let Some((_, behind)) = left.split_first() else {
            return value;
        };
        let len = behind.iter().take_while(|b| b.is_ascii_digit()).count();
        let Some((digits, rest)) = behind.split_at_checked(len) else {
            return value;
        };
        for b in digits {
            if 99_999_999 < value {
                return value;
            }
            value = value * 10 + usize::from(b.wrapping_sub(b'0'));
        }
        self.rest = rest;
        value
    }

    // Whether these come next, one that can't be read as `next` has it.
    fn come<T: Into<usize> + Copy>(&mut self, wanted: &[T]) -> bool {
        wanted.iter().all(|n| self.next() == (*n).into())
    }

    // Whether the next are these, the last of which can be read.
    pub fn are<T: Into<usize> + Copy>(&mut self, wanted: &[T]) -> bool {
        self.come(wanted) && self.rest.len() != self.line.len()
    }

    // Whether they are these and no more.
    pub fn are_all<T: Into<usize> + Copy>(mut self, wanted: &[T]) -> bool {
        self.come(wanted) && self.rest.is_empty()
    }

    // The bytes that stand as numbers, their count first, put into `room`; none where one is no byte, or there are too
    // many, and the next number is then read from the line's start on.
    pub fn bytes<'r>(&mut self, room: &'r mut [u8; 256]) -> &'r [u8] {
        let len = self.next();
        if !self.fill(len, room) {
            self.rest = self.line;
            return &room[..0];
        }
        room.get(..len).unwrap_or(&[])
    }

    fn fill(&mut self, len: usize, room: &mut [u8; 256]) -> bool {
        let Some(to) = room.get_mut(..len) else {
            return false;
        };
        for byte in to.iter_mut() {
            let Ok(n) = u8::try_from(self.next()) else {
                return false;
            };
            *byte = n;
        }
        true
    }
}

// The part of the text that an answer of this first word names; of another one, an empty part.
pub fn named_part<'a>(s: &'a [u8], answer: [usize; 5], first: usize) -> Option<&'a [u8]> {
    let [kind, _, _, start, end] = answer;
    if kind == first {
        s.get(start..end)
    } else {
        Some(&s[..0])
    }
}
