ghost use Rattle.std.specs.Prelude.{◌≡◌, ◌≤◌, ◌+◌, ◌%◌, ◌/◌, length};
ghost use Rattle.utf8.specs.Scalar.{is_scalar, encoding_of, padded};

// The bytes that encode a scalar value, zeros after them, and how many they are: none for any other number, so that
// encode asks nothing of its caller. A buffer with its length: memory is fixed, and no slice of a local array can
// leave.
#[derive(Clone, Copy, Debug, PartialEq, Eq)]
pub struct Encoded {
    pub bytes: [u8; 4],
    pub len: usize,
    pub ghost within: { len ≤ 4 },
}

// Whether n is a scalar value: not D800 to DFFF, and at most 10FFFF.
#[tactic(auto, unfolding(crate::specs::Scalar::is_scalar))]
pub fn is_scalar(n: u32) -> bool
    ensures { result ≡ is_scalar n }
{
    n < 0xD800 || (0xDFFF < n && n <= 0x10FFFF)
}

// The byte 80 to BF that carries the lowest six bits of n.
fn trail(n: u32) -> u8
    ensures { result ≡ 0x80 + n % 64 }
{
    0x80 + (n % 64) as u8
}

#[tactic(auto, unfolding(crate::specs::Scalar::encoding_of, crate::specs::Scalar::encoding), using(crate::proofs::Scalars::scalar_le))]
pub fn encode(n: u32) -> Encoded
    ensures bytes { result.bytes ≡ padded (encoding_of n) }
    ensures len { result.len ≡ length (encoding_of n) }
{
    if !is_scalar(n) {
        return Encoded {
            bytes: [0, 0, 0, 0],
            len: 0,
        };
    }
    if n < 0x80 {
        return Encoded {
            bytes: [n as u8, 0, 0, 0],
            len: 1,
        };
    }
    if n < 0x800 {
        return Encoded {
            bytes: [0xC0 + (n / 64) as u8, trail(n), 0, 0],
            len: 2,
        };
    }
    if n < 0x10000 {
        return Encoded {
            bytes: [0xE0 + (n / 4096) as u8, trail(n / 64), trail(n), 0],
            len: 3,
        };
    }
    Encoded {
        bytes: [
            0xF0 + (n / 262144) as u8,
            trail(n / 4096),
            trail(n / 64),
            trail(n),
        ],
        len: 4,
    }
}
