ghost use Rattle.std.specs.Prelude.{◌≡◌, ◌≤◌, length};
ghost use Rattle.line_scans.specs.Words.{marked_in, hits_of, first_hit, line_sixteens, space_eights};

const SEVENS: u64 = 0x7F7F_7F7F_7F7F_7F7F;

const HIGHS: u64 = 0x8080_8080_8080_8080;

const CRS: u64 = 0x0D0D_0D0D_0D0D_0D0D;

const LFS: u64 = 0x0A0A_0A0A_0A0A_0A0A;

const SPACES: u64 = 0x2020_2020_2020_2020;

// The high bit of every byte of x that is not 0. The sum stays within each byte, so that no carry runs into the next.
#[tactic(auto, unfolding(crate::specs::Words::each))]
fn marked(x: u64) -> u64
    ensures { result ≡ marked_in 8 x }
{
    ((x & SEVENS) + SEVENS) | x
}

// The high bit of every byte that is CR or LF, and no other bit.
#[tactic(auto, unfolding(crate::specs::Words::each))]
fn hits(w: u64) -> u64
    ensures { result ≡ hits_of 8 w }
{
    (marked(w ^ CRS) & marked(w ^ LFS) & HIGHS) ^ HIGHS
}

// How many of sixteen bytes stand before the first hit, given the hits of the lower eight and of the upper; 16 where
// there is none.
fn first_hit(low: u64, high: u64) -> usize
    ensures value { result ≡ first_hit low high }
    ensures at_most { result ≤ 16 }
{
    let n = (low.trailing_zeros() / 8) as usize;
    if n < 8 {
        n
    } else {
        8 + (high.trailing_zeros() / 8) as usize
    }
}

// How many bytes stand before the first CR or LF; where the whole sixteens have none, how many they are. The bytes
// after them are left for the caller to read one by one. Two words are tested at once, since a line is often long.
pub fn line_sixteens(s: &[u8]) -> usize
    ensures value { result ≡ line_sixteens s.now }
    ensures within { result ≤ length s.now }
{
    let (words, _) = s.as_chunks::<8>();
    let (pairs, _) = words.as_chunks::<2>();
    for (k, [lower, upper]) in pairs.iter().enumerate() {
        let low = hits(u64::from_le_bytes(*lower));
        let high = hits(u64::from_le_bytes(*upper));
        if low | high != 0 {
            return 16 * k + first_hit(low, high);
        }
    }
    s.len() / 16 * 16
}

// How many spaces s begins with, as far as the whole eights go: a byte that is no space is not 0 in the word that
// differs from spaces.
#[tactic(auto, unfolding(crate::specs::Words::each))]
pub fn space_eights(s: &[u8]) -> usize
    ensures value { result ≡ space_eights s.now }
    ensures within { result ≤ length s.now }
{
    let (words, _) = s.as_chunks::<8>();
    for (k, bytes) in words.iter().enumerate() {
        let others = u64::from_le_bytes(*bytes) ^ SPACES;
        if others != 0 {
            return 8 * k + (others.trailing_zeros() / 8) as usize;
        }
    }
    s.len() / 8 * 8
}
