ghost use Rattle.std.specs.Prelude.{◌≡◌, ℕ, ◌+◌, ◌^◌, ◌<◌, ◌≤◌, Bool, min, length};
ghost use Rattle.text_scans.specs.Eights.{Computes, eight, passing, eights, ascii_at, same_at};

// Whether the eight places from i on pass the test.
fn eight<F: Fn(usize) -> bool>(test: &F, i: usize) -> bool
    requires in_bounds { i + 8 < 2 ^ 64 }
    requires callable { (j : ℕ) → j < i + 8 → F.pre test.now j }
    ensures { (t : ℕ → Bool) → Computes (F.post test.now) (i + 8) t → result ≡ eight t i }
{
    test(i)
        & test(i + 1)
        & test(i + 2)
        & test(i + 3)
        & test(i + 4)
        & test(i + 5)
        & test(i + 6)
        & test(i + 7)
}

// How many of the first n places pass the test before one fails, in whole eights. By places, since `same_len` reads two
// texts at each. A loop, since the test is known at these places alone: the library's law of `take_while` wants it known
// at every number.
fn eights<F: Fn(usize) -> bool>(test: &F, n: usize) -> usize
    requires callable { (i : ℕ) → i < n → F.pre test.now i }
    ensures value { (t : ℕ → Bool) → Computes (F.post test.now) n t → result ≡ eights t n }
    ensures within { result ≤ n }
{
    for k in 0..n / 8 {
        if !eight(test, 8 * k) {
            return 8 * k;
        }
    }
    n / 8 * 8
}

// The same, the last ones one by one.
fn passing<F: Fn(usize) -> bool>(test: F, n: usize) -> usize
    requires callable { (i : ℕ) → i < n → F.pre test i }
    ensures value { (t : ℕ → Bool) → Computes (F.post test) n t → result ≡ passing t n }
    ensures within { result ≤ n }
{
    for i in eights(&test, n)..n {
        if !test(i) {
            return i;
        }
    }
    n
}

// How many bytes below 80 s begins with.
pub fn ascii_len(s: &[u8]) -> usize
    ensures value { result ≡ passing (ascii_at s.now) (length s.now) }
    ensures within { result ≤ length s.now }
{
    passing(|i| s[i] < 0x80, s.len())
}

// How many bytes s and p begin with in common.
pub fn same_len(s: &[u8], p: &[u8]) -> usize
    ensures value { result ≡ passing (same_at s.now p.now) (min (length s.now) (length p.now)) }
    ensures within_s { result ≤ length s.now }
    ensures within_p { result ≤ length p.now }
{
    passing(|i| s[i] == p[i], s.len().min(p.len()))
}
