// Text written into a lent buffer as far as it goes.
ghost use Rattle.std.specs.Prelude.{◌≡◌, ◌+◌, ◌≤◌, ◌<◌, ◌^◌, length};
ghost use Rattle.listing_text.specs.Text.{placed, decimal};

// What is written, and how much: what goes past the end of out is counted only.
#[derive(Drop)]
pub(crate) struct Text<'a> {
    pub(crate) out: &'a mut [u8],
    pub(crate) len: usize,
}

impl Text<'_> {
    #[tactic(auto, using(crate::proofs::Placing::placed_next, crate::proofs::Placing::placed_past), unfolding(crate::specs::Text::placed))]
    pub(crate) fn put(&mut self, s: &[u8])
        requires { self.old.len + length s.now < 2 ^ 64 }
        ensures same_reference { self.new.out.ghost_name ≡ self.old.out.ghost_name }
        ensures len { self.new.len ≡ self.old.len + length s.now }
        ensures out { self.new.out.now ≡ placed s.now self.old.len self.old.out.now }
    {
        for b in s {
            if self.len < self.out.len() {
                self.out[self.len] = *b;
            }
            self.len += 1;
        }
    }

    #[tactic(auto, using(crate::proofs::Decimals::fewest, crate::proofs::Decimals::at_most_20))]
    pub(crate) fn put_number(&mut self, n: usize)
        requires { self.old.len + 20 < 2 ^ 64 }
        ensures same_reference { self.new.out.ghost_name ≡ self.old.out.ghost_name }
        ensures len { self.new.len ≡ self.old.len + length (decimal n) }
        ensures upper_bound { self.new.len ≤ self.old.len + 20 }
        ensures out { self.new.out.now ≡ placed (decimal n) self.old.len self.old.out.now }
    {
        let mut digits = [0u8; 20];
        let k = io::decimal(n as u64, &mut digits);
        self.put(&digits[..k]);
    }
}
