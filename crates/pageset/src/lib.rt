// A set of page numbers below 4,096: an array of words, a bit for each page.
#![tactic(auto)]

ghost use Rattle.std.specs.Prelude.{◌≡◌, ℕ, ◌<◌, ◌≤◌, false, not, ◌&&◌, ◌||◌, T, ◌==◌, nat_lt};
ghost use Rattle.pageset.specs.Member.{member};
ghost use Rattle.pageset.specs.Count.{count};

#[derive(Clone, Copy)]
pub struct PageSet {
    words: [u64; 64],
}

impl PageSet {
    pub fn none() -> PageSet
        ensures { (q : ℕ) → member result q ≡ false }
    {
        PageSet { words: [0; 64] }
    }

    // All pages below n.
    pub fn below(n: u32) -> PageSet
        requires { n ≤ 4096 }
        ensures { (q : ℕ) → member result q ≡ nat_lt q n }
    {
        let mut s = PageSet::none();
        for p in 0..n {
            s.insert(p);
        }
        s
    }

    // A page number of 4,096 or more is never in the set.
    #[tactic(auto, using(crate::proofs::Bits::held, crate::proofs::Bits::past))]
    pub fn has(&self, p: u32) -> bool
        ensures is { result ≡ member self.now p }
        ensures low { T result → p < 4096 }
    {
        p < 4096 && self.words[(p / 64) as usize] >> (p % 64) & 1 == 1
    }

    #[tactic(auto, using(crate::proofs::Bits::inserted))]
    pub fn insert(&mut self, p: u32)
        requires { p < 4096 }
        ensures { (q : ℕ) → member self.new q ≡ (q == p || member self.old q) }
    {
        self.words[(p / 64) as usize] |= 1 << (p % 64);
    }

    #[tactic(auto, using(crate::proofs::Bits::removed, crate::proofs::Bits::past))]
    pub fn remove(&mut self, p: u32)
        ensures { (q : ℕ) → member self.new q ≡ (not (q == p) && member self.old q) }
    {
        if p < 4096 {
            self.words[(p / 64) as usize] &= !(1 << (p % 64));
        }
    }

    // How many pages are in the set.
    #[tactic(auto, using(crate::proofs::Bits::ones_count))]
    pub fn len(&self) -> u32
        ensures { result ≡ count (member self.now) 4096 }
    {
        self.words.iter().map(|word| word.count_ones()).sum()
    }
}

#[cfg(test)]
mod tests {
    use super::*;

    #[test]
    fn comes_and_goes(rt: HostRuntime) {
        let mut s = PageSet::below(70);
        assert_eq!(rt; s.len(), 70);
        s.insert(4095);
        s.insert(3);
        s.remove(64);
        s.remove(80);
        assert_eq!(rt; s.len(), 70);
        assert!(rt; s.has(69) && s.has(63) && s.has(65) && s.has(4095));
        assert!(rt; !s.has(64) && !s.has(70) && !s.has(4096));
        assert_eq!(rt; PageSet::none().len(), 0);
        assert_eq!(rt; PageSet::below(4096).len(), 4096);
    }
}
