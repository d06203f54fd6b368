//! A list of truth values of a fixed length, kept in words of 64 bits.
#![tactic(auto)]

ghost use Rattle.std.specs.Prelude.{◌≡◌, ◌<◌, true, false, IfOk, length, count_by, replicate, slice_index_or, slice_set};
ghost use Rattle.s2_bits.specs.Bits.{either_of, only_first, places_of};

use std::alloc::Global;
use std::marker::Model;

mod words;

/// Want of memory.
pub type Memory = std::alloc::AllocError;

/// A list of truth values. Its length is fixed when it is made.
#[derive(Debug, Drop)]
pub struct Bits {
    len: u32,
    words: Vec<u64>,
}

impl Model for Bits {
    ghost use Rattle.std.specs.Prelude.{List, Bool};
    ghost use Rattle.s2_bits.specs.Bits.{kept_by, Keeps};

    ghost Value = { List Bool };

    ghost view = { λ b. kept_by b.words.items b.len };

    ghost invariant = { λ b. Keeps b.words.items b.len };
}

impl Bits {
    /// A list of `n` values, all clear.
    pub fn new(alloc: Global, n: u32) -> Result<Bits, Memory>
        ensures { IfOk result (λ bits. bits ≡ replicate n false) }
    {
        let words = vec![in alloc; 0u64; n.div_ceil(64) as usize]?;
        Ok(Bits { len: n, words })
    }

    /// How many values there are.
    pub fn len(&self) -> u32
        ensures { result ≡ length self.now }
    {
        self.len
    }

    /// The value at place `i`.
    pub fn get(&self, i: u32) -> bool
        requires { i < length self.now }
        ensures { result ≡ slice_index_or self.now i false }
    {
        words::is_set(&self.words, i as usize)
    }

    /// Makes the value at place `i` true.
    pub fn set(&mut self, i: u32)
        requires { i < length self.old }
        ensures { self.new ≡ slice_set self.old i true }
    {
        words::set(&mut self.words, i as usize);
    }

    /// Makes true each value that is true in `other`, which has the same length.
    pub fn or(&mut self, other: &Bits)
        requires { length self.old ≡ length other.now }
        ensures { self.new ≡ either_of self.old other.now }
    {
        words::or(&mut self.words, &other.words);
    }

    /// Clears each value that is true in `other`, which has the same length.
    pub fn and_not(&mut self, other: &Bits)
        requires { length self.old ≡ length other.now }
        ensures { self.new ≡ only_first self.old other.now }
    {
        words::and_not(&mut self.words, &other.words);
    }

    /// How many values are true.
    pub fn count(&self) -> u32
        ensures { result ≡ count_by (λ b. b) self.now }
    {
        words::count(&self.words) as u32
    }

    /// The places of the true values, rising.
    pub fn ones(&self, alloc: Global) -> Result<Vec<u32>, Memory>
        ensures { IfOk result (λ places. places.items ≡ places_of self.now) }
    {
        let mut places = Vec::with_capacity(alloc, self.count() as usize)?;
        words::push_places(&self.words, &mut places)?;
        Ok(places)
    }
}

#[cfg(test)]
mod tests {
    use super::*;
    use std::test::Fail;

    fn set_all(bits: &mut Bits, places: &[u32]) {
        for i in places {
            if *i < bits.len() {
                bits.set(*i);
            }
        }
    }

    // Places on both sides of a word's end, in a list that ends within a word.
    #[test]
    fn sets_and_counts(rt: HostRuntime) -> Result<(), Fail> {
        let mut bits = Bits::new(rt.alloc(), 130)?;
        let mut others = Bits::new(rt.alloc(), 130)?;
        set_all(&mut bits, &[0, 63, 64, 129]);
        set_all(&mut others, &[63, 65]);
        assert_eq!(rt; others.len(), 130);
        assert_eq!(rt; bits.len(), 130);
        assert!(rt; bits.get(64));
        assert!(rt; !bits.get(65));
        assert_eq!(rt;
            bits.ones(rt.alloc())?.as_slice(),
            [0, 63, 64, 129].as_slice()
        );
        bits.or(&others);
        assert_eq!(rt; bits.count(), 5);
        assert_eq!(rt; bits.len(), 130);
        bits.and_not(&others);
        assert_eq!(rt; bits.ones(rt.alloc())?.as_slice(), [0, 64, 129].as_slice());
        Ok(())
    }
}
