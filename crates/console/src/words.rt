// Lists of words: what a listing answers, and how it is written.
ghost use Rattle.std.specs.Prelude.{◌≡◌, ◌*◌, ◌<◌, ◌≤◌, length, take, drop, Some};
ghost use Rattle.console.specs.Spaced.{lined, words_of};

use crate::word::Letters;
use std::fmt;

// So many words of n letters each, one after the other, and how many candidates were tested for them. A plan lists at most
// seven words, of at most 64 letters each. It shares no type with a word, which has neither a count nor a number tested.
#[derive(Clone, Copy, Debug)]
pub struct Words {
    list: [u16; 448],
    n: usize,
    count: usize,
    tested: usize,
    ghost tall: { length list ≡ 448 },
    ghost within: { count * n ≤ 448 },
}

impl Words {
    pub(crate) fn new(list: [u16; 448], n: usize, count: usize, tested: usize) -> Words
        requires { (count * n ≤ 448) × (length list ≡ 448) }
        ensures { (result.list ≡ list) × (result.n ≡ n) × (result.count ≡ count) × (result.tested ≡ tested) }
    {
        Words {
            list,
            n,
            count,
            tested,
        }
    }

    pub(crate) fn count(&self) -> usize
        ensures { result ≡ self.now.count }
    {
        self.count
    }

    pub(crate) fn tested(&self) -> usize
        ensures { result ≡ self.now.tested }
    {
        self.tested
    }

    // The letters of word i.
    fn word(&self, i: usize) -> &[u16]
        requires { i < self.now.count }
        ensures { result.now ≡ take self.now.n (drop (i * self.now.n) self.now.list) }
    {
        let start = i * self.n;
        let end = start + self.n;
        &self.list[start..end]
    }
}

// The words, each on a line of its own; the line before them is not ended yet.
impl fmt::Display for Words {
    ghost output = { λ x. Some (lined (words_of x.n x.count x.list)) };

    fn fmt<W: fmt::Write>(&self, f: &mut fmt::Formatter<W>) -> fmt::Result {
        // Each word by its number: chunks_exact may not be called with an n of 0, and this type does not rule that out.
        for i in 0..self.count {
            let letters = Letters {
                letters: self.word(i),
            };
            write!(f, "\nword{letters}")?;
        }
        Ok(())
    }
}
