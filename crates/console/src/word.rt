// Words: the letters that a command answers, and how they are written.
ghost use Rattle.std.specs.Prelude.{◌≡◌, ◌≤◌, List, length, take, Some};
ghost use Rattle.console.specs.Spaced.{spaced};

use std::fmt;

// A word of n letters. It is no ArrayVec, since an answer is Copy and an ArrayVec is not.
#[derive(Clone, Copy, Debug)]
pub struct Word {
    letters: [u16; 64],
    n: usize,
    ghost tall: { length letters ≡ 64 },
    ghost within: { n ≤ 64 },
}

impl Word {
    // The word in the first n places.
    pub(crate) fn new(letters: [u16; 64], n: usize) -> Word
        requires { (n ≤ 64) × (length letters ≡ 64) }
        ensures { (result.letters ≡ letters) × (result.n ≡ n) }
    {
        Word { letters, n }
    }

    pub fn letters(&self) -> &[u16]
        ensures { result.now ≡ take self.now.n self.now.letters }
    {
        &self.letters[..self.n]
    }
}

// The letters, each with a blank before it.
impl fmt::Display for Word {
    ghost output = { λ x. Some (spaced (take x.n x.letters)) };

    fn fmt<W: fmt::Write>(&self, f: &mut fmt::Formatter<W>) -> fmt::Result {
        let letters = Letters {
            letters: self.letters(),
        };
        write!(f, "{letters}")
    }
}

// The letters of a word, each with a blank before it.
#[derive(Clone, Copy)]
pub struct Letters<'a> {
    pub letters: &'a [u16],
}

impl<'a> fmt::Display for Letters<'a> {
    ghost output = { λ x. Some (spaced x.letters.now) };

    fn fmt<W: fmt::Write>(&self, f: &mut fmt::Formatter<W>) -> fmt::Result {
        for letter in self.letters {
            write!(f, " {letter}")?;
        }
        Ok(())
    }
}
