// Trial of check and write against a search through all polynomials, for small codes over both kinds of field.
#![tactic(auto)]

use code::{check, write};
use field::{BinaryField, Field, FieldFault, PrimeField};
use plan::{Parameters, Plan};
use std::io;
use trial::{count, digits, is_word, made, numbers, word_of};

// The longest word that is tried.
const MOST: usize = 8;

// How many words or contents were tried, how many the search finds in the code, and for how many the two ways agree.
#[derive(Clone, Copy, Default)]
struct Tally {
    tried: u32,
    held: u32,
    equal: u32,
}

impl Tally {
    // Counts one more.
    fn add(&mut self, held: bool, equal: bool) {
        self.tried = self.tried.saturating_add(1);
        self.held = self.held.saturating_add(u32::from(held));
        self.equal = self.equal.saturating_add(u32::from(equal));
    }
}

// The first word of the code, by a search through all polynomials, that begins with these letters. The zeros after a word
// are letters.
fn searched<F: Field>(plan: &Plan, field: &F, letters: &[u16]) -> Option<[u16; MOST]> {
    (0..count(field.size(), plan.dimension()))
        .map(|number| {
            word_of(
                field,
                plan.support(),
                plan.multipliers(),
                plan.dimension(),
                number,
            )
        })
        .find(|word| word.starts_with(letters) && is_word(field, word))
}

// Tries all words of letters, by check and by search.
fn try_words<F: Field>(plan: &Plan, field: &F) -> Tally {
    let mut tally = Tally::default();
    let n = plan.n().min(MOST);
    for number in 0..count(field.letters(), n) {
        let word: [u16; MOST] = digits(number, field.letters());
        let word = &word[..n];
        let found = searched(plan, field, word).is_some();
        tally.add(found, check(plan, field, word) == Ok(found));
    }
    tally
}

// Tries all contents, by write and by search.
fn try_contents<F: Field>(plan: &Plan, field: &F) -> Tally {
    let mut tally = Tally::default();
    let dimension = plan.dimension().min(MOST);
    for number in 0..count(field.letters(), dimension) {
        let content: [u16; MOST] = digits(number, field.letters());
        let content = &content[..dimension];
        let mut place = [0u16; MOST];
        let written = write(plan, field, content, &mut place).ok().map(|()| place);
        tally.add(written.is_some(), searched(plan, field, content) == written);
    }
    tally
}

fn report(rt: &HostRuntime, name: &str, words: Tally, contents: Tally) -> io::Result<()> {
    println!(rt;
        "{name}: {} words, {} in the code, {} equal; {} contents, {} written, {} equal",
        words.tried, words.held, words.equal, contents.tried, contents.held, contents.equal
    )
}

// Tries the code of the plan that is asked for over the field.
fn try_code<F: Field + Drop>(
    rt: &HostRuntime,
    name: &str,
    field: Result<F, FieldFault>,
    asked: Parameters,
    support: &[u16],
    multipliers: &[u16],
) -> io::Result<()> {
    match made(field, asked, support, multipliers) {
        Ok((plan, field)) => {
            let words = try_words(&plan, &field);
            report(rt, name, words, try_contents(&plan, &field))
        }
        Err(refusal) => println!(rt; "{name}: {refusal}"),
    }
}

// Codes over prime fields.
fn primes(rt: &HostRuntime) -> io::Result<()> {
    try_code(
        rt,
        "prime 3, n = 3, t = 1",
        PrimeField::new(3),
        numbers(3, 3, 1, 0, 1, 2),
        &[2, 0, 1],
        &[1, 2, 2],
    )?;
    try_code(
        rt,
        "prime 5, n = 5, t = 3",
        PrimeField::new(5),
        numbers(5, 5, 3, 2, 1, 3),
        &[4, 2, 0, 3, 1],
        &[4, 3, 2, 1, 2],
    )?;
    try_code(
        rt,
        "prime 7, n = 4, t = 2",
        PrimeField::new(7),
        numbers(7, 4, 2, 1, 1, 2),
        &[6, 1, 3, 0],
        &[3, 1, 6, 2],
    )
}

// Codes over the binary field of four elements.
fn small_binaries(rt: &HostRuntime) -> io::Result<()> {
    try_code(
        rt,
        "binary 2, two letters, n = 4, t = 2",
        BinaryField::new(2, false),
        numbers(4, 4, 2, 1, 1, 2),
        &[0, 1, 2, 3],
        &[1, 1, 1, 1],
    )?;
    try_code(
        rt,
        "binary 2, all letters, n = 4, t = 2",
        BinaryField::new(2, true),
        numbers(4, 4, 2, 1, 1, 2),
        &[2, 0, 3, 1],
        &[3, 1, 2, 2],
    )
}

// Codes over larger binary fields.
fn larger_binaries(rt: &HostRuntime) -> io::Result<()> {
    try_code(
        rt,
        "binary 3, two letters, n = 6, t = 3",
        BinaryField::new(3, false),
        numbers(8, 6, 3, 1, 1, 2),
        &[5, 1, 7, 0, 2, 6],
        &[1, 2, 3, 4, 5, 6],
    )?;
    try_code(
        rt,
        "binary 3, all letters, n = 4, t = 2",
        BinaryField::new(3, true),
        numbers(8, 4, 2, 1, 1, 2),
        &[7, 1, 4, 2],
        &[6, 5, 1, 3],
    )?;
    try_code(
        rt,
        "binary 4, two letters, n = 7, t = 5",
        BinaryField::new(4, false),
        numbers(16, 7, 5, 2, 1, 2),
        &[9, 3, 0, 15, 6, 12, 1],
        &[1, 1, 1, 1, 1, 1, 1],
    )
}

fn main(rt: HostRuntime) -> io::Result<()> {
    primes(&rt)?;
    small_binaries(&rt)?;
    larger_binaries(&rt)
}
