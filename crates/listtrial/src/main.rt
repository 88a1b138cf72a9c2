// Trial of list against a search through all polynomials, for small codes over both kinds of field. The words of a code
// are made once and put in order here, so that neither the words nor their order come from what is tried.
#![tactic(auto)]

ghost use Rattle.std.specs.Prelude.{◌≤◌};

use code::{WORKSPACE, list};
use field::{BinaryField, Field, FieldFault, PrimeField};
use plan::{Parameters, Plan};
use std::alloc::Global;
use std::collections::BTreeSet;
use std::io;
use trial::{count, digits, is_word, made, numbers, word_of};

// The longest word that is tried. A shorter one is followed by zeros.
const MOST: usize = 12;
// Room for the longest list of such words, seven of them, and a word more.
const ROOM: usize = 96;
// What the list is filled with before: no field has so large a letter.
const MARK: u16 = 999;

// How many words were heard, for how many the two lists are equal, and how many words the longest list has.
#[derive(Clone, Copy, Default)]
struct Tally {
    heard: u32,
    equal: u32,
    longest: usize,
}

// All words of a code, by a search through all polynomials: the set has them in rising order and each once.
fn code_words<F: Field>(heap: Global, plan: &Plan, field: &F) -> io::Result<BTreeSet<[u16; MOST]>> {
    let mut words = BTreeSet::new(heap);
    let dimension = plan.dimension();
    for number in 0..count(field.size(), dimension) {
        let word = word_of(field, plan.support(), plan.multipliers(), dimension, number);
        if is_word(field, &word) {
            words.insert(word)?;
        }
    }
    Ok(words)
}

// The number of places where two words differ; the zeros after them do not.
fn distance(a: &[u16; MOST], b: &[u16; MOST]) -> usize {
    a.iter().zip(b).filter(|(x, y)| *x != *y).count()
}

// The words of the code that are near enough, one after the other in rising order.
fn searched(
    heap: Global,
    plan: &Plan,
    words: &BTreeSet<[u16; MOST]>,
    heard: &[u16; MOST],
) -> io::Result<Vec<u16>> {
    let n = plan.n().min(MOST);
    let mut near = Vec::new(heap);
    for word in words {
        if distance(word, heard) <= plan.w() {
            near.extend_from_slice(&word[..n])?;
        }
    }
    Ok(near)
}

// Whether list gives what is expected, and leaves what follows the words as it was.
fn is_listed<F: Field>(
    plan: &Plan,
    field: &F,
    heard: &[u16; MOST],
    expected: &[u16],
    workspace: &mut [u16; WORKSPACE],
) -> bool {
    let n = plan.n().min(MOST);
    let mut given = [MARK; ROOM];
    let listing = list(plan, field, &heard[..n], &mut given, workspace);
    let rest = &given[expected.len().min(ROOM)..];
    listing.is_ok_and(|listing| listing.words.checked_mul(n) == Some(expected.len()))
        && given.starts_with(expected)
        && rest.iter().all(|place| *place == MARK)
}

// Every so many words of letters, each by list and by search.
fn trial<F: Field>(heap: Global, plan: &Plan, field: &F, step: usize) -> io::Result<Tally>
    requires { 1 ≤ step }
{
    let words = code_words(heap, plan, field)?;
    let mut workspace = [0u16; WORKSPACE];
    let mut tally = Tally::default();
    for number in (0..count(field.letters(), plan.n())).step_by(step) {
        let heard = digits(number, field.letters());
        let expected = searched(heap, plan, &words, &heard)?;
        let equal = is_listed(plan, field, &heard, &expected, &mut workspace);
        tally.heard = tally.heard.saturating_add(1);
        tally.equal = tally.equal.saturating_add(u32::from(equal));
        tally.longest = tally.longest.max(expected.len() / plan.n());
    }
    Ok(tally)
}

fn report(rt: &HostRuntime, name: &str, asked: Parameters, tally: Tally) -> io::Result<()> {
    let Parameters { n, t, w, k, l, .. } = asked;
    let Tally {
        heard,
        equal,
        longest,
    } = tally;
    println!(rt;
        "{name} n {n} t {t} w {w} k {k} l {l}: heard {heard} equal {equal} longest {longest}"
    )
}

// Tries the code of the plan that is asked for over the field.
fn try_code<F: Field + Drop>(
    rt: &HostRuntime,
    name: &str,
    field: Result<F, FieldFault>,
    asked: Parameters,
    support: &[u16],
    multipliers: &[u16],
    step: usize,
) -> io::Result<()>
    requires { 1 ≤ step }
{
    match made(field, asked, support, multipliers) {
        Ok((plan, field)) => report(rt, name, asked, trial(rt.alloc(), &plan, &field, step)?),
        Err(refusal) => println!(rt; "{name}: {refusal}"),
    }
}

// Codes over prime fields, every word of letters heard.
fn small_primes(rt: &HostRuntime) -> io::Result<()> {
    try_code(
        rt,
        "prime 3",
        PrimeField::new(3),
        numbers(3, 3, 2, 2, 1, 4),
        &[2, 0, 1],
        &[1, 2, 2],
        1,
    )?;
    try_code(
        rt,
        "prime 5",
        PrimeField::new(5),
        numbers(5, 5, 3, 2, 1, 3),
        &[0, 1, 2, 3, 4],
        &[1, 1, 1, 1, 1],
        1,
    )?;
    try_code(
        rt,
        "prime 5",
        PrimeField::new(5),
        numbers(5, 5, 3, 2, 2, 4),
        &[4, 2, 0, 3, 1],
        &[4, 3, 2, 1, 2],
        1,
    )
}

// Codes over prime fields with too many words to hear them all.
fn larger_primes(rt: &HostRuntime) -> io::Result<()> {
    try_code(
        rt,
        "prime 7",
        PrimeField::new(7),
        numbers(7, 6, 4, 3, 2, 5),
        &[6, 1, 3, 0, 5, 2],
        &[3, 1, 6, 2, 4, 5],
        41,
    )?;
    try_code(
        rt,
        "prime 7",
        PrimeField::new(7),
        numbers(7, 7, 4, 3, 4, 8),
        &[0, 1, 2, 3, 4, 5, 6],
        &[1, 1, 1, 1, 1, 1, 1],
        251,
    )?;
    try_code(
        rt,
        "prime 11",
        PrimeField::new(11),
        numbers(11, 10, 7, 5, 3, 7),
        &[7, 2, 10, 0, 4, 9, 1, 6, 3, 8],
        &[5, 1, 8, 3, 10, 2, 7, 4, 9, 6],
        8645809,
    )?;
    try_code(
        rt,
        "prime 13",
        PrimeField::new(13),
        numbers(13, 12, 10, 7, 1, 4),
        &[3, 11, 6, 0, 12, 8, 1, 9, 5, 2, 10, 7],
        &[2, 7, 12, 1, 5, 9, 3, 11, 4, 8, 6, 10],
        7766028377,
    )
}

// Codes over binary fields in which every element is a letter.
fn all_letters(rt: &HostRuntime) -> io::Result<()> {
    try_code(
        rt,
        "binary 2 all",
        BinaryField::new(2, true),
        numbers(4, 4, 3, 3, 1, 5),
        &[2, 0, 3, 1],
        &[3, 1, 2, 2],
        1,
    )?;
    try_code(
        rt,
        "binary 3 all",
        BinaryField::new(3, true),
        numbers(8, 6, 4, 3, 3, 6),
        &[7, 1, 4, 2, 0, 5],
        &[6, 5, 1, 3, 2, 7],
        97,
    )?;
    try_code(
        rt,
        "binary 4 all",
        BinaryField::new(4, true),
        numbers(16, 8, 6, 4, 4, 7),
        &[9, 3, 0, 15, 6, 12, 1, 10],
        &[11, 4, 2, 10, 8, 13, 9, 1],
        1431683,
    )
}

// Codes of two letters in a larger field. Over the second one some polynomials are near enough and give no word of
// letters, so candidates have to be dropped.
fn two_letters(rt: &HostRuntime) -> io::Result<()> {
    try_code(
        rt,
        "binary 3 two",
        BinaryField::new(3, false),
        numbers(8, 8, 3, 2, 3, 5),
        &[5, 1, 7, 0, 2, 6, 4, 3],
        &[1, 1, 1, 1, 1, 1, 1, 1],
        1,
    )?;
    try_code(
        rt,
        "binary 3 two",
        BinaryField::new(3, false),
        numbers(8, 7, 5, 4, 3, 8),
        &[7, 6, 5, 0, 3, 2, 4],
        &[1, 3, 7, 5, 2, 4, 6],
        1,
    )?;
    try_code(
        rt,
        "binary 4 two",
        BinaryField::new(4, false),
        numbers(16, 9, 5, 3, 2, 4),
        &[14, 8, 12, 10, 15, 2, 5, 13, 11],
        &[12, 6, 10, 14, 3, 14, 6, 6, 3],
        1,
    )
}

fn main(rt: HostRuntime) -> io::Result<()> {
    small_primes(&rt)?;
    larger_primes(&rt)?;
    all_letters(&rt)?;
    two_letters(&rt)
}
