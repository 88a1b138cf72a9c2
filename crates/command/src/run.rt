// Carrying out a line: its words name a command and write its numbers.
ghost use Rattle.std.specs.Prelude.{◌≡◌, codes};
ghost use Rattle.std.specs.List.{position};
ghost use Rattle.std.specs.Str.{bytes_eq};
ghost use Rattle.command.specs.Lines.{texts, Word, InField, Plan};
ghost use Rattle.command.specs.Runs.{Listed, Ran, RanAmong};

use console::{Answer, Console, Trouble};
use plan::Parameters;
use std::alloc::Global;

// The 16-bit numbers that the words write.
fn elements(heap: Global, words: &[&str]) -> Result<Vec<u16>, Trouble>
    ensures { Listed (texts words.now) result }
{
    let mut numbers = Vec::new(heap);
    for word in words {
        numbers.push(word.parse()?)?;
    }
    Ok(numbers)
}

// The place of the first word that is a slash.
fn slash(words: &[&str]) -> Option<usize>
    ensures { result ≡ position (λ w. bytes_eq w.now (codes "/")) words.now }
{
    words.iter().position(|word| *word == "/")
}

// Carries out a line that asks for a plan: six numbers, a slash, the support, a slash, the multipliers.
fn run_plan(console: &mut Console, heap: Global, words: &[&str]) -> Result<Answer, Trouble>
    requires { Word (texts words.now) 0 (codes "plan") }
    ensures { RanAmong (λ v. v ≡ Plan) (texts words.now) console.old result console.new }
{
    let [_, size, n, t, w, k, l, "/", lists @ ..] = words else {
        return Err(Trouble::Unknown);
    };
    let Some(slash) = slash(lists) else {
        return Err(Trouble::Unknown);
    };
    let asked = Parameters {
        size: size.parse()?,
        n: n.parse()?,
        t: t.parse()?,
        w: w.parse()?,
        k: k.parse()?,
        l: l.parse()?,
    };
    let support = elements(heap, &lists[..slash])?;
    let multipliers = elements(heap, &lists[slash + 1..])?;
    Ok(console.plan(asked, &support, &multipliers))
}

// Carries out a line that chooses a field or calculates in the one chosen.
fn run_in_field(console: &mut Console, words: &[&str]) -> Result<Answer, Trouble>
    ensures { RanAmong InField (texts words.now) console.old result console.new }
{
    match words {
        ["field", "prime", p] => Ok(console.choose_prime(p.parse()?)),
        ["field", "binary", m, "two"] => Ok(console.choose_binary(m.parse()?, false)),
        ["field", "binary", m, "all"] => Ok(console.choose_binary(m.parse()?, true)),
        ["sum", a, b] => console.sum(a.parse()?, b.parse()?),
        ["negative", a] => console.negative(a.parse()?),
        ["product", a, b] => console.product(a.parse()?, b.parse()?),
        ["inverse", a] => console.inverse(a.parse()?),
        _ => Err(Trouble::Unknown),
    }
}

// Carries out the line whose words these are.
#[tactic(auto, using(crate::proofs::Runs::ran_in_field))]
pub fn run_line(console: &mut Console, heap: Global, words: &[&str]) -> Result<Answer, Trouble>
    ensures { Ran (texts words.now) console.old result console.new }
{
    match words {
        ["plan", ..] => run_plan(console, heap, words),
        ["check", word @ ..] => console.check(&elements(heap, word)?),
        ["write", content @ ..] => console.write(&elements(heap, content)?),
        ["list", heard @ ..] => console.list(&elements(heap, heard)?),
        _ => run_in_field(console, words),
    }
}
