// The words of a list: a list holds words of n letters one after another.
ghost use Rattle.std.specs.Prelude.{◌≡◌, ◌+◌, ◌*◌, ◌≤◌, length, take, drop, IfOk};
ghost use Rattle.std.specs.Result.{result_err};
ghost use Rattle.fault.specs.First.{Judged};
ghost use Rattle.code.specs.Faults.{refusal_of, PickFails};

use crate::CodeFault;
use plan::MAX_N;

// Where word i begins in a list of some length. Whole words are counted by division, so that no
// place past the end of the list is ever computed.
#[tactic(auto, using(crate::proofs::Words::inside, crate::proofs::Words::outside))]
fn start_of(long: usize, n: usize, i: usize) -> Result<usize, CodeFault>
    ensures judged { Judged refusal_of (PickFails long n i) (result_err result) }
    ensures start { IfOk result (λ start. (start ≡ i * n) × (start + n ≤ long)) }
{
    if n < 2 || n > MAX_N {
        return Err(CodeFault::Shape);
    }
    if i >= long / n {
        return Err(CodeFault::Room);
    }
    Ok(i * n)
}

// The part of the list that holds word i.
pub fn pick(list: &[u16], n: usize, i: usize) -> Result<&[u16], CodeFault>
    ensures judged { Judged refusal_of (PickFails (length list.now) n i) (result_err result) }
    ensures part { IfOk result (λ word. word.now ≡ take n (drop (i * n) list.now)) }
{
    let start = start_of(list.len(), n, i)?;
    Ok(&list[start..start + n])
}
