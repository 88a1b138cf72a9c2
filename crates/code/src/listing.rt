// Listing: every word of the code within the plan's errors of the word heard. The words come from the roots in y of an
// interpolation polynomial of the word heard; that no root is missing is why the list is whole.
ghost use Rattle.std.specs.Prelude.{◌≡◌, ◌*◌, ◌≤◌, ◌++◌, map, length, take, drop, None, MatchResult};
ghost use Rattle.std.specs.Ordering.{is_lt, nat_cmp};
ghost use Rattle.std.specs.Result.{result_err};
ghost use Rattle.std.specs.List.Sorted.{IsPermutation, IsSortedWithin};
ghost use Rattle.std.specs.Cmp.Lexicographic.{slice_cmp};
ghost use Rattle.arrayvec.specs.ArrayVec.{array_vec_len};
ghost use Rattle.fault.specs.First.{First, Judged};
ghost use Rattle.code.specs.Faults.{refusal_of, ListFails, space_fault};
ghost use Rattle.code.specs.Listing.{joined, Decoded};

use crate::CodeFault;
use crate::plan_code::PlanCode;
use bivariate::{WRITTEN, flatten};
use field::Field;
use plan::Plan;
use roots::{Roots, roots};

// How many words were listed, and how many candidates were tested: the roots of the interpolation polynomial.
#[derive(Clone, Copy, Debug, PartialEq, Eq)]
pub struct Listing {
    pub words: usize,
    pub tested: usize,
}

// How many numbers of a workspace a listing wants.
pub const WORKSPACE: usize = WRITTEN;

// Room for the list is wanted before room to work in.
fn judge_space(room: usize, wanted: usize, workspace: usize) -> Result<(), CodeFault>
    ensures { result_err result ≡ space_fault room wanted workspace }
{
    if room < wanted {
        return Err(CodeFault::Room);
    }
    if workspace < WORKSPACE {
        return Err(CodeFault::Workspace);
    }
    Ok(())
}

// The words in rising order.
fn sort(words: &mut Roots)
    ensures shuffled { IsPermutation words.old.items words.new.items }
    ensures rising { IsSortedWithin (λ x y. is_lt (slice_cmp nat_cmp x y)) words.new.items 0 (array_vec_len words.new) }
{
    words.as_mut_slice().sort_unstable();
}

// Writes the first n letters of each word to the list, one word after the other.
#[tactic(auto, using(crate::proofs::Joining::putting_none, crate::proofs::Joining::putting_more, crate::proofs::Joining::putting_all, crate::proofs::Joining::putting_fits))]
fn put_words(list: &mut [u16], words: &Roots, n: usize)
    requires short { n ≤ 64 }
    requires fits { array_vec_len words.now * n ≤ length list.old }
    ensures { list.new ≡ joined (map (take n) words.now.items) ++ drop (array_vec_len words.now * n) list.old }
{
    // By index: a zip of chunks_exact_mut wants n above 0, and of a zip over what is written the proof learns no element.
    for (i, word) in words.as_slice().iter().enumerate() {
        let start = i * n;
        let end = start + n;
        list[start..end].copy_from_slice(&word[..n]);
    }
}

impl<'a, F: Field> PlanCode<'a, F> {
    // Refuses what a listing refuses and nothing else.
    fn judge(&self, heard: &[u16], room: usize, workspace: usize) -> Result<(), CodeFault>
        ensures { Judged refusal_of (ListFails self.now.plan.now (F.meaning self.now.field.now) heard.now room workspace) (result_err result) }
    {
        self.read(heard, self.plan.n())?;
        judge_space(room, self.plan.list_length(), workspace)
    }

    // Lists the words, where nothing is refused. The workspace's room is judged before anything is worked out, and again by
    // `flatten`, which promises a refusal to any caller.
    fn decode(
        &self,
        heard: &[u16],
        list: &mut [u16],
        workspace: &mut [u16],
    ) -> Result<Listing, CodeFault>
        requires { First refusal_of (ListFails self.now.plan.now (F.meaning self.now.field.now) heard.now (length list.old) (length workspace.old)) None }
        ensures { MatchResult result (λ a. Decoded self.now.plan.now (F.meaning self.now.field.now) heard.now list.old list.new workspace.old workspace.new a.words a.tested) (λ _. ⊥) }
    {
        let bounds = self.bounds();
        let q = self.interpolation(heard);
        flatten(&q, bounds, workspace)?;
        let candidates = roots(self.field, &q, bounds);
        let mut kept = self.near_words(heard, &candidates);
        sort(&mut kept);
        put_words(list, &kept, self.plan.n());
        Ok(Listing {
            words: kept.len(),
            tested: candidates.len(),
        })
    }

    fn list(
        &self,
        heard: &[u16],
        list: &mut [u16],
        workspace: &mut [u16],
    ) -> Result<Listing, CodeFault>
        ensures judged { Judged refusal_of (ListFails self.now.plan.now (F.meaning self.now.field.now) heard.now (length list.old) (length workspace.old)) (result_err result) }
        ensures listed { MatchResult result (λ a. Decoded self.now.plan.now (F.meaning self.now.field.now) heard.now list.old list.new workspace.old workspace.new a.words a.tested) (λ _. (list.new ≡ list.old) × (workspace.new ≡ workspace.old)) }
    {
        self.judge(heard, list.len(), workspace.len())?;
        self.decode(heard, list, workspace)
    }
}

// Refuses what a listing refuses and nothing else, and writes nothing: for callers that must know it first.
pub fn ready<F: Field>(
    plan: &Plan,
    field: &F,
    heard: &[u16],
    list: &[u16],
    workspace: &[u16],
) -> Result<(), CodeFault>
    ensures { Judged refusal_of (ListFails plan.now (F.meaning field.now) heard.now (length list.now) (length workspace.now)) (result_err result) }
{
    PlanCode::new(plan, field)?.judge(heard, list.len(), workspace.len())
}

// Lists every word of the code within the plan's errors of the word heard, in rising order. The workspace is left with the
// interpolation polynomial Q. Which Q it is stays open: only what the promise says of it can be relied on.
pub fn list<F: Field>(
    plan: &Plan,
    field: &F,
    heard: &[u16],
    list: &mut [u16],
    workspace: &mut [u16],
) -> Result<Listing, CodeFault>
    ensures judged { Judged refusal_of (ListFails plan.now (F.meaning field.now) heard.now (length list.old) (length workspace.old)) (result_err result) }
    ensures listed { MatchResult result (λ a. Decoded plan.now (F.meaning field.now) heard.now list.old list.new workspace.old workspace.new a.words a.tested) (λ _. (list.new ≡ list.old) × (workspace.new ≡ workspace.old)) }
{
    PlanCode::new(plan, field)?.list(heard, list, workspace)
}
