// A plan of an alternant code: its numbers, its support and its multipliers, checked once.
// The facts that decoding leans on stand in the type, so no later layer has to test them again.
#![tactic(auto)]

ghost use Rattle.std.specs.Prelude.{◌≡◌, ℕ, ◌<◌, ◌≤◌, length, ◌≢◌, slice_index};
ghost use Rattle.plan.specs.Numbers.{Solvable};

mod asked;
mod checks;
mod derived;
mod make;
mod reads;

pub use asked::{Parameters, PlanFault};

// The longest word for which a plan has room.
pub const MAX_N: usize = 64;
// The size of the largest field.
pub const MAX_SIZE: usize = 256;
// The greatest multiplicity.
pub const MAX_K: usize = 4;
// The greatest width.
pub const MAX_L: usize = 8;

// The arrays hold n elements each, and zeros after them: no layer allocates, and each list is lent as
// one slice. The numbers of `Parameters` stand as fields of their own: a size that fits is a 16-bit number,
// as the fields have it, where the one that is asked for is any number.
#[derive(Clone, Copy)]
pub struct Plan {
    size: u16,
    n: usize,
    t: usize,
    w: usize,
    k: usize,
    l: usize,
    support: [u16; MAX_N],
    multipliers: [u16; MAX_N],
    ghost n_low: { 2 ≤ n },
    ghost n_high: { n ≤ 64 },
    ghost size_low: { 2 ≤ size },
    ghost size_high: { size ≤ 256 },
    ghost t_low: { 1 ≤ t },
    ghost t_high: { t < n },
    ghost w_high: { w < n },
    ghost k_low: { 1 ≤ k },
    ghost k_high: { k ≤ 4 },
    ghost l_low: { k < l },
    ghost l_high: { l ≤ 8 },
    ghost solvable: { Solvable n t w k l },
    ghost support_long: { length support ≡ 64 },
    ghost multipliers_long: { length multipliers ≡ 64 },
    ghost elements: { (i : ℕ) → i < n → slice_index support i < size },
    ghost distinct: { (i j : ℕ) → i < j → j < n → slice_index support i ≢ slice_index support j },
    ghost nonzero: { (i : ℕ) → i < n → 1 ≤ slice_index multipliers i },
    ghost scalars: { (i : ℕ) → i < n → slice_index multipliers i < size },
}
