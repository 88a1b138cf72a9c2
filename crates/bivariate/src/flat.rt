// A polynomial as the start of a workspace, row after row.
ghost use Rattle.std.specs.Prelude.{◌≡◌, ◌+◌, ◌≤◌, ◌↔◌, length, take, IsTrue, IsOk};
ghost use Rattle.bivariate.specs.Flat.{cleared_of, pasted_of, rows_of, flat_of};

use crate::bounds::{Bounds, Polynomial, Row, WIDTH};

// How many numbers of the workspace are written.
pub const WRITTEN: usize = 32768;

// The workspace is shorter than what is written.
#[derive(Clone, Copy, Debug, PartialEq, Eq)]
pub struct NoRoom;

// Whether the workspace has room for what is written.
fn has_room(workspace: &[u16]) -> bool
    ensures { IsTrue result ↔ (32768 ≤ length workspace.now) }
{
    WRITTEN <= workspace.len()
}

// Writes 0 to the first numbers of the workspace.
#[tactic(auto, using(crate::proofs::Flattening::cleared_is))]
fn clear(workspace: &mut [u16], count: usize)
    requires { count ≤ length workspace.old }
    ensures { workspace.new ≡ cleared_of count workspace.old }
{
    workspace[..count].fill(0);
}

// Writes the first coefficients of the row over the part, as many as it has room for. Not by `copy_from_slice`, which
// compares the places of the two lists: where nobody reads the workspace, a compiler then still has to write it.
#[tactic(auto, using(crate::proofs::Flattening::copying_none, crate::proofs::Flattening::copying_more, crate::proofs::Flattening::copying_all))]
fn fill_from(part: &mut [u16], row: &Row)
    requires { length part.old ≤ 256 }
    ensures { part.new ≡ take (length part.old) row.now }
{
    for (i, number) in part.iter_mut().enumerate() {
        *number = row[i];
    }
}

// Writes the first width coefficients of the row to the workspace, from start on.
#[tactic(auto, using(crate::proofs::Flattening::pasted_is))]
fn copy_row(row: &Row, width: usize, workspace: &mut [u16], start: usize)
    requires fits { start + width ≤ length workspace.old }
    requires narrow { width ≤ 256 }
    ensures { workspace.new ≡ pasted_of start width row.now workspace.old }
{
    let end = start + width;
    fill_from(&mut workspace[start..end], row);
}

// Writes the first width coefficients of the first rows to the start of the workspace, row after row.
#[tactic(auto, using(crate::proofs::Flattening::copied_none, crate::proofs::Flattening::copied_more, crate::proofs::Flattening::copied_all, crate::proofs::Flattening::copied_fits))]
fn copy_rows(q: &Polynomial, count: usize, width: usize, workspace: &mut [u16])
    requires few { count ≤ 8 }
    requires narrow { width ≤ 256 }
    requires room { 2048 ≤ length workspace.old }
    ensures { workspace.new ≡ rows_of q.now count width workspace.old }
{
    for (c, row) in q[..count].iter().enumerate() {
        copy_row(row, width, workspace, c * width);
    }
}

// Writes the rows within the bounds to the workspace, bound numbers of each, and 0 as far as 32,768 numbers. A shorter
// workspace is refused and left as it is.
#[tactic(auto, using(crate::proofs::Flattening::flat_short, crate::proofs::Flattening::flat_done))]
pub fn flatten(q: &Polynomial, bounds: Bounds, workspace: &mut [u16]) -> Result<(), NoRoom>
    ensures answer { IsOk result ↔ (32768 ≤ length workspace.old) }
    ensures written { workspace.new ≡ flat_of q.now bounds.l bounds.bound workspace.old }
{
    if !has_room(workspace) {
        return Err(NoRoom);
    }
    clear(workspace, WRITTEN);
    copy_rows(q, bounds.rows(), bounds.bound.min(WIDTH), workspace);
    Ok(())
}
