// The recovery box and the no-go boxes (document 02, paper 8): two boxes of a sheet's value share a state or not, and the test that
// no no-go box shares one with the recovery box. The definitions are in sheet_spec/specs/Box and sheet_spec/specs/File.
ghost use Rattle.std.specs.Prelude.{◌≡◌, ◌+◌, ◌≤◌, ◌<◌, ◌&&◌};
ghost use Rattle.std.specs.Int.Signed.{le_z};
ghost use Rattle.sheet_spec.specs.Limits.{max_boxes};
ghost use Rattle.sheet_spec.specs.Slots.{◌!◌, N, box_size, slots, box_at};
ghost use Rattle.sheet_spec.specs.Box.{meets};
ghost use Rattle.sheet_spec.specs.Refusals.{refusal_of};
ghost use Rattle.sheet_spec.specs.File.{overlap_test};

use sheet_spec::Vars;
use sheet_spec::refusals::Refusal;
use sheet_spec::slots::*;

// The boxes at two slots share a state.
fn meet(v: &[i32; SLOTS], n: Vars, a: usize, b: usize) -> bool
    requires { (a + box_size ≤ slots) × (b + box_size ≤ slots) }
    ensures { result ≡ meets n (box_at v.now a) (box_at v.now b) }
{
    (0..n.count()).all(|i| v[a + i] <= v[b + i + N] && v[b + i] <= v[a + i + N])
}

// The recovery box shares no state with the first `count` no-go boxes.
pub fn bad_overlap(v: &[i32; SLOTS], n: Vars, count: usize) -> Result<(), Refusal>
    requires { count ≤ max_boxes }
    ensures { refusal_of result ≡ overlap_test n v.now count }
{
    if (0..count).any(|j| meet(v, n, RECOVERY, FIRST_UNSAFE + j * BOX_SIZE)) {
        return Err(Refusal::Overlap);
    }
    Ok(())
}
