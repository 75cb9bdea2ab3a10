// How numbers, marks and records are written in a file (document 01, "Sheet layout"): `bytes` reads and writes a number of each width
// and sign, big-endian, `marks` knows each record's two letters, and `records` which record is where and how long it is. The
// definitions are in sheet_spec/specs/Fields and sheet_spec/specs/File.
#![tactic(auto)]

ghost use Rattle.std.specs.Prelude.{◌≡◌, ◌<◌, ◌≤◌, pos, nat_abs, ◌≤ℤ◌};
ghost use Rattle.sheet_spec.specs.Slots.{◌!◌, N, slots, vars, vars_slot};

pub mod bytes;
pub mod marks;
pub mod places;
pub mod records;

use sheet_spec::Vars;
use sheet_spec::slots::{SLOTS, VARS};

// The number at a slot, if it is not negative.
pub fn count(v: &[i32; SLOTS], slot: usize) -> usize
    requires { (slot < slots) × (pos 0 ≤ℤ v.now ! slot) }
    ensures { result ≡ nat_abs (v.now ! slot) }
{
    let x = v[slot];
    x as usize
}

// The number of variables of a sheet whose head is in range.
pub fn vars(v: &[i32; SLOTS]) -> Vars
    requires { (pos 0 ≤ℤ v.now ! vars_slot) × (vars v.now ≤ N) }
    ensures { result ≡ vars v.now }
{
    Vars {
        count: count(v, VARS),
    }
}
