// A sheet's format (document 01, "Sheet layout"): what a file says, its refusal number, the bytes of a value, as definitions; and
// what follows of them, as the length formula and that reading and writing undo each other. Beside them the names of slots,
// sizes and refusals and the types of a file's counts and records, which all code uses. `sheet` has the operations.
#![tactic(auto)]

ghost use Rattle.std.specs.Prelude.{◌≡◌, ◌≤◌, ℕ};
ghost use Rattle.sheet_spec.specs.Slots.{N};

pub mod limits;
pub mod refusals;
pub mod sizes;
pub mod slots;

use std::marker::Model;

// What a sheet's bands have for a plain law (document 02, paper 9): the whole safety range everywhere (`BD`), or a law that follows the
// state, clamped to the safety range (`BF`).
#[derive(Clone, Copy)]
pub enum BandKind {
    Fixed,
    Feedback,
}

// The counts that a file's records depend on, and the kind of its bands.
#[derive(Clone, Copy)]
pub struct Shape {
    pub vars: usize,
    pub bands: usize,
    pub boxes: usize,
    pub kind: BandKind,
}

// A record of a file: the head, band k of a kind, no-go box j, the recovery box.
#[derive(Clone, Copy)]
pub enum Record {
    Head,
    Band(BandKind, usize),
    Unsafe(usize),
    Recovery,
}

// How many variables there are: never more than there is room for. In clauses it is its number.
#[derive(Clone, Copy)]
pub struct Vars {
    pub count: usize,
}

impl Model for Vars {
    ghost Value = { ℕ };

    ghost view = { λ n. n.count };

    ghost inverse = { λ n. record { count = n } };

    ghost invariant = { λ n. n.count ≤ N };
}

impl Vars {
    pub fn count(self) -> usize
        ensures { (result ≡ self) × (result ≤ N) }
    {
        self.count
    }
}
