// The rate at which each face of a box moves (document 01, "One lifted step"), over the rows of the sheet that `row` bounds and the commands
// that `commands` bounds. A
// machine is a `Plant` beside the sheet's value, which is lent; a box is lent too. The definitions are in
// machine_spec/specs/Machine and machine_spec/specs/Rate.
#![tactic(auto)]

pub mod commands;
pub mod rate;
pub mod row;

use machine_spec::Law;
use sheet_spec::BandKind;

// What is used of a sheet's numbers in every round, beside the law.
#[derive(Clone, Copy)]
pub struct Plant {
    pub n: usize,
    pub bands: usize,
    pub var: usize,
    pub kind: BandKind,
    pub law: Law,
}
