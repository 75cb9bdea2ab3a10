// Boxes of states: 2N numbers, variable i's lower side at i, its upper side at i + N, and 0 at places that no variable has.
// `compare` takes and compares them, `motion` lets them grow and move by their rates. The definitions are in
// machine_spec/specs/Box. The number of variables is a usize here and not a `Vars`: it comes from a `Plant`, and what holds a `Vars` is not covered yet
// where a loop passes it on.
#![tactic(auto)]

pub mod compare;
pub mod motion;
