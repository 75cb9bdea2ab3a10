// The machine on a sheet (document 01, "The machine on a sheet"), boxes of its states and the rates of their faces ("One lifted
// step"): definitions, and what follows of them. proofs/Sound has that a face's rate bounds every change that the sheet
// allows. There is no function here: `boxes_shape` and `boxes_rates` have the code.
#![tactic(auto)]

// What acts on the motor: the plain law, or a span of commands (document 02, paper 4), of which any one is used at each tick.
#[derive(Clone, Copy)]
pub enum Law {
    Baseline,
    Span { least: i64, greatest: i64 },
}
