// The reach (document 01, "One lifted step"): the boxes that hold every state that the machine can reach in a number of ticks from
// a start box, under a law. `reach` is the public operation on any bytes. The definitions are in boxes_spec/specs/Reach.
// What may be asked is tested in `boxes_refusals`.
#![tactic(auto)]

ghost use Rattle.std.specs.Prelude.{◌≡◌};
ghost use Rattle.sheet_spec.specs.Valid.{ValidNumbers};
ghost use Rattle.boxes_spec.specs.Reach as spec;
ghost use Rattle.boxes.specs.ReachAnswer.{answer_of};

pub mod steps;

use crate::steps::{ReachPlan, plant};
use boxes_refusals::reach_refusal;
use boxes_shape::compare::trim;
use machine_spec::Law;
use sheet::read_zeroed;
use sheet_encoding::vars;
use sheet_spec::refusals::Refusal;
use sheet_spec::slots::{BOX_SIZE, SLOTS};

// The last end box of a reach, the box of all that it sweeps, and the rounds that it took.
#[derive(Clone, Copy)]
pub struct Reached {
    pub end: [i64; BOX_SIZE],
    pub swept: [i64; BOX_SIZE],
    pub rounds: u32,
}

// A reach of an accepted sheet's value.
#[tactic(auto, unfolding(boxes_spec::specs::Reach::reach_of, sheet_spec::specs::Refusals::unless_refused))]
pub fn reach_of(
    sheet: &[i32; SLOTS],
    ticks: u32,
    width: u32,
    law: Law,
    start: &[i64; BOX_SIZE],
) -> Result<Reached, Refusal>
    requires { ValidNumbers sheet.now }
    ensures { answer_of result ≡ spec.reach_of sheet.now ticks width law start.now }
{
    reach_refusal(vars(sheet), sheet, ticks, width, law, start)?;
    let p = plant(sheet, law);
    let mut end = trim(p.n, start);
    let mut swept = end;
    let plan = ReachPlan {
        allowance: None,
        plant: p,
        boxes: 0,
        width: width as usize,
    };
    let r = steps::reach(plan, sheet, ticks as usize, 0, &mut end, &mut swept);
    let Ok(covered) = r else {
        // With no allowance and no box to keep clear of, a reach ends.
        unreachable!()
    };
    Ok(Reached {
        end,
        swept,
        rounds: covered.count,
    })
}

// A reach of a sheet's file.
#[tactic(auto, unfolding(boxes_spec::specs::Reach::reach_file, sheet_spec::specs::Refusals::unless_refused))]
pub fn reach(
    f: &[u8],
    ticks: u32,
    width: u32,
    law: Law,
    start: &[i64; BOX_SIZE],
) -> Result<Reached, Refusal>
    ensures { answer_of result ≡ spec.reach_file f.now ticks width law start.now }
{
    let mut value = [0i32; SLOTS];
    read_zeroed(f, &mut value)?;
    reach_of(&value, ticks, width, law, start)
}
