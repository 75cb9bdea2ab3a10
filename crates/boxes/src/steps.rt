// A reach over many ticks: lifted steps in a row, each one's swept box tested against the no-go boxes. The public reach, the
// recovery check and the decision are made of such reaches. Boxes and the sheet's value are lent. The definitions are in
// boxes_spec/specs/Reach; specs/ReachPlan and specs/ReachResult say what is asked and answered in their terms.
ghost use Rattle.std.specs.Prelude.{◌≡◌};
ghost use Rattle.sheet_spec.specs.Valid.{ValidNumbers};
ghost use Rattle.machine_spec.specs.Accepted.{Lawful};
ghost use Rattle.boxes_rates.specs.Plant.{Describes};
ghost use Rattle.boxes.specs.Limits.{ReachAsked, TestedAsked};
ghost use Rattle.boxes.specs.ReachResult.{ReachDone, TestedDone, stopped_of};

use boxes_rates::Plant;
use boxes_shape::compare::lowest_met;
use boxes_shape::motion::{arrive, join};
use boxes_step::{Covered, StepFault, step};
use machine_spec::Law;
use sheet_encoding::records::band_kind;
use sheet_spec::slots::{BAND_VAR, BANDS, BOX_SIZE, SLOTS, VARS};

// The machine of an accepted sheet's value under a law that the sheet allows.
pub fn plant(sheet: &[i32; SLOTS], law: Law) -> Plant
    requires { ValidNumbers sheet.now × Lawful sheet.now law }
    ensures { (result.law ≡ law) × Describes result sheet.now }
{
    let n = sheet[VARS] as usize;
    let bands = sheet[BANDS] as usize;
    let var = sheet[BAND_VAR] as usize;
    Plant {
        n,
        bands,
        var,
        kind: band_kind(sheet),
        law,
    }
}

// How a reach goes: an allowance of rounds, if there is one, the machine, the number of no-go boxes that are tested, the width.
#[derive(Clone, Copy)]
pub struct ReachPlan {
    pub allowance: Option<u32>,
    pub plant: Plant,
    pub boxes: usize,
    pub width: usize,
}

// Why a tested step or a reach stopped, with the count of rounds after it. The boxes are lent beside it.
#[derive(Clone, Copy)]
pub enum Stopped {
    // no length settled; it does not happen
    Unsettled {
        count: u32,
    },
    // a step's swept box shares a state with a no-go box: the ticks left when that step began, and the lowest number of
    // such a box
    Unsafe {
        left: usize,
        number: usize,
        count: u32,
    },
    // a round was due and none was left
    Exhausted {
        count: u32,
    },
}

impl From<StepFault> for Stopped {
    ghost from_gives = { λ fault stopped. stopped ≡ stopped_of fault };

    fn from(fault: StepFault) -> Stopped {
        match fault {
            StepFault::Unsettled { count } => Stopped::Unsettled { count },
            StepFault::Exhausted { count } => Stopped::Exhausted { count },
        }
    }
}

// A step from `at` with `left` ticks left, and the test of its swept box against the no-go boxes. The working box is `at` at
// first. If the step settles, `at` and `work` become its end box, and `swept` its swept box.
fn tested_step(
    plan: ReachPlan,
    sheet: &[i32; SLOTS],
    left: usize,
    count: u32,
    at: &mut [i64; BOX_SIZE],
    work: &mut [i64; BOX_SIZE],
    swept: &mut [i64; BOX_SIZE],
) -> Result<Covered, Stopped>
    requires { TestedAsked plan sheet.now left count at.old work.old swept.old }
    ensures { TestedDone plan sheet.now left count at.old result at.new work.new swept.new }
{
    let plant = plan.plant;
    let width = plan.width.min(left);
    let mut rates = [0i64; BOX_SIZE];
    let covered = step(
        plan.allowance,
        plant,
        sheet,
        at,
        width,
        count,
        work,
        &mut rates,
    )?;
    arrive(plant.n, covered.ticks, &rates, work, at, swept);
    let number = lowest_met(plant.n, swept, sheet, plan.boxes);
    if number < plan.boxes {
        return Err(Stopped::Unsafe {
            left,
            number,
            count: covered.count,
        });
    }
    Ok(covered)
}

// Steps of at most the plan's width from `end`, after `count` rounds, until `ticks` ticks are covered. `end` becomes the last end
// box and `swept` the hull of the swept boxes, or that of the step that failed.
pub fn reach(
    plan: ReachPlan,
    sheet: &[i32; SLOTS],
    ticks: usize,
    count: u32,
    end: &mut [i64; BOX_SIZE],
    swept: &mut [i64; BOX_SIZE],
) -> Result<Covered, Stopped>
    requires { ReachAsked plan sheet.now ticks count end.old }
    ensures { ReachDone plan sheet.now ticks count end.old result end.new swept.new }
{
    let plant = plan.plant;
    *swept = *end;
    let mut work = *end;
    let mut path = *end;
    let mut left = ticks;
    let mut counted = count;
    // no `for`: a step covers as many ticks as it settles over, so how many steps there are is not known before
    while left > 0 {
        let covered = match tested_step(plan, sheet, left, counted, end, &mut work, &mut path) {
            Ok(covered) => covered,
            Err(stopped) => {
                *swept = path;
                return Err(stopped);
            }
        };
        join(plant.n, &path, swept);
        left -= covered.ticks;
        counted = covered.count;
    }
    Ok(Covered {
        ticks,
        count: counted,
    })
}
