// One lifted step (document 01, "One lifted step"): rounds of a length until the working box settles, and half the length
// if it does not within eight. Boxes are lent, and changed in place. The definitions are in boxes_spec/specs/Step;
// specs/StepResult says what an answer of the code means in their terms.
#![tactic(auto)]

ghost use Rattle.std.specs.Prelude.{◌*◌, ◌≡◌};
ghost use Rattle.sheet_spec.specs.Slots as slots;
ghost use Rattle.machine_spec.specs.Machine.{machine};
ghost use Rattle.boxes_spec.specs.Step.{is_exhausted, rounds, step};
ghost use Rattle.boxes_step.specs.Allowance.{is_limited, allowed};
ghost use Rattle.boxes_step.specs.Limits.{RoundAsked, StepAsked};
ghost use Rattle.boxes_step.specs.StepResult.{RoundDone, StepDone};

use boxes_rates::Plant;
use boxes_rates::rate::rates;
use boxes_shape::motion::grow;
use sheet_spec::slots::{BOX_SIZE, SLOTS};

// The most rounds of a length before half of it is tried.
const ROUNDS: usize = 8;

// The ticks that rounds, a step or a reach cover, and the count of rounds after them. The boxes are lent beside it.
#[derive(Clone, Copy)]
pub struct Covered {
    pub ticks: usize,
    pub count: u32,
}

// Why rounds or a step did not settle, with the count of rounds after them.
#[derive(Clone, Copy)]
pub enum StepFault {
    // no round of the length settled
    Unsettled { count: u32 },
    // a round was due and none was left
    Exhausted { count: u32 },
}

// The allowance, the plant, the sheet and the start box stay parameters: as a struct with methods, a round at one variable and one band
// takes 277 instructions, and at most 262 are allowed.

// One round of `ticks` ticks with the working box: whether it settles. `face_rates` becomes its rates, and if it does not settle
// `work` becomes the next working box.
fn round(
    plant: Plant,
    sheet: &[i32; SLOTS],
    start: &[i64; BOX_SIZE],
    ticks: usize,
    work: &mut [i64; BOX_SIZE],
    face_rates: &mut [i64; BOX_SIZE],
) -> bool
    requires { RoundAsked plant sheet.now start.now ticks work.old }
    ensures { RoundDone (machine sheet.now plant.law) start.now ticks work.old result work.new face_rates.new }
{
    rates(plant, sheet, start, ticks, work, face_rates);
    // A step of one tick settles in its first round: there is nothing to test.
    ticks == 1 || grow(plant.n, start, ticks - 1, face_rates, work)
}

// A round is due only while the count is not the allowance, if there is one.
#[tactic(auto, unfolding(boxes_spec::specs::Step::is_exhausted))]
fn is_exhausted(allowance: Option<u32>, count: u32) -> bool
    ensures { result ≡ is_exhausted (is_limited allowance) (allowed allowance) count }
{
    allowance == Some(count)
}

// Up to eight rounds of `ticks` ticks. The first working box is `start`, which `work` is at first. `face_rates` becomes the rates of
// the last round.
fn rounds(
    allowance: Option<u32>,
    plant: Plant,
    sheet: &[i32; SLOTS],
    start: &[i64; BOX_SIZE],
    ticks: usize,
    count: u32,
    work: &mut [i64; BOX_SIZE],
    face_rates: &mut [i64; BOX_SIZE],
) -> Result<Covered, StepFault>
    requires { StepAsked plant sheet.now start.now ticks count 8 work.old face_rates.old }
    ensures { StepDone (slots.vars sheet.now) start.now (rounds (is_limited allowance) (allowed allowance) (machine sheet.now plant.law) start.now ticks 8 start.now count) result work.new face_rates.new }
{
    let mut counted = count;
    for _ in 0..ROUNDS {
        if is_exhausted(allowance, counted) {
            return Err(StepFault::Exhausted { count: counted });
        }
        let settled = round(plant, sheet, start, ticks, work, face_rates);
        counted += 1;
        if settled {
            return Ok(Covered {
                ticks,
                count: counted,
            });
        }
    }
    Err(StepFault::Unsettled { count: counted })
}

// A step of at most `width` ticks from `start`, after `count` rounds. The working box is `start` at first; if the step
// settles, its end box is `start` moved by `face_rates`.
pub fn step(
    allowance: Option<u32>,
    plant: Plant,
    sheet: &[i32; SLOTS],
    start: &[i64; BOX_SIZE],
    width: usize,
    count: u32,
    work: &mut [i64; BOX_SIZE],
    face_rates: &mut [i64; BOX_SIZE],
) -> Result<Covered, StepFault>
    requires { StepAsked plant sheet.now start.now width count (8 * width) work.old face_rates.old }
    ensures { StepDone (slots.vars sheet.now) start.now (step (is_limited allowance) (allowed allowance) (machine sheet.now plant.law) start.now width count) result work.new face_rates.new }
{
    let mut ticks = width;
    let mut counted = count;
    loop {
        let r = rounds(
            allowance, plant, sheet, start, ticks, counted, work, face_rates,
        );
        let Err(StepFault::Unsettled { count: after }) = r else {
            return r;
        };
        if ticks <= 1 {
            return r;
        }
        *work = *start;
        ticks /= 2;
        counted = after;
    }
}
