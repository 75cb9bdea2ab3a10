// Attempts (document 01, "The decision"): reaches under one law after another, at a width, and at ever smaller widths until one
// attempt ends in the recovery box. The recovery check is made of them too. The definitions are in
// decision_spec/specs/Decision; specs/Limits and specs/AttemptResult say what is asked and answered in their terms.
#![tactic(auto)]

ghost use Rattle.std.specs.Prelude.{◌≡◌, Ok};
ghost use Rattle.sheet_spec.specs.Valid.{ValidNumbers};
ghost use Rattle.decision_spec.specs.Decision.{attempts, finish, last_reply};
ghost use Rattle.decision_answers.specs.Decision.{reply_of};
ghost use Rattle.decision_attempt.specs.AttemptResult.{PhaseDone, attempt_of, fault_of, summary};
ghost use Rattle.decision_attempt.specs.Limits.{AttemptAsked, AttemptsAsked, PhaseAsked};

use boxes::steps::{ReachPlan, Stopped, plant, reach};
use boxes_shape::compare::{box_at, within};
use boxes_step::Covered;
use decision_answers::{Decision, Verdict};
use decision_spec::Phase;
use sheet_spec::slots::{BOX_SIZE, BOXES, RECOVERY, SLOTS, VARS};

// Why an attempt failed.
#[derive(Clone, Copy)]
pub enum Failure {
    // no length settled; it does not happen
    Unsettled,
    // a step's swept box shares a state with a no-go box: the ticks of its phase left when that step began, and the lowest
    // number of such a box
    Unsafe { left: usize, number: usize },
    // the last end box is not within the recovery box
    Unrecovered,
}

// Why an attempt did not succeed, with the count of rounds after it.
#[derive(Clone, Copy)]
pub enum Fault {
    Failed { why: Failure, count: u32 },
    // a round was due and none was left
    Exhausted { count: u32 },
}

impl From<Stopped> for Fault {
    ghost from_gives = { λ stopped fault. fault ≡ fault_of stopped };

    fn from(stopped: Stopped) -> Fault {
        match stopped {
            Stopped::Unsettled { count } => Fault::Failed {
                why: Failure::Unsettled,
                count,
            },
            Stopped::Unsafe {
                left,
                number,
                count,
            } => Fault::Failed {
                why: Failure::Unsafe { left, number },
                count,
            },
            Stopped::Exhausted { count } => Fault::Exhausted { count },
        }
    }
}

// The reach of a phase at a width from `end`, after `count` rounds. `end` becomes its end box, and `swept` its swept box or that
// of the step that failed.
fn reach_phase(
    allowance: Option<u32>,
    phase: Phase,
    sheet: &[i32; SLOTS],
    width: usize,
    count: u32,
    end: &mut [i64; BOX_SIZE],
    swept: &mut [i64; BOX_SIZE],
) -> Result<Covered, Stopped>
    requires { PhaseAsked phase sheet.now end.old width count }
    ensures { PhaseDone allowance phase sheet.now end.old width count result end.new swept.new }
{
    let plan = ReachPlan {
        allowance,
        plant: plant(sheet, phase.law),
        boxes: sheet_encoding::count(sheet, BOXES),
        width,
    };
    reach(plan, sheet, phase.ticks, count, end, swept)
}

// What an attempt comes to whose last end box is `end`, after `count` rounds: the rounds, if it succeeds.
fn finish(sheet: &[i32; SLOTS], end: &[i64; BOX_SIZE], count: u32) -> Result<u32, Fault>
    requires { ValidNumbers sheet.now }
    ensures { result ≡ summary sheet.now (finish sheet.now end.now count) }
{
    let n = sheet_encoding::count(sheet, VARS);
    let recovery = box_at(n, sheet, RECOVERY);
    if within(n, end, &recovery) {
        Ok(count)
    } else {
        Err(Fault::Failed {
            why: Failure::Unrecovered,
            count,
        })
    }
}

// An attempt of the phases, one after another, at a width from the box `start`, after `count` rounds: the rounds after it, if it
// succeeds.
fn attempt(
    allowance: Option<u32>,
    phases: &[Phase],
    sheet: &[i32; SLOTS],
    start: &[i64; BOX_SIZE],
    width: usize,
    count: u32,
) -> Result<u32, Fault>
    requires { AttemptAsked phases.now sheet.now start.now width count }
    ensures { result ≡ summary sheet.now (attempt_of allowance phases.now sheet.now start.now width count) }
{
    let mut end = *start;
    let mut swept = end;
    let mut counted = count;
    for phase in phases {
        let covered = reach_phase(
            allowance, *phase, sheet, width, counted, &mut end, &mut swept,
        )?;
        counted = covered.count;
    }
    finish(sheet, &end, counted)
}

// Attempts at a width, then at half of it, and so on to 1, within an allowance of rounds, if there is one.
pub fn attempts(
    allowance: Option<u32>,
    phases: &[Phase],
    sheet: &[i32; SLOTS],
    start: &[i64; BOX_SIZE],
    width: usize,
) -> Decision
    requires { AttemptsAsked phases.now sheet.now start.now width }
    ensures { reply_of (Ok result) ≡ last_reply (attempts (attempt_of allowance phases.now sheet.now start.now) width width 0) }
{
    let mut w = width;
    let mut counted: u32 = 0;
    loop {
        let (verdict, rounds) = match attempt(allowance, phases, sheet, start, w, counted) {
            Ok(rounds) => (Verdict::Keep, rounds),
            Err(Fault::Exhausted { count }) => (Verdict::Spent, count),
            Err(Fault::Failed { count, .. }) if w <= 1 => (Verdict::Finest, count),
            Err(Fault::Failed { count, .. }) => {
                w /= 2;
                counted = count;
                continue;
            }
        };
        return Decision {
            verdict,
            width: w as u32,
            rounds,
        };
    }
}
