// The decision and the recovery check (document 01, "The decision") on any bytes. What they answer is equal to the definitions
// in decision_spec/specs/Decision.antt; safety/specs/Run.antt says what these are for, that every run of the machine is safe. The
// attempts at ever smaller widths are in `decision_attempt`, a question's bytes in `decision_question`.
#![tactic(auto)]

ghost use Rattle.std.specs.Prelude.{◌≡◌, ◌≤◌, Ok};
ghost use Rattle.sheet_spec.specs.Slots.{recovery_box, vars};
ghost use Rattle.sheet_spec.specs.Valid.{ValidNumbers};
ghost use Rattle.machine_spec.specs.Box.{trim};
ghost use Rattle.decision_spec.specs.Question.{allowance_of};
ghost use Rattle.decision_spec.specs.Decision.{check_recovery, decide, decision_on, decision_to, recovery_of, rounds_of};
ghost use Rattle.decision_answers.specs.Recovery.{check_reply_of};
ghost use Rattle.decision_answers.specs.Decision.{reply_of};
ghost use Rattle.decision.specs.Limits.{DecisionAsked};

use boxes_shape::compare::box_at;
use decision_answers::{Decision, Recovery};
use decision_attempt::attempts;
use decision_spec::{Phase, Question, QuestionHead};
use machine_spec::Law;
use sheet::read_zeroed;
use sheet_encoding::{count, vars};
use sheet_spec::refusals::Refusal;
use sheet_spec::slots::{ALPHA, DELTA, RECOVERY, RHO, SLOTS, VARS};

// The decision on an accepted sheet's value and a question that is not refused, also for the crate above that takes readings.
pub fn decision_to(sheet: &[i32; SLOTS], question: Question) -> Decision
    requires { DecisionAsked sheet.now question }
    ensures { reply_of (Ok result) ≡ decision_to sheet.now question }
{
    let QuestionHead { allowance, law } = question.head;
    let start = question.measured;
    let first = count(sheet, DELTA);
    let then = count(sheet, ALPHA);
    let asked = Phase { law, ticks: first };
    let plain = Phase {
        law: Law::Baseline,
        ticks: then,
    };
    attempts(
        Some(allowance),
        &[asked, plain],
        sheet,
        &start,
        first.max(then),
    )
}

// The decision on an accepted sheet's value and a question's bytes, which are read once.
#[tactic(auto, unfolding(decision_answers::specs::Decision::reply_of, sheet_spec::specs::Refusals::unless_refused))]
fn decide_on(sheet: &[i32; SLOTS], question: &[u8]) -> Result<Decision, Refusal>
    requires { ValidNumbers sheet.now }
    ensures { reply_of result ≡ decision_on sheet.now question.now }
{
    let asked = decision_question::read(vars(sheet), sheet, question)?;
    Ok(decision_to(sheet, asked))
}

// The decision on a sheet's and a question's bytes.
#[tactic(auto, unfolding(decision_answers::specs::Decision::reply_of, decision_spec::specs::Decision::decide, sheet_spec::specs::Refusals::unless_refused), using(sheet_spec::proofs::Valid::zeros_are, sheet_spec::proofs::Valid::valid_numbers))]
pub fn decide(sheet: &[u8], question: &[u8]) -> Result<Decision, Refusal>
    ensures result_value { reply_of result ≡ decide sheet.now question.now }
    ensures allowed { rounds_of (reply_of result) ≤ allowance_of question.now }
{
    let mut value = [0i32; SLOTS];
    read_zeroed(sheet, &mut value)?;
    decide_on(&value, question)
}

// The recovery check of an accepted sheet's value.
fn check_on(sheet: &[i32; SLOTS]) -> Recovery
    requires { ValidNumbers sheet.now × (trim (vars sheet.now) (recovery_box sheet.now) ≡ recovery_box sheet.now) }
    ensures { check_reply_of (Ok result) ≡ recovery_of sheet.now }
{
    let recovery = box_at(count(sheet, VARS), sheet, RECOVERY);
    let ticks = count(sheet, RHO);
    let plain = Phase {
        law: Law::Baseline,
        ticks,
    };
    Recovery::from(attempts(None, &[plain], sheet, &recovery, ticks))
}

// The recovery check of a sheet's bytes.
#[tactic(auto, unfolding(decision_answers::specs::Recovery::check_reply_of, decision_spec::specs::Decision::check_recovery, sheet_spec::specs::Refusals::unless_refused), using(sheet_spec::proofs::Valid::zeros_are, sheet_spec::proofs::Valid::valid_numbers, crate::proofs::RecoveryBox::recovery_trimmed))]
pub fn check_recovery(sheet: &[u8]) -> Result<Recovery, Refusal>
    ensures { check_reply_of result ≡ check_recovery sheet.now }
{
    let mut value = [0i32; SLOTS];
    read_zeroed(sheet, &mut value)?;
    Ok(check_on(&value))
}
