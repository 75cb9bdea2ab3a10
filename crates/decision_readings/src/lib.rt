// The decision by readings (document 02, paper 1) on any bytes: a sheet, the bytes before a question's pairs, and for the pairs a reading for
// each variable. What it answers is equal to the definition in decision_spec/specs/Readings.antt: that of the decision on the question with
// the box that the readings give. No bytes of such a question are made.
#![tactic(auto)]

ghost use Rattle.std.specs.Prelude.{◌≡◌, ◌≤◌};
ghost use Rattle.sheet_spec.specs.Valid.{ValidNumbers};
ghost use Rattle.decision_spec.specs.Question.{allowance_of};
ghost use Rattle.decision_spec.specs.Decision.{rounds_of};
ghost use Rattle.decision_spec.specs.Readings.{decide_readings, decision_read};
ghost use Rattle.decision_answers.specs.Decision.{reply_of};

use boxes_refusals::sides_refusal;
use decision::decision_to;
use decision_answers::Decision;
use decision_question::read_head;
use decision_spec::Question;
use readings::measured;
use readings_spec::Reading;
use sheet::read_zeroed;
use sheet_encoding::vars;
use sheet_spec::refusals::Refusal;
use sheet_spec::slots::{N, SLOTS};

// The decision on an accepted sheet's value.
#[tactic(auto, unfolding(decision_answers::specs::Decision::reply_of, sheet_spec::specs::Refusals::first_of, sheet_spec::specs::Refusals::unless_refused))]
fn decide_on(sheet: &[i32; SLOTS], head: &[u8], readings: [Reading; N]) -> Result<Decision, Refusal>
    requires { ValidNumbers sheet.now }
    ensures { reply_of result ≡ decision_read sheet.now head.now readings }
{
    let n = vars(sheet);
    let head = read_head(sheet, 0, head)?;
    let measured = measured(n, readings)?;
    sides_refusal(n, &measured)?;
    Ok(decision_to(sheet, Question { measured, head }))
}

// The decision on a sheet's bytes, a head's bytes and readings.
#[tactic(auto, unfolding(decision_answers::specs::Decision::reply_of, decision_spec::specs::Readings::decide_readings, sheet_spec::specs::Refusals::unless_refused), using(sheet_spec::proofs::Valid::zeros_are, sheet_spec::proofs::Valid::valid_numbers, decision_spec::proofs::Readings::read_accepted))]
pub fn decide_readings(
    sheet: &[u8],
    head: &[u8],
    readings: [Reading; N],
) -> Result<Decision, Refusal>
    ensures result_value { reply_of result ≡ decide_readings sheet.now head.now readings }
    ensures allowed { rounds_of (reply_of result) ≤ allowance_of head.now }
{
    let mut value = [0i32; SLOTS];
    read_zeroed(sheet, &mut value)?;
    decide_on(&value, head, readings)
}
