// A question's bytes (document 01, "Sheet layout"; document 02, paper 4), read once: the refusal, or the question as one value, whose head
// (allowance and law) is read apart from the measured box. `next_length` says where the next question starts in a row of them; `pairs` also
// reads the start box of a reach from its bytes. The definitions are in
// decision_spec/specs/Question; specs/HeadRead and specs/QuestionRead say what reading gives. Laws and boxes are tested in
// `boxes_refusals`.
#![tactic(auto)]

ghost use Rattle.std.specs.Prelude.{◌≡◌, [], ◌∷◌, ◌+◌, ◌≤◌, length, IfOk};
ghost use Rattle.std.specs.declared.option.Option.TheVariants.{Some};
ghost use Rattle.sheet_spec.specs.Sizes.{box_bytes};
ghost use Rattle.sheet_spec.specs.Slots as slots;
ghost use Rattle.sheet_spec.specs.Refusals.{first_of, refusal_of};
ghost use Rattle.boxes_spec.specs.Reach.{law_refusal};
ghost use Rattle.decision_spec.specs.Question.{allowance_refusal, form_refusal, greatest_at, kind_of, next_length, pairs, question_head, sides_at};
ghost use Rattle.decision_question.specs.HeadRead.{HeadReads};
ghost use Rattle.decision_question.specs.QuestionRead.{QuestionReads};

use boxes_refusals::{law_refusal, sides_refusal};
use decision_spec::{Question, QuestionHead, QuestionKind};
use machine_spec::Law;
use sheet_encoding::bytes::{four, get_i32};
use sheet_spec::Vars;
use sheet_spec::limits::MAX_ALLOWANCE;
use sheet_spec::refusals::Refusal;
use sheet_spec::sizes::{I32, LETTERS, PAIR_BYTES, UPPER_AT};
use sheet_spec::slots::{BOX_SIZE, N, SLOTS};

// Where the allowance, the command (or the least one) and the greatest command of a span start, after the letters.
const ALLOWANCE_AT: usize = LETTERS;

const COMMAND_AT: usize = ALLOWANCE_AT + I32;

const GREATEST_AT: usize = COMMAND_AT + I32;

// The most bytes of a question: those of one with a span.
pub const LONGEST: usize = GREATEST_AT + I32 + PAIR_BYTES * N;

// The question that the first two bytes announce.
#[tactic(auto, unfolding(decision_spec::specs::Question::kind_of))]
pub fn kind(bytes: &[u8]) -> Option<QuestionKind>
    ensures { result ≡ kind_of bytes.now }
{
    match bytes {
        [b'Q', b'S', ..] => Some(QuestionKind::Single),
        [b'Q', b'R', ..] => Some(QuestionKind::Ranged),
        _ => None,
    }
}

// Where the greatest command starts. One command is the least and the greatest.
fn greatest_at(kind: QuestionKind) -> usize
    ensures { result ≡ greatest_at (Some kind) }
{
    match kind {
        QuestionKind::Single => COMMAND_AT,
        QuestionKind::Ranged => GREATEST_AT,
    }
}

// Where the pairs of sides start.
fn sides_at(kind: QuestionKind) -> usize
    ensures { result ≡ sides_at (Some kind) }
{
    greatest_at(kind) + I32
}

// How many of the bytes still to come the next question takes, on a sheet of n variables.
#[tactic(auto, unfolding(decision_spec::specs::Question::next_length))]
pub fn next_length(n: Vars, bytes: &[u8]) -> usize
    ensures { (result ≡ next_length n bytes.now) × (result ≤ length bytes.now) }
{
    let Some(asked) = kind(bytes) else {
        return bytes.len();
    };
    let size = sides_at(asked) + PAIR_BYTES * n.count();
    size.min(bytes.len())
}

// n pairs of lower and upper side, from a place on.
#[tactic(auto, unfolding(decision_spec::specs::Question::pairs), using(machine_spec::proofs::Box::sides_more))]
pub fn pairs(n: Vars, bytes: &[u8], at: usize) -> [i64; BOX_SIZE]
    requires { at + box_bytes n ≤ length bytes.now }
    ensures { result ≡ pairs n bytes.now at }
{
    let mut sides: [i64; BOX_SIZE] = [0; BOX_SIZE];
    for i in 0..n.count() {
        let lower_at = at + PAIR_BYTES * i;
        let upper = i + N;
        sides[i] = i64::from(get_i32(bytes, lower_at));
        sides[upper] = i64::from(get_i32(bytes, lower_at + UPPER_AT));
    }
    sides
}

// The kind of a question that has a mark and as many bytes as it says, with `rest` of them after the head.
#[tactic(auto, unfolding(decision_spec::specs::Question::form_refusal))]
fn form(rest: usize, question: &[u8]) -> Result<QuestionKind, Refusal>
    requires { rest ≤ box_bytes slots.N }
    ensures refusal { refusal_of result ≡ form_refusal rest question.now }
    ensures kind { IfOk result (λ kind. kind_of question.now ≡ Some kind) }
{
    match kind(question) {
        Some(kind) if question.len() == sides_at(kind) + rest => Ok(kind),
        _ => Err(Refusal::Question),
    }
}

// The head of a question of a kind, and its tests after that of the form.
#[tactic(auto, unfolding(decision_spec::specs::Question::allowance_of, decision_spec::specs::Question::least_of, decision_spec::specs::Question::greatest_of, decision_spec::specs::Question::allowance_refusal, sheet_spec::specs::Refusals::first_of, sheet_spec::specs::Refusals::unless_refused))]
fn head(sheet: &[i32; SLOTS], kind: QuestionKind, question: &[u8]) -> Result<QuestionHead, Refusal>
    requires { (kind_of question.now ≡ Some kind) × (sides_at (Some kind) ≤ length question.now) }
    ensures refusal { refusal_of result ≡ first_of (allowance_refusal question.now ∷ law_refusal sheet.now (question_head question.now).law ∷ []) }
    ensures head { IfOk result (λ head. head ≡ question_head question.now) }
{
    let allowance = four(question, ALLOWANCE_AT);
    if MAX_ALLOWANCE < allowance {
        return Err(Refusal::Allowance);
    }
    let law = Law::Span {
        least: i64::from(get_i32(question, COMMAND_AT)),
        greatest: i64::from(get_i32(question, greatest_at(kind))),
    };
    law_refusal(sheet, law)?;
    Ok(QuestionHead { allowance, law })
}

// The head of a question, which `rest` bytes are to follow, and its tests in their order.
#[tactic(auto, unfolding(decision_spec::specs::Question::head_refusal, sheet_spec::specs::Refusals::first_of, sheet_spec::specs::Refusals::unless_refused), using(decision_spec::proofs::Passes::form_passes))]
pub fn read_head(
    sheet: &[i32; SLOTS],
    rest: usize,
    question: &[u8],
) -> Result<QuestionHead, Refusal>
    requires { rest ≤ box_bytes slots.N }
    ensures { HeadReads sheet.now rest question.now result }
{
    let kind = form(rest, question)?;
    head(sheet, kind, question)
}

// The question on a sheet of n variables.
#[tactic(auto, unfolding(decision_spec::specs::Question::question_refusal, decision_spec::specs::Question::head_refusal, decision_spec::specs::Question::measured, sheet_spec::specs::Refusals::first_of, sheet_spec::specs::Refusals::unless_refused), using(decision_spec::proofs::Passes::form_passes))]
pub fn read(n: Vars, sheet: &[i32; SLOTS], question: &[u8]) -> Result<Question, Refusal>
    requires { n ≡ slots.vars sheet.now }
    ensures { QuestionReads sheet.now question.now result }
{
    let kind = form(PAIR_BYTES * n.count(), question)?;
    let head = head(sheet, kind, question)?;
    let measured = pairs(n, question, sides_at(kind));
    sides_refusal(n, &measured)?;
    Ok(Question { measured, head })
}
