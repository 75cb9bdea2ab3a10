// The floor listing (document 01) on bytes, step by step: the sheet's line, then a line for each question. A step says how many of the
// questions' bytes it took, and the next question's number if one may follow; a program only reads the files and writes the
// lines. The steps are equal to those of specs/ListingSteps.antt, whose lines are the listing; `listing_lines` has their text.
#![tactic(auto)]

ghost use Rattle.std.specs.Prelude.{◌≡◌, ◌+◌, ◌-◌, ◌^◌, ◌≤◌, ◌<◌, IfSome, length, take, drop};
ghost use Rattle.sheet_spec.specs.Slots as slots;
ghost use Rattle.sheet_spec.specs.Sheet.{values};
ghost use Rattle.decision_spec.specs.Question.{next_length};
ghost use Rattle.listing.specs.Listed.{ListedAs};
ghost use Rattle.listing.specs.ListingSteps.{sheet_step, question_step};

use decision::{check_recovery, decide};
use decision_answers::has_passed;
use decision_question::{LONGEST, kind, next_length};
use listing_lines::{put_question_line, put_sheet_line};
use listing_text::Line;
use sheet::read_zeroed;
use sheet_encoding::vars;
use sheet_spec::slots::SLOTS;

// The most bytes of a question.
pub const QUESTION: usize = LONGEST;

// A step's answer: how many of the bytes still to come it took, and the number of the next question, if one may follow.
#[derive(Clone, Copy)]
pub struct Listed {
    pub taken: usize,
    pub next: Option<u64>,
}

// The sheet's step.
pub fn sheet_step(sheet: &[u8], line: &mut Line) -> Listed
    ensures { ListedAs (sheet_step sheet.now) line.old line.new result }
{
    let recovery = check_recovery(sheet);
    put_sheet_line(recovery, line);
    Listed {
        taken: 0,
        next: has_passed(recovery).then_some(1),
    }
}

// How many of the bytes still to come the next question takes on the sheet, of which a refused one has no variables.
#[tactic(auto, using(sheet_spec::proofs::Valid::zeros_are, crate::proofs::Vars::vars_in_range))]
fn question_length(sheet: &[u8], bytes: &[u8]) -> usize
    ensures { (result ≡ next_length (slots.vars (values sheet.now)) bytes.now) × (result ≤ length bytes.now) }
{
    let mut v = [0i32; SLOTS];
    let _ = read_zeroed(sheet, &mut v);
    next_length(vars(&v), bytes)
}

// The step of the next question, on the bytes still to come: as many of them as the longest question has, or all of them. No question
// follows an unknown mark.
pub fn question_step(sheet: &[u8], next: Option<u64>, bytes: &[u8], line: &mut Line) -> Listed
    requires { IfSome next (λ i. i + 1 < 2 ^ 64) }
    ensures listed_as { ListedAs (question_step sheet.now next bytes.now) line.old line.new result }
    ensures taken_in_bounds { result.taken ≤ length bytes.now }
{
    match next {
        Some(ordinal) if !bytes.is_empty() => {
            let taken = question_length(sheet, bytes);
            put_question_line(ordinal, decide(sheet, &bytes[..taken]), line);
            Listed {
                taken,
                next: kind(bytes).map(|_| ordinal + 1),
            }
        }
        _ => {
            line.clear();
            Listed {
                taken: 0,
                next: None,
            }
        }
    }
}

// Moves the bytes that a step did not take to the front of those at hand, and answers how many they are.
pub fn move_rest(bytes: &mut [u8], held: usize, taken: usize) -> usize
    requires { (taken ≤ held) × (held ≤ length bytes.old) }
    ensures { (result ≡ held - taken) × (take result bytes.new ≡ take result (drop taken bytes.old)) }
{
    bytes.copy_within(taken..held, 0);
    held - taken
}
