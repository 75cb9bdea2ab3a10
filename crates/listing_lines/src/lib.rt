// The lines of the floor listing (document 01, "The floor listing") over the answers that they tell, as bytes equal to those of
// decision_spec/specs/Listing.antt. A line is begun again before its text is put; the bytes after its end stay as they were.
#![tactic(auto)]

ghost use Rattle.std.specs.Prelude.{[], ◌∷◌, ◌++◌, ◌≡◌, ◌≤◌, cond, length};
ghost use Rattle.sheet_spec.specs.Refusals.{refusal_number};
ghost use Rattle.decision_answers.specs.Recovery.{check_reply_of};
ghost use Rattle.decision_answers.specs.Decision.{reply_of, verdict_of};
ghost use Rattle.decision_spec.specs.Decision.{finest, keep};
ghost use Rattle.decision_spec.specs.Listing.{◌␣◌, check_word, decision_word, digits, newline, refused_word, reply_text, sheet_word};
ghost use Rattle.listing_text.specs.Limits.{reply_room, word_room};
ghost use Rattle.listing_text.specs.Line.{AddsWithin, Begins, HasRoom};

use decision_answers::{Decision, Recovery, Verdict};
use listing_text::Line;
use sheet_spec::refusals::Refusal;

#[tactic(auto, unfolding(decision_spec::specs::Listing::decision_word))]
fn decision_word(verdict: Verdict) -> &'static [u8]
    ensures { (result.now ≡ decision_word (verdict_of verdict)) × (length result.now ≤ word_room) }
{
    match verdict {
        Verdict::Keep => b"keep",
        Verdict::Finest => b"over finest",
        Verdict::Spent => b"over spent",
    }
}

#[tactic(auto, unfolding(decision_spec::specs::Listing::check_word))]
fn check_word(passed: bool) -> &'static [u8]
    ensures { (result.now ≡ check_word (cond passed keep finest)) × (length result.now ≤ word_room) }
{
    if passed { b"pass" } else { b"fail" }
}

// A verdict's word, width and rounds.
fn put_verdict(word: &[u8], width: u32, rounds: u32, line: &mut Line)
    requires { (length word.now ≤ word_room) × HasRoom reply_room line.old }
    ensures { AddsWithin reply_room (word.now ␣ digits width ␣ digits rounds) line.old line.new }
{
    line.put(word);
    line.put_field(u64::from(width));
    line.put_field(u64::from(rounds));
}

// `refused` and the number.
fn put_refused(refusal: Refusal, line: &mut Line)
    requires { HasRoom reply_room line.old }
    ensures { AddsWithin reply_room (refused_word ␣ digits (refusal_number refusal)) line.old line.new }
{
    line.put(b"refused");
    line.put_field(u64::from(u8::from(refusal)));
}

#[tactic(auto, unfolding(decision_answers::specs::Decision::reply_of, decision_spec::specs::Listing::reply_text))]
fn put_decision(decision: Result<Decision, Refusal>, line: &mut Line)
    requires { HasRoom reply_room line.old }
    ensures { AddsWithin reply_room (reply_text decision_word (reply_of decision)) line.old line.new }
{
    match decision {
        Ok(d) => put_verdict(decision_word(d.verdict), d.width, d.rounds, line),
        Err(refusal) => put_refused(refusal, line),
    }
}

// The same of a recovery check, whose answer is of another type: a trait over the two would be longer than this match.
#[tactic(auto, unfolding(decision_answers::specs::Recovery::check_reply_of, decision_spec::specs::Listing::reply_text))]
fn put_recovery(recovery: Result<Recovery, Refusal>, line: &mut Line)
    requires { HasRoom reply_room line.old }
    ensures { AddsWithin reply_room (reply_text check_word (check_reply_of recovery)) line.old line.new }
{
    match recovery {
        Ok(r) => put_verdict(check_word(r.passed), r.width, r.rounds, line),
        Err(refusal) => put_refused(refusal, line),
    }
}

// The sheet's line over its recovery check's answer.
pub fn put_sheet_line(recovery: Result<Recovery, Refusal>, line: &mut Line)
    ensures { Begins ((sheet_word ␣ reply_text check_word (check_reply_of recovery)) ++ (newline ∷ [])) line.old line.new }
{
    line.clear();
    line.put(b"sheet ");
    put_recovery(recovery, line);
    line.put(b"\n");
}

// A question's line over its number and its decision.
pub fn put_question_line(ordinal: u64, decision: Result<Decision, Refusal>, line: &mut Line)
    ensures { Begins ((digits ordinal ␣ reply_text decision_word (reply_of decision)) ++ (newline ∷ [])) line.old line.new }
{
    line.clear();
    line.put_decimal(ordinal);
    line.put(b" ");
    put_decision(decision, line);
    line.put(b"\n");
}
