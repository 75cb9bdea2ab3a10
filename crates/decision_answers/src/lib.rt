// The answers of the decision and of the recovery check (document 01, "The decision"), which a refusal stands in place of, and the one
// 64-bit number that the C interface gives for each. The definitions are in decision_spec/specs/Decision; specs/Decision and
// specs/Recovery say what an answer means in their terms.
#![tactic(auto)]

ghost use Rattle.std.specs.Prelude.{◌≡◌, ◌+◌, ◌*◌, ◌^◌, ◌≤◌};
ghost use Rattle.std.specs.declared.result.Result.TheVariants.{Ok};
ghost use Rattle.sheet_spec.specs.Limits.{max_width};
ghost use Rattle.decision_spec.specs.Decision.{answered, code_of, is_keep, packed, refused, width_of};
ghost use Rattle.decision_answers.specs.Recovery.{as_check, check_reply_of};
ghost use Rattle.decision_answers.specs.Decision.{reply_of, verdict_of};

use sheet_spec::refusals::Refusal;

#[derive(Clone, Copy, Debug, PartialEq, Eq)]
pub enum Verdict {
    Keep,
    Finest,
    Spent,
}

// A verdict with the width and the rounds over all widths.
#[derive(Clone, Copy, Debug, PartialEq, Eq)]
pub struct Decision {
    pub verdict: Verdict,
    pub width: u32,
    pub rounds: u32,
}

// A recovery check's answer: whether it passed, with the same.
#[derive(Clone, Copy, Debug, PartialEq, Eq)]
pub struct Recovery {
    pub passed: bool,
    pub width: u32,
    pub rounds: u32,
}

// A recovery check has no allowance: if a decision that is spent came from one, it did not pass.
impl From<Decision> for Recovery {
    ghost from_gives = { λ d r. check_reply_of (Ok r) ≡ as_check (reply_of (Ok d)) };

    #[tactic(auto, unfolding(crate::specs::Decision::reply_of, crate::specs::Recovery::check_reply_of, crate::specs::Recovery::as_check))]
    fn from(decision: Decision) -> Recovery {
        Recovery {
            passed: decision.verdict == Verdict::Keep,
            width: decision.width,
            rounds: decision.rounds,
        }
    }
}

// With the codes of a decision.
impl From<Recovery> for Decision {
    ghost from_gives = { λ r d. reply_of (Ok d) ≡ check_reply_of (Ok r) };

    #[tactic(auto, unfolding(crate::specs::Decision::reply_of, crate::specs::Recovery::check_reply_of))]
    fn from(recovery: Recovery) -> Decision {
        let verdict = if recovery.passed {
            Verdict::Keep
        } else {
            Verdict::Finest
        };
        Decision {
            verdict,
            width: recovery.width,
            rounds: recovery.rounds,
        }
    }
}

// Whether a recovery check passed.
#[tactic(auto, unfolding(crate::specs::Recovery::check_reply_of, decision_spec::specs::Decision::is_keep))]
pub fn has_passed(recovery: Result<Recovery, Refusal>) -> bool
    ensures { result ≡ is_keep (check_reply_of recovery) }
{
    recovery.is_ok_and(|r| r.passed)
}

// The codes of an answer in the C interface (include/guard.h).
const KEEP: u64 = 0;

const FINEST: u64 = 1;

const SPENT: u64 = 2;

const REFUSED: u64 = 3;

#[tactic(auto, unfolding(decision_spec::specs::Decision::code_of))]
fn code(verdict: Verdict) -> u64
    ensures { result ≡ code_of (answered (verdict_of verdict) 0 0) }
{
    match verdict {
        Verdict::Keep => KEEP,
        Verdict::Finest => FINEST,
        Verdict::Spent => SPENT,
    }
}

// In the number of an answer the rounds are counted in ones, the width in 2^32 and the code in 2^48.
const WIDTH_UNIT: u64 = 0x1_0000_0000;

const CODE_UNIT: u64 = 0x1_0000_0000_0000;

fn pack(code: u64, width: u32, rounds: u32) -> u64
    requires { (code ≤ 3) × (width ≤ max_width) }
    ensures { result ≡ code * 2 ^ 48 + width * 2 ^ 32 + rounds }
{
    code * CODE_UNIT + u64::from(width) * WIDTH_UNIT + u64::from(rounds)
}

#[tactic(auto, unfolding(decision_spec::specs::Decision::packed, decision_spec::specs::Decision::code_of, decision_spec::specs::Decision::width_of, decision_spec::specs::Decision::rounds_of))]
pub fn pack_refusal(number: u8) -> u64
    ensures { result ≡ packed (refused number) }
{
    pack(REFUSED, u32::from(number), 0)
}

#[tactic(auto, unfolding(crate::specs::Decision::reply_of, decision_spec::specs::Decision::packed, decision_spec::specs::Decision::code_of, decision_spec::specs::Decision::width_of, decision_spec::specs::Decision::rounds_of))]
pub fn pack_decision(decision: Result<Decision, Refusal>) -> u64
    requires { width_of (reply_of decision) ≤ max_width }
    ensures { result ≡ packed (reply_of decision) }
{
    match decision {
        Ok(answer) => pack(code(answer.verdict), answer.width, answer.rounds),
        Err(refusal) => pack_refusal(u8::from(refusal)),
    }
}
