// Question, attempt, decision, recovery check, listing and what every call of the C interface answers (document 01, "The
// decision", "The floor listing"), as definitions; that an attempt covers what it keeps, and that counts stay within the
// allowance. There is no function here: `decision_question`, `decision`, `guard` and `listing` have the code that is equal to it.
#![tactic(auto)]

use machine_spec::Law;
use sheet_spec::slots::BOX_SIZE;

// Which question a mark announces: with one command, or with a span of commands.
#[derive(Clone, Copy)]
pub enum QuestionKind {
    Single,
    Ranged,
}

// The head of a question: how many rounds are allowed, and the law that is asked for.
#[derive(Clone, Copy)]
pub struct QuestionHead {
    pub allowance: u32,
    pub law: Law,
}

// The box comes first, so that a copy of the question has no gap before it.
#[derive(Clone, Copy)]
pub struct Question {
    pub measured: [i64; BOX_SIZE],
    pub head: QuestionHead,
}

// Some ticks under one law.
#[derive(Clone, Copy)]
pub struct Phase {
    pub law: Law,
    pub ticks: usize,
}
