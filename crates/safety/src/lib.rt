// The run (document 01, "The run"): its definition, and what follows of it. specs/Run says what the guard is for, that every run
// of the machine is safe, and proofs/Run proves it. specs/Asked says the same of runs that ask by readings (document 02, paper 1). There is
// no code here: `decision` has the code that a run asks.
#![tactic(auto)]
