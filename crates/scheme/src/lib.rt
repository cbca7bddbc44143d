// The definitions that the sector layer is held to, and the law of its runs.
//
// There is nothing to run here. `specs/` says what tables are, where a sector lies, what each step of a write does and asks of the
// device, what a ledger is, and what holds of every run of calls; `proofs/` shows it. A theorem is asked for only where the contract of a
// function names it, so each theorem has a function, which does nothing. It is a crate of its own because none of it depends on the
// code: a change of the code does not prove the law again.

#![tactic(auto)]

ghost use Rattle.scheme.specs.Bench.{TwelveAnswers};
ghost use Rattle.scheme.specs.Law.{EveryRunIsLawful, EveryCallIsLawful};

// The law holds of every list of calls, on every device and with every arguments of format.
pub fn every_run_is_lawful()
    ensures { EveryRunIsLawful }
{}

// A call that is made where a run has come to adds to that run and keeps the law.
pub fn every_call_is_lawful()
    ensures { EveryCallIsLawful }
{}

// The worked run answers as it was worked out by hand.
pub fn twelve_answers()
    ensures { TwelveAnswers }
{}
