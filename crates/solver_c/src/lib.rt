// The solver's call for C programs and the solver: the same call under its C name.
#![tactic(auto)]

ghost use Rattle.std.specs.Prelude.{◌≡◌};
ghost use Rattle.papers.specs.Call.{called};

// Answers 27 if the key is not readable, 26 if its job is over the program's sizes, else the check of the plan for its job: the answer's
// number times 2^32, plus its place.
#[unsafe(no_mangle)]
pub extern "C" fn check(key: &[u8], plan: &[u8]) -> u64
    ensures { result ≡ called key.now plan.now }
{
    solver::check(key, plan)
}
