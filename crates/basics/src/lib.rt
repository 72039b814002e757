// What several layers build on: a search among tests here, and beside it definitions (specs/) and laws (proofs/) of numbers and lists.
#![tactic(auto)]

ghost use Rattle.std.specs.Prelude.{◌≡◌, length};
ghost use Rattle.basics.specs.Lists.{first_false, some_below};

// The place of the first test that is false.
pub fn first_false(tests: &[bool]) -> Option<usize>
    ensures { result ≡ some_below (length tests.now) (first_false tests.now) }
{
    tests.iter().position(|test| !*test)
}
