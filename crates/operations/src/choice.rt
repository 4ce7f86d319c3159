// Small tests and choices of numbers.
ghost use Rattle.std.specs.Prelude.{◌≡◌, cond};
ghost use Rattle.operations.specs.Operations.{one_of};

// Whether a number is one of several.
#[tactic(auto, using(crate::proofs::Among::one_of_any))]
pub fn is_one_of<const N: usize>(x: u64, of: [u64; N]) -> bool
    ensures { result ≡ one_of x of.entry }
{
    of.contains(&x)
}

// A number where a test holds, else 0: a field of a record that an operation does not use.
pub fn only_if(test: bool, a: u64) -> u64
    ensures { result ≡ cond test a 0 }
{
    if test { a } else { 0 }
}
