//! Laws of programs.
ghost use Rattle.std.specs.Prelude.{◌≡◌, ◌≢◌, ℕ, ◌<◌};
ghost use Rattle.plan_model.specs.Plans.{IsPlan, Plan};
ghost use Rattle.program_model.specs.declared.instruction.Instruction.TheVariants.{Take};
ghost use Rattle.program_model.specs.Programs.{program, at, tail};
ghost use Rattle.program_model.specs.States.{Given, state};
ghost use Rattle.program_model.specs.Proper.{with_got};

/// A state reads only the words of the takes before it.
pub fn reads_taken()
    ensures { (given : Given) (got : ℕ → ℕ) (q : ℕ)
        → ((p n i : ℕ) → p < q → at (program given.plan given.party given.session) p ≡ Take n i → given.got n ≡ got n)
        → state given q ≡ state (with_got given got) q }
{}

/// A program takes no message twice.
pub fn takes_differ()
    ensures { (plan : Plan) (s p q r n i m j : ℕ) → IsPlan plan → q < r → at (program plan p s) q ≡ Take n i
        → at (program plan p s) r ≡ Take m j → n ≢ m }
{}

/// The numbers that a program takes in a slot rise.
pub fn takes_rise()
    ensures { (plan : Plan) (s p k q r n i m j : ℕ) → q < r → at (tail plan p s k) q ≡ Take n i
        → at (tail plan p s k) r ≡ Take m j → n < m }
{}
