//! Maurer's protocol over replicated additive shares (Maurer 2006; Ito, Saito, Nishizeki 1987) as definitions: how a
//! value is dealt, how a product is made of the parties' own products, and what the gates of a circuit make of the
//! summands of their wires.
#![tactic(auto)]

ghost use Rattle.std.specs.Prelude.{◌≡◌, ℕ};
ghost use Rattle.secret_sharing.specs.Schemes.{Scheme, IsScheme, Run, IsRun, DealtAddUp, SumIsPlain};
ghost use Rattle.secret_sharing.specs.Prepared.{PreparedAddUp};

/// What is dealt adds up to the value that is dealt, whatever the tape words are.
pub fn dealt_add_up()
    ensures { (scheme : Scheme) → IsScheme scheme → DealtAddUp scheme }
{}

/// The summands of every wire add up to its plain value, for all nine operations.
pub fn summands_add_up()
    ensures { (run : Run) → IsRun run → (start : ℕ → ℕ) → SumIsPlain run start }
{}

/// The summands of a prepared product add up to the product, whatever its masks are (Beaver 1991).
pub fn prepared_products_add_up()
    ensures { (scheme : Scheme) → IsScheme scheme → PreparedAddUp scheme }
{}
