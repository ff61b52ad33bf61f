//! Laws of the definitions. Each call does nothing; its contract is the law.

ghost use Rattle.warg_p256.specs.Laws.{VerifiedExactly};

/// The test that a verifier names is true exactly where the relation of the standard holds.
pub fn verified_exactly()
    ensures { VerifiedExactly }
{}
