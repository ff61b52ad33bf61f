//! The curve P-256 and its group (SEC 1, 2.2.1; SEC 2, 2.4.2): what a point is, what the sum of two
//! points is, that the points are a group, and how many the multiples of the base point are.
//!
//! It has no code: other crates cite its definitions and proofs. Each function here does nothing,
//! and its contract is a law.
#![tactic(auto)]

ghost use Rattle.warg_curve.specs.Curve.{base};
ghost use Rattle.warg_curve.specs.Group.{IsOnCurve};
ghost use Rattle.warg_curve.specs.Laws.{SumsStay, SumsCommute, SumsAssociate};
ghost use Rattle.warg_curve.specs.Laws.{HasInfinity, HasNegatives, DoublesAreSums};
ghost use Rattle.warg_curve.specs.Laws.{MultiplesAdd, MultiplesNest};
ghost use Rattle.warg_curve.specs.Laws.{BaseHasOrder, MultiplesOfBaseDiffer};

/// The sum of two points of the curve is a point of the curve.
pub fn sums_stay()
    ensures { SumsStay }
{}

/// The sum of two points does not depend on their order.
pub fn sums_commute()
    ensures { SumsCommute }
{}

/// The sum of three points does not depend on which two are added first.
pub fn sums_associate()
    ensures { SumsAssociate }
{}

/// The point at infinity changes no sum, and the mirror image of a point takes it back.
pub fn sums_have_inverses()
    ensures infinity { HasInfinity }
    ensures negatives { HasNegatives }
{}

/// The double of a point is its sum with itself.
pub fn doubles_are_sums()
    ensures { DoublesAreSums }
{}

/// A multiple by a sum is the sum of the multiples, and by a product a multiple of a multiple.
pub fn multiples_add()
    ensures sums { MultiplesAdd }
    ensures products { MultiplesNest }
{}

/// The base point is on the curve. Its multiples are as many points as the order says: two are
/// one point exactly where their numbers are one modulo the order.
pub fn base_has_order()
    ensures on_curve { IsOnCurve base }
    ensures order { BaseHasOrder }
    ensures multiples { MultiplesOfBaseDiffer }
{}
