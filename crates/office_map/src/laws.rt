//! Laws of the definitions that the contracts cite.

ghost use Rattle.office_map.specs.PlanText.{ReadsInOrder};
ghost use Rattle.office_map.specs.Consistency.{ReadsCompletePlans};
ghost use Rattle.office_map.specs.RefusedLines.{RefusesALine};
ghost use Rattle.office_map.specs.NumberPlans.{NumbersMeanTheSame};
ghost use Rattle.office_map.specs.Precedence.{AnOrderHasNoRing, OneOrderIsLeastFirst};
ghost use Rattle.office_map.specs.OrderOrRing.{AnOrderOrARing};

/// Reading accepts all lines, one after the other, or stops at the first that is refused.
pub fn reads_in_order()
    ensures { ReadsInOrder }
{}

/// Lines without a fault give consistent tables and two offices, and a refusal names a line of
/// the text, or 0.
pub fn reads_complete_plans()
    ensures { ReadsCompletePlans }
{}

/// A refusal is of the first faulty line, or of the whole text: one that is too long, says nothing
/// or has too few offices.
pub fn refuses_a_line()
    ensures { RefusesALine }
{}

/// A text that isn't of version 2 is read as one of numbers alone, in every word and fault.
pub fn numbers_mean_the_same()
    ensures { NumbersMeanTheSame }
{}

/// Offices in an order hold no ring.
pub fn an_order_has_no_ring()
    ensures { AnOrderHasNoRing }
{}

/// A consistent plan has an order or a ring.
pub fn an_order_or_a_ring()
    ensures { AnOrderOrARing }
{}

/// No two orders are least first.
pub fn one_order_is_least_first()
    ensures { OneOrderIsLeastFirst }
{}
