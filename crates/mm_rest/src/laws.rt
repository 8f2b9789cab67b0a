//! Laws on the rest of a problem after a step of a plan, and after a halt. The contract of each function is a law.
ghost use Rattle.mm_rest.specs.HaltLaws.{HaltsAddUp, HaltsPlanAnew};
ghost use Rattle.mm_rest.specs.Laws.{LossesAddUp, PlansAnew};

/// A plan loses what it loses up to a step, and what its later amounts lose in the rest of the problem after that step.
pub fn losses_add_up()
    ensures { LossesAddUp }
{}

/// A least plan for the rest after a step of a plan, joined to its amounts up to that step, loses fewest of all plans
/// with these.
pub fn least_rests_plan_anew()
    ensures { PlansAnew }
{}

/// A plan that goes on from a halt loses what the run lost up to the halted step, and what the plan for the rest loses.
pub fn halts_add_up()
    ensures { HaltsAddUp }
{}

/// A least plan for what is left of a halted step, added to what the run dumped, loses fewest of all plans that go on
/// from the halt and fit, also with what was spent in vain.
pub fn least_rests_of_halts_plan_anew()
    ensures { HaltsPlanAnew }
{}
