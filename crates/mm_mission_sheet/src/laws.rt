//! What tables are. The contract of each function is a law.
ghost use Rattle.mm_mission_sheet.specs.Laws.{TablesAreReadBack, TimelinesFit, PlansFit, LossesAddUp};

/// A table is read back as its cells.
pub fn tables_are_read_back()
    ensures { TablesAreReadBack }
{}

/// The dumps of a timeline can be printed.
pub fn timelines_fit()
    ensures { TimelinesFit }
{}

/// What the steps of a plan do can be printed.
pub fn plans_fit()
    ensures { PlansFit }
{}

/// What all rows of a store lose is what all steps lose of it.
pub fn losses_add_up()
    ensures { LossesAddUp }
{}
