//! What the definitions of this crate mean. Each function is a law, which its contract states.
ghost use Rattle.std.specs.Prelude.{◌≡◌, ◌*◌, ◌^◌};
ghost use Rattle.mm_utc.specs.Calendar.{days_of_years};
ghost use Rattle.mm_utc.specs.Laws.{ReadsPrinted, TakesLowest, UnitsDiffer};
ghost use Rattle.mm_utc.specs.declared.calendar.TheConstants.{DAYS, LAST_YEAR};
ghost use Rattle.mm_utc.specs.declared.clock.TheConstants.{SECOND, MINUTE, HOUR, DAY};
ghost use Rattle.mm_utc.specs.declared.fraction.TheConstants.{MOST};
ghost use Rattle.mm_utc.specs.declared.moment.TheConstants.{MOMENTS};

/// What a moment is printed as is read as that moment.
pub fn printed_moments_are_read()
    ensures { ReadsPrinted }
{}

/// A number or an amount that is read is in lowest terms.
pub fn amounts_are_in_lowest_terms()
    ensures { TakesLowest }
{}

/// Each unit has a name of its own.
pub fn units_differ()
    ensures { UnitsDiffer }
{}

/// The numbers of the constants.
pub fn constants_are()
    ensures most { MOST ≡ 2 ^ 50 }
    ensures last_year { LAST_YEAR ≡ 9999 }
    ensures days { DAYS ≡ days_of_years LAST_YEAR }
    ensures moments { MOMENTS ≡ DAYS * DAY }
    ensures day { DAY ≡ 24 * HOUR }
    ensures hour { HOUR ≡ 60 * MINUTE }
    ensures minute { MINUTE ≡ 60 * SECOND }
    ensures second { SECOND ≡ 1000000 }
{}
