//! The forms of a plan text.
ghost use Rattle.std.specs.Prelude.{◌≡◌, length, nat_lt};
ghost use Rattle.std.specs.Option.{option_map};
ghost use Rattle.mm_plan.specs.Reading.{is_third, may_count, fits_form};
ghost use Rattle.mm_plan.specs.Sheet.{form_by};

use crate::certificate::Certificate;

// The first has no counts, the second has some. The third may have some, and says that the plan serves the stores in
// order.
#[derive(Clone, Copy)]
pub(crate) enum Form {
    First,
    Second,
    Third,
}

impl Form {
    // The form of a sheet with these.
    pub(crate) fn of(firsts: Option<&[Certificate]>, by_channels: &[u32]) -> Form
        ensures { result ≡ form_by (option_map (λ cs. cs.now) firsts.entry) (nat_lt 0 (length by_channels.now)) }
    {
        match (firsts, by_channels) {
            (Some(_), _) => Form::Third,
            (None, []) => Form::First,
            (None, _) => Form::Second,
        }
    }

    pub(crate) fn is_third(self) -> bool
        ensures { result ≡ is_third self }
    {
        matches!(self, Form::Third)
    }

    // Whether steps may be counted by channels.
    pub(crate) fn may_count(self) -> bool
        ensures { result ≡ may_count self }
    {
        !matches!(self, Form::First)
    }

    // Whether a certificate of the form has that many counts.
    pub(crate) fn fits(self, counts: usize) -> bool
        ensures { result ≡ fits_form self counts }
    {
        match self {
            Form::First => counts == 0,
            Form::Second => counts > 0,
            Form::Third => true,
        }
    }
}
