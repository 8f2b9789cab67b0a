//! A mission that begins at a moment, and the names of its passes.
ghost use Rattle.std.specs.Prelude.{◌≡◌, ◌+◌, ◌-◌, ◌*◌, ◌/◌, ◌^◌, ◌<◌, ◌≤◌, length, map, IfSome};
ghost use Rattle.mm_utc.specs.declared.moment.TheConstants.{MOMENTS};
ghost use Rattle.mm_mission.specs.Mission.{store_at};
ghost use Rattle.mm_mission_sheet.specs.Cells.{cell_text};
ghost use Rattle.mm_mission_sheet.specs.Rows.{name_cells, pass_cells, sent_cells, bits_a_second, IsSent};

use crate::cell::Cell;
use mm_mission::{Mission, Span};
use mm_utc::{MOMENTS, Moment};

/// The station and the name of a pass.
#[derive(Clone, Copy, Debug)]
pub struct PassName<'a> {
    pub station: &'a str,
    pub name: &'a str,
}

// A mission, when it begins, and the names of its passes.
#[derive(Drop)]
pub(crate) struct Flight<'a> {
    pub begin: Moment,
    pub mission: &'a Mission,
    pub names: &'a [PassName<'a>],
    ghost named: { length names.now ≡ length mission.now.passes },
    ghost in_years: { begin + mission.now.lasts < MOMENTS },
}

// Packets of a store that are sent in a time: in a pass, or in none.
#[derive(Clone, Copy)]
pub(crate) struct Sent {
    pub pass: Option<usize>,
    pub span: Span,
    pub store: usize,
    pub packets: u128,
}

// The bits that so many octets have in a second, where they are sent in a time, rounded down.
fn bits_a_second(octets: u128, span: &Span) -> u128
    requires some { span.now.begin < span.now.end }
    requires few { octets ≤ 2 ^ 100 }
    ensures { result ≡ bits_a_second octets span.now }
{
    octets * 8 * 1_000_000 / u128::from(span.end - span.begin)
}

impl<'a> Flight<'a> {
    // The moment at a time of the mission.
    fn moment(&self, time: u64) -> Moment
        requires { time ≤ self.now.mission.now.lasts }
        ensures { result ≡ self.now.begin + time }
    {
        Moment::new(self.begin.microseconds() + time)
    }

    // The names of a pass; without one, the name is `none`.
    fn named(&self, none: &'a str, pass: Option<usize>) -> PassName<'a>
        requires { IfSome pass (λ p. p < length self.now.mission.now.passes) }
        ensures { name_cells result ≡ pass_cells self.now.names.now none.now pass }
    {
        match pass {
            Some(pass) => self.names[pass],
            None => PassName {
                name: none,
                station: "",
            },
        }
    }

    // The cells that say what is sent; without a pass the name is `none`.
    pub(crate) fn sent_cells(&self, none: &'a str, sent: &Sent) -> [Cell<'a>; 8]
        requires { IsSent self.now.mission.now sent.now }
        ensures { map cell_text result
            ≡ sent_cells self.now.begin self.now.mission.now self.now.names.now none.now sent.now }
    {
        let store = self.mission.store_at(sent.store);
        let octets = sent.packets * u128::from(store.packet);
        let named = self.named(none, sent.pass);
        [
            Cell::Text(named.name),
            Cell::Text(named.station),
            Cell::Moment(self.moment(sent.span.begin)),
            Cell::Moment(self.moment(sent.span.end)),
            Cell::Id(store.id),
            Cell::Number(sent.packets),
            Cell::Number(octets),
            Cell::Number(bits_a_second(octets, &sent.span)),
        ]
    }
}
