//! The columns of the tables of a mission, and the keys of its text.
ghost use Rattle.std.specs.Prelude.{◌≡◌, option_map};
ghost use Rattle.mm_mission_text.specs.Columns.{name_of, is_same, channel_key};

use std::fmt;

/// A column of a table, or a key of a text in TOML. `Channel0` to `Channel7` have the rates of channels.
#[derive(Clone, Copy, Debug, PartialEq, Eq)]
pub enum Column {
    Id,
    Size,
    Type,
    Channel,
    Holds,
    Packet,
    Name,
    Station,
    Store,
    Begin,
    End,
    Rate,
    Volume,
    Channel0,
    Channel1,
    Channel2,
    Channel3,
    Channel4,
    Channel5,
    Channel6,
    Channel7,
    Channels,
    Block,
    Overlap,
    Unit,
    Pass,
    Observation,
    Stores,
    Stations,
    Passes,
    Observations,
}

impl Column {
    /// The name of the column in a header, or of the key in a text.
    #[must_use]
    #[tactic(auto, unfolding(crate::specs::Columns::name_of))]
    pub fn name(self) -> &'static str
        ensures { result.now ≡ name_of self }
    {
        match self {
            Column::Id => "id",
            Column::Size => "size",
            Column::Type => "type",
            Column::Channel => "channel",
            Column::Holds => "holds",
            Column::Packet => "packet",
            Column::Name => "name",
            Column::Station => "station",
            Column::Store => "store",
            Column::Begin => "begin",
            Column::End => "end",
            Column::Rate => "rate",
            Column::Volume => "volume",
            Column::Channel0 => "channel:0",
            Column::Channel1 => "channel:1",
            Column::Channel2 => "channel:2",
            Column::Channel3 => "channel:3",
            Column::Channel4 => "channel:4",
            Column::Channel5 => "channel:5",
            Column::Channel6 => "channel:6",
            Column::Channel7 => "channel:7",
            Column::Channels => "channels",
            Column::Block => "block",
            Column::Overlap => "overlap",
            Column::Unit => "unit",
            Column::Pass => "pass",
            Column::Observation => "observation",
            Column::Stores => "stores",
            Column::Stations => "stations",
            Column::Passes => "passes",
            Column::Observations => "observations",
        }
    }

    // The key of a channel's rate in the table `channels`.
    #[tactic(auto, unfolding(crate::specs::Columns::channel_key))]
    pub(crate) fn channel_key(self) -> Option<&'static str>
        ensures { option_map (λ key. key.now) result ≡ channel_key self }
    {
        match self {
            Column::Channel0 => Some("0"),
            Column::Channel1 => Some("1"),
            Column::Channel2 => Some("2"),
            Column::Channel3 => Some("3"),
            Column::Channel4 => Some("4"),
            Column::Channel5 => Some("5"),
            Column::Channel6 => Some("6"),
            Column::Channel7 => Some("7"),
            _ => None,
        }
    }

    // Whether two columns have one name.
    pub(crate) fn is_same(self, other: Column) -> bool
        ensures { result ≡ is_same self other }
    {
        self.name() == other.name()
    }
}

impl fmt::Display for Column {
    fn fmt<W: fmt::Write>(&self, f: &mut fmt::Formatter<W>) -> fmt::Result {
        f.write_str(self.name())
    }
}
