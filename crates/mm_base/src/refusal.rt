//! Every refusal, with its number and its name.
ghost use Rattle.std.specs.Prelude.{◌≡◌};
ghost use Rattle.mm_base.specs.Refusals.{entry_of, number_of, name_of};

use std::fmt;

/// A refusal. It is shown as its number, a space and its name.
#[derive(Clone, Copy, Debug, PartialEq, Eq)]
pub enum Refusal {
    /// An allocation was refused.
    NoMemory,
    /// The octets end before the packet does.
    Short,
    /// The packet version number is not 000.
    Version,
    /// The secondary header flag is 0.
    NoSecondaryHeader,
    /// The PUS version number is not 2.
    PusVersion,
    /// The sequence flags are not 11.
    Segmented,
    /// The APID is that of idle packets.
    IdlePacket,
    /// The data field is shorter than its secondary header.
    HeaderCut,
    /// The packet is longer than a block.
    TooLong,
    /// The store holds more packets than the new size has blocks.
    HoldsMore,
    /// The storage control does not have the row.
    NoSuchRoute,
    /// The storage control has no room for another row.
    TableFull,
    /// The packet does not belong to the storage service.
    NotSt15,
    /// The storage service has no such subtype.
    UnknownSubtype,
    /// The data do not have the length that the count before them says.
    CountMismatch,
    /// The text or the field is not an identifier.
    BadId,
    /// A type, a virtual channel or an APID is not allowed.
    BadEnum,
    /// Storage into the store is off.
    Disabled,
    /// A retrieval from the store is on.
    Busy,
    /// No retrieval from the store is on.
    NoRetrieval,
    /// A range of times begins after its end.
    BadRange,
    /// There is no later storage time, or no further offer can be counted.
    ClockEnd,
    /// A draw is larger than the rest of the pass window.
    WindowFull,
    /// No store has the identifier.
    NoSuchStore,
    /// A store has the identifier already.
    Exists,
    /// The memory already has the greatest number of stores.
    TooManyStores,
    /// Storage into the store is on.
    StorageOn,
    /// The setup is not a TOML document.
    SetupText,
    /// A key of the setup is unknown or missing, or its value has the wrong type, is not allowed, or is repeated.
    SetupField,
    /// The records of the forecast do not all have the length of its header.
    ForecastText,
    /// The header of the forecast does not name the stores of the setup in their order, or has a wrong column of
    /// limits.
    Header,
    /// A cell of the forecast is not a number.
    Cell,
    /// A record of the forecast does not have the number of the next step.
    StepNumber,
    /// A value is out of its range, or a text has too few or too many of something.
    Limit,
    /// A line of the plan text is not the one that the format has at this place.
    PlanText,
    /// The plan is for other stores or for another number of steps.
    Shape,
    /// A path of unlimited arcs leads from the source to the sink.
    Unbounded,
    /// The source and the sink are the same node.
    SameEnds,
    /// The plan to be carried out is for other stores or for another number of steps.
    PlanShape,
    /// A store is missing, is not of the problem, has its storage off, or has a retrieval on.
    NotReady,
    /// The size of a store is not the one in the setup.
    SizeDiffers,
    /// A store does not hold as many packets as its start volume in the setup.
    OpeningDiffers,
    /// The first moment of a run, or a store's last storage time, leaves too little time for the run.
    ClockTooLate,
    /// A step of the plan dumps more than its pass window or than a channel's limit.
    PlanDoesNotFit,
    /// There are too few or too many sources or links.
    Counts,
    /// An allocation was refused in a step of a run.
    NoMemoryInStep,
    /// A link failed to send a packet.
    LinkFailed,
    /// A store refused a packet in a step of a run: its storage is off, or no further offer or storage time can be
    /// counted.
    LogMismatch,
    /// A store's size is out of its range.
    BadSize,
    /// A line is not one packet in hexadecimal digits.
    HexLine,
    /// A file could not be read.
    NotRead,
    /// A line of the sources is not one that the format allows.
    SourcesText,
    /// A line of the links is not one that the format allows.
    LinksText,
    /// The virtual channel of a store is not the one in the setup.
    ChannelDiffers,
    /// More reports of the storage service would wait than the bound that was set.
    TooManyReports,
    /// The arrivals of a step come during its dumps, or a store has sizes by step: no run carries this out.
    NotFlyable,
    /// The text of a mission, or a table of it, is not what it should be.
    MissionText,
    /// The text of a mission names a table that is not given, or a table is given that it does not name.
    MissionTable,
    /// A row of a mission is out of its range, contradicts another one or names what is not there, or there are too many.
    MissionRow,
}

impl Refusal {
    // The number and the name of the refusal.
    fn entry(self) -> (u8, &'static str)
        ensures number { result.0 ≡ (entry_of self).0 }
        ensures name { result.1.now ≡ (entry_of self).1 }
    {
        match self {
            Refusal::NoMemory => (0, "NoMemory"),
            Refusal::Short => (1, "Short"),
            Refusal::Version => (2, "Version"),
            Refusal::NoSecondaryHeader => (3, "NoSecondaryHeader"),
            Refusal::PusVersion => (4, "PusVersion"),
            Refusal::Segmented => (5, "Segmented"),
            Refusal::IdlePacket => (6, "Idle"),
            Refusal::HeaderCut => (7, "HeaderCut"),
            Refusal::TooLong => (8, "TooLong"),
            Refusal::HoldsMore => (9, "HoldsMore"),
            Refusal::NoSuchRoute => (10, "NoSuchRoute"),
            Refusal::TableFull => (11, "TableFull"),
            Refusal::NotSt15 => (12, "NotSt15"),
            Refusal::UnknownSubtype => (13, "UnknownSubtype"),
            Refusal::CountMismatch => (14, "CountMismatch"),
            Refusal::BadId => (15, "BadId"),
            Refusal::BadEnum => (16, "BadEnum"),
            Refusal::Disabled => (17, "Disabled"),
            Refusal::Busy => (18, "Busy"),
            Refusal::NoRetrieval => (19, "Idle"),
            Refusal::BadRange => (20, "BadRange"),
            Refusal::ClockEnd => (21, "ClockEnd"),
            Refusal::WindowFull => (22, "WindowFull"),
            Refusal::NoSuchStore => (23, "NoSuchStore"),
            Refusal::Exists => (24, "Exists"),
            Refusal::TooManyStores => (25, "TooManyStores"),
            Refusal::StorageOn => (26, "StorageOn"),
            Refusal::SetupText => (27, "SetupText"),
            Refusal::SetupField => (28, "SetupField"),
            Refusal::ForecastText => (29, "ForecastText"),
            Refusal::Header => (30, "Header"),
            Refusal::Cell => (31, "Cell"),
            Refusal::StepNumber => (32, "StepNumber"),
            Refusal::Limit => (33, "Limit"),
            Refusal::PlanText => (34, "PlanText"),
            Refusal::Shape => (35, "Shape"),
            Refusal::Unbounded => (36, "Unbounded"),
            Refusal::SameEnds => (37, "SameEnds"),
            Refusal::PlanShape => (38, "PlanShape"),
            Refusal::NotReady => (39, "NotReady"),
            Refusal::SizeDiffers => (40, "SizeDiffers"),
            Refusal::OpeningDiffers => (41, "OpeningDiffers"),
            Refusal::ClockTooLate => (42, "ClockTooLate"),
            Refusal::PlanDoesNotFit => (43, "PlanDoesNotFit"),
            Refusal::Counts => (44, "Counts"),
            Refusal::NoMemoryInStep => (45, "NoMemory"),
            Refusal::LinkFailed => (46, "LinkFailed"),
            Refusal::LogMismatch => (47, "LogMismatch"),
            Refusal::BadSize => (48, "BadSize"),
            Refusal::HexLine => (49, "HexLine"),
            Refusal::NotRead => (50, "NotRead"),
            Refusal::SourcesText => (51, "SourcesText"),
            Refusal::LinksText => (52, "LinksText"),
            Refusal::ChannelDiffers => (53, "ChannelDiffers"),
            Refusal::TooManyReports => (54, "TooManyReports"),
            Refusal::NotFlyable => (55, "NotFlyable"),
            Refusal::MissionText => (56, "MissionText"),
            Refusal::MissionTable => (57, "MissionTable"),
            Refusal::MissionRow => (58, "MissionRow"),
        }
    }

    /// The refusal's number.
    pub fn number(self) -> u8
        ensures number { result ≡ number_of self }
    {
        self.entry().0
    }

    /// The refusal's name.
    pub fn name(self) -> &'static str
        ensures name { result.now ≡ name_of self }
    {
        self.entry().1
    }
}

impl fmt::Display for Refusal {
    fn fmt<W: fmt::Write>(&self, f: &mut fmt::Formatter<W>) -> fmt::Result {
        let (number, name) = self.entry();
        write!(f, "{number} {name}")
    }
}
