//! The table of refusals: the words of each, in the order of their numbers.

// For each refusal what was expected, and what to do. The macro `$write` makes code of the rows and what it is given.
macro_rules! refusals {
    ($write:ident($($given:expr),*)) => {
        $write! {
            ($($given),*)
            NoMemory: "memory for the task", "free some memory, and run again";
            Short: "a whole packet: 6 octets, and then as many as the packet data length says",
                "send the packet again, or correct its length";
            Version: "packet version number 0", "set the first three bits of the packet to 0";
            NoSecondaryHeader: "a packet with a secondary header",
                "set the secondary header flag, and write the header";
            PusVersion: "PUS version 2 in the secondary header", "write the secondary header in that version";
            Segmented: "an unsegmented packet, with the sequence flags 11", "send the packet unsegmented";
            IdlePacket: "an APID from 0 to 2046, since 2047 is that of idle packets", "leave idle packets out";
            HeaderCut: "a data field with a whole secondary header: 5 octets in a telecommand, 15 in telemetry",
                "write the header whole, and correct the packet data length";
            TooLong: "a packet of at most 1,024 octets, which is the room of a block",
                "send the data in several packets";
            HoldsMore: "a new size of at least as many blocks as the store holds packets",
                "delete packets with subtype 11 first, or choose a larger size";
            NoSuchRoute: "a row that the storage control has", "list the store's rows with subtype 5";
            TableFull: "fewer than 256 rows in the storage control", "delete a row with subtype 4 first";
            NotSt15: "a telecommand of service 15 (a report is telemetry of service 15)", "address the storage service";
            UnknownSubtype: "a subtype that the storage service has", "look up the subtypes in docs/PACKETS.md";
            CountMismatch: "a count and that many instructions, at least one, or no data in subtypes 18 and 22",
                "count the instructions, and compare the length of the data with their width";
            BadId: "an identifier of 1 to 8 of the characters A-Z, 0-9, _ and -",
                "correct the identifier; in a request it is padded on the right with spaces to 8 octets";
            BadEnum: "type 0 or 1, a virtual channel from 0 to 7, an APID from 0 to 2046",
                "look up the mission's channels and APIDs; type 0 is circular, 1 is bounded";
            Disabled: "a store with storage on", "enable storage into it with subtype 1";
            Busy: "a store with no retrieval on", "abort the retrieval with subtype 17";
            NoRetrieval: "a store with a retrieval on", "begin a retrieval with subtype 9";
            BadRange: "a range of times that does not end before it begins", "swap its ends";
            ClockEnd: "a last storage time and a count of offers below 2^64 - 1",
                "create another store with subtype 20";
            WindowFull: "a draw of at most the blocks that are left of the pass window", "draw fewer blocks";
            NoSuchStore: "the identifier of a store that is there",
                "list the stores with subtype 22, or create this one with subtype 20";
            Exists: "an identifier that no store has yet",
                "choose another identifier, or delete that store with subtype 21";
            TooManyStores: "fewer than 16 stores", "delete a store with subtype 21 first";
            StorageOn: "a store with storage off", "disable storage into it with subtype 2";
            SetupText: "a TOML document in UTF-8",
                "look for a bracket or a quote that is missing, a name that comes twice, or a number that is too large";
            SetupField: "the keys that docs/FORMATS.md lists for this table, each with an allowed value, and no \
                store, route or limit twice",
                "look for a key that is missing, misspelt or has a value of another kind";
            ForecastText: "as many cells in each record as in the header", "look for a comma too few or too many";
            Header: "a header of step, window and the setup's stores in their order",
                "copy the identifiers from the setup";
            Cell: "a whole number of at most 1,000,000, without sign or leading zeros",
                "write plain digits, without spaces";
            StepNumber: "the number of the next step, where the first is 1", "number the records 1, 2, 3 and so on";
            Limit: "a number in its range, or as many tables or records as there can be",
                "correct the number, or how many there are; docs/FORMATS.md has the ranges";
            PlanText: "the line that a plan text has there, with a line feed at its end",
                "compare it with the table 'Plan text' of docs/FORMATS.md, or plan again";
            Shape: "a plan for the stores and the steps of this setup and this forecast",
                "take the plan that was made from them";
            Unbounded: "a limited arc on each path from the source to the sink",
                "limit an arc of the path that has none";
            SameEnds: "a source and a sink that are two nodes", "name two nodes";
            PlanShape: "a plan for as many stores and steps as the problem has",
                "plan again for this setup and forecast";
            NotReady: "the stores of the setup and no others, each with storage on and no retrieval on",
                "create or delete the store, enable storage with subtype 1, or abort the retrieval with subtype 17";
            SizeDiffers: "a store of the size that the setup says", "resize it with subtype 25, or correct the setup";
            OpeningDiffers: "a store that holds as many packets as the setup's start says",
                "give it those packets at step 0, or correct start in the setup";
            ClockTooLate: "a moment before the first step and last storage times of at most 2^63 ticks",
                "begin earlier, or with new stores";
            PlanDoesNotFit: "amounts that fit the window and the channels' limits in each step",
                "dump less in that step, or plan again";
            Counts: "1 to 8 sources and 1 to 4 links", "count them; a source needs a line in the file of sources";
            NoMemoryInStep: "memory for this step",
                "free some memory, and plan the rest; the report of the steps before is right";
            LinkFailed: "a link that takes the packet",
                "plan the rest with another link; nothing of that order was deleted";
            LogMismatch: "stores that refuse no packet of the step: storage is on, and another offer and a later \
                storage time can be counted",
                "enable storage with subtype 1, or create another store with subtype 20";
            BadSize: "a size from 1 to 1,000,000 blocks", "choose another size";
            HexLine: "one packet in hexadecimal digits, two for each octet, and nothing after it",
                "write one packet a line, and compare its packet data length with its octets";
            NotRead: "a file that is there, can be read and has at most 2^30 bytes",
                "check its name and who may read it";
            SourcesText: "a source from 1 to 8, a step from 0 to 256 and a packet of at most 1,024 octets in \
                hexadecimal digits, separated by one space",
                "compare the line with 'Sources as text' in docs/FORMATS.md, and the packet data length with the \
                    octets; it ends with LF alone";
            LinksText: "links N in the first line, and fail LINK SEND in each further line",
                "compare the line with 'Links as text' in docs/FORMATS.md";
            ChannelDiffers: "a store on the virtual channel that the setup says",
                "change the channel with subtype 28, or correct the setup";
            TooManyReports: "reports of a request that may wait within the bound on reports",
                "take the reports that wait, or set a larger bound";
            NotFlyable: "arrivals before dumps, and no sizes by step",
                "take the key arrivals and the columns size: out, and plan again; a run stores what arrives before \
                    it dumps";
            MissionText: "a mission in TOML, and tables in CSV with the columns of docs/FORMATS.md",
                "correct the key, the cell or the line that is named";
            MissionTable: "the tables that the mission names, and no others",
                "name the table in the mission, or leave it out";
            MissionRow: "rows in their ranges, which name stores and stations that are there, for at most 256 steps",
                "correct the row that is named";
        }
    };
}

pub(crate) use refusals;
