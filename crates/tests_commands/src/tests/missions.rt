//! Missions in UTC, through the whole program.

use crate::tests::samples::answers;

// A camera with room for 16,000 packets of 1,000 octets, and the housekeeping with room for 4,000.
const DAY: &str = "\
begin = 2031-03-03T00:00:00Z\nend = 2031-03-03T18:00:00Z\npacket = 1000\nblock = 1000\n\
stations = \"stations.csv\"\npasses = \"/flown/passes.csv\"\n\
[[store]]\nid = \"CAM\"\nsize = \"16 MB\"\n[[store]]\nid = \"HK\"\nsize = \"4 MB\"\n\
[[observation]]\nstore = \"CAM\"\nbegin = 2031-03-03T00:00:00Z\nend = 2031-03-03T06:00:00Z\nvolume = \"20 MB\"\n\
[[observation]]\nstore = \"HK\"\nbegin = 2031-03-03T00:00:00Z\nend = 2031-03-03T06:00:00Z\nvolume = \"2 MB\"\n\
[[observation]]\nstore = \"CAM\"\nbegin = 2031-03-03T07:00:00Z\nend = 2031-03-03T12:00:00Z\nvolume = \"9 MB\"\n";

const STATIONS: &str = "name,rate\nNew Norcia,64 kbit/s\nMalargue,32 kbit/s\n";

const PASSES: &str = "\
station,begin,end
New Norcia,2031-03-03T06:00:00Z,2031-03-03T07:00:00Z
Malargue,2031-03-03T12:00:00Z,2031-03-03T12:30:00Z
";

// 20,000 packets of CAM come before the first pass, so 4,000 are lost. New Norcia takes 8 packets a second, which are
// 28,800 in its hour, so all 18,000 go: 16,000,000 octets in 3,600 s are 35,555.6 bits a second, and 2,000,000 are
// 4,444.4. Malargue takes 4 a second, which are 7,200 of the 9,000 that came; 1,800 stay.
const SHEET: &str = "\
pass,station,begin,end,store,packets,octets,bit/s,before,after,lost
before the first pass,,2031-03-03T00:00:00Z,2031-03-03T06:00:00Z,CAM,0,0,0,0,16000,4000
New Norcia 1,New Norcia,2031-03-03T06:00:00Z,2031-03-03T07:00:00Z,CAM,16000,16000000,35555,16000,0,0
New Norcia 1,New Norcia,2031-03-03T06:00:00Z,2031-03-03T07:00:00Z,HK,2000,2000000,4444,2000,0,0
Malargue 1,Malargue,2031-03-03T12:00:00Z,2031-03-03T12:30:00Z,CAM,7200,7200000,32000,9000,1800,0
Malargue 1,Malargue,2031-03-03T12:00:00Z,2031-03-03T12:30:00Z,HK,0,0,0,0,0,0
";

// The steps end at 06:00, 07:00, 12:00, 12:30 and 18:00.
const FORECAST: &str =
    "step,window,CAM,HK\n1,0,20000,2000\n2,28800,0,0\n3,0,9000,0\n4,7200,0,0\n5,0,0,0\n";

const LOST: &str = "note: 4000 packets will be lost; no plan loses fewer\n";

// A script of the mission, whose tables of stations and of passes have these names. The table of stations lies in the
// folder of the mission; that of passes does not.
fn script<'a>(words: &'a str, stations: &'a str, passes: &'a str) -> [&'a str; 7] {
    [
        words,
        "=== plans/day.toml\n",
        DAY,
        "=== plans/stations.csv\n",
        stations,
        "=== /flown/passes.csv\n",
        passes,
    ]
}

#[test]
fn a_mission_prints_its_sheet_and_its_forecast(rt: HostRuntime) {
    let sheet = script("mission plans/day.toml\n", STATIONS, PASSES);
    answers(&rt, &sheet, SHEET, LOST, 0);
    let forecast = script("mission --forecast plans/day.toml\n", STATIONS, PASSES);
    answers(&rt, &forecast, FORECAST, LOST, 0);
}

const NO_STATION: &str = "\
plans/day.toml: expected rows in their ranges, which name stores and stations that are there, for at most 256 steps; \
correct the row that is named
hint: the pass in row 2 is over no station of the table
";

const NO_RATE: &str = "\
plans/day.toml: expected a mission in TOML, and tables in CSV with the columns of docs/FORMATS.md; correct the key, the \
cell or the line that is named
hint: the file of stations: row 1, column rate: a unit of volumes, not of rates: write it a second, as kbit/s
";

#[test]
fn a_mission_is_refused_with_its_first_fault(rt: HostRuntime) {
    let stations = "name,rate\nNew Norcia,64 kbit/s\n";
    let unknown = script("mission plans/day.toml\n", stations, PASSES);
    answers(&rt, &unknown, "refused 58 MissionRow\n", NO_STATION, 1);
    let unrated = script(
        "mission plans/day.toml\n",
        "name,rate\nMalargue,64 kbit\n",
        PASSES,
    );
    answers(&rt, &unrated, "refused 56 MissionText\n", NO_RATE, 1);
}
