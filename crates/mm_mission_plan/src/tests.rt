//! A mission that is worked out on paper: one pass over Malargue, which stands in a file.
use crate::{Fault, PlannedMission, Tables, plan_mission_text};
use mm_base::Refused;
use std::process::Abort;
use std::test::Fail;

trait Runtime: Abort + AllocGlobal {}

impl<R: Abort + AllocGlobal> Runtime for R {}

// 16 MB are 16,000,000 octets, which are 15,625 blocks of 1,024 octets. 20 MB are 20,000 packets of 1,000 octets.
static MALARGUE: &str = "packet = 1000\n\
    passes = \"passes.csv\"\n\
    [[store]]\nid = \"CAM\"\nsize = \"16 MB\"\n\
    [[observation]]\nstore = \"CAM\"\nbegin = 2031-03-03T00:00:00Z\nend = 2031-03-03T06:00:00Z\nvolume = \"20 MB\"\n";

static PASSES: &str = "station,begin,end,rate\n\
    Malargue,2031-03-03T06:00:00Z,2031-03-03T07:00:00Z,64 kbit/s\n";

fn planned(rt: &impl Runtime, passes: Option<&[u8]>) -> Result<PlannedMission, Fault> {
    let tables = Tables {
        stores: None,
        stations: None,
        passes,
        observations: None,
    };
    plan_mission_text(rt.alloc(), MALARGUE.as_bytes(), &tables)
}

// 64 kbit/s are 8 packets of 1,000 octets a second, which are 28,800 in an hour; there are 15,625.
#[test]
fn a_pass_over_malargue(rt: HostRuntime) -> Result<(), Fail> {
    let planned = planned(&rt, Some(PASSES.as_bytes()))?;
    assert!(rt; planned.unit == 1 && planned.loss == 4_375);
    assert!(rt; planned.steps.len() == 2);
    assert!(rt; planned.steps[0].arrived == 20_000 && planned.steps[0].lost == 4_375);
    assert!(rt; planned.steps[1].dumped == 15_625 && planned.steps[1].held == 0);
    let forecast = "step,window,CAM\n1,0,20000\n2,28800,0\n";
    assert!(rt; planned.forecast.as_slice() == forecast.as_bytes());
    // 15,625,000 octets in an hour are 34,722.2 bit/s
    let timeline = "pass,station,begin,end,store,packets,octets,bit/s\n\
        Malargue 1,Malargue,2031-03-03T06:00:00Z,2031-03-03T07:00:00Z,CAM,15625,15625000,34722\n";
    assert!(rt; planned.timeline.as_slice() == timeline.as_bytes());
    Ok(())
}

#[test]
fn a_file_that_is_named_is_given(rt: HostRuntime) -> Result<(), Fail> {
    let Err(fault) = planned(&rt, None) else {
        return Err(Fail::from("planned"));
    };
    let words = format!(in rt.alloc(); "{fault}")?;
    assert!(rt; words.as_str() == "the mission names a file of passes, which is not given");
    assert!(rt; fault.number() == 57);
    Ok(())
}
