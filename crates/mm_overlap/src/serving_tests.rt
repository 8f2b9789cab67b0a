//! Passes that one transmitter serves, worked out on paper.
use crate::better;
use mm_base::{Kind, StoreId};
use mm_mission::{Fault, Mission, Pass, Rate, Span, Store};
use std::process::Abort;

trait Runtime: Abort + AllocGlobal {}

impl<R: Abort + AllocGlobal> Runtime for R {}

fn rate(octets: u64, micros: u64) -> Rate {
    Rate { octets, micros }
}

// A pass from one second to another, with the rate of its link and of the first two channels.
fn pass(begin: u64, end: u64, link: Rate, own: [Option<Rate>; 2]) -> Pass {
    Pass {
        span: Span {
            begin: begin.saturating_mul(1_000_000),
            end: end.saturating_mul(1_000_000),
        },
        rate: link,
        channels: [own[0], own[1], None, None, None, None, None, None],
    }
}

// A mission of 100 seconds with one store, which is sent on the first channel, and no passes.
fn mission(rt: &impl Runtime) -> Mission {
    let stores = [Store {
        id: StoreId::of_text(b"SCI").expect(rt, "an identifier"),
        kind: Kind::Circular,
        packet: 200,
        unit: 1,
        micros: 1_000_000,
        size: 100,
        start: 50,
        channel: 0,
    }];
    let stores = Vec::from_slice(rt.alloc(), &stores).expect(rt, "memory");
    Mission::new(
        100_000_000,
        stores,
        Vec::new(rt.alloc()),
        Vec::new(rt.alloc()),
    )
    .expect(rt, "a mission")
}

#[test]
fn the_pass_that_can_send_most_of_the_stores_channels_is_served(rt: HostRuntime) {
    // the first pass sends 200 octets a second. The link of the second one is faster, but it can send only 100 of the
    // store's channel; its other channel has no store. The third one sends a third of an octet more in a second than
    // the first
    let second = 1_000_000;
    let passes = [
        pass(10, 40, rate(200, second), [None; 2]),
        pass(
            20,
            50,
            rate(400, second),
            [Some(rate(100, second)), Some(rate(400, second))],
        ),
        pass(25, 30, rate(601, 3 * second), [None; 2]),
    ];
    let served = better(rt.alloc(), &mission(&rt), &passes).expect(&rt, "parts");
    let wanted = [
        pass(10, 25, passes[0].rate, [None; 2]),
        passes[2],
        pass(30, 40, passes[0].rate, [None; 2]),
        Pass {
            span: Span {
                begin: 40 * second,
                end: 50 * second,
            },
            ..passes[1]
        },
    ];
    assert!(rt; served.mission.passes() == wanted.as_slice());
    assert!(rt; served.numbers.as_slice() == [0, 2, 0, 1].as_slice());
}

#[test]
fn rates_without_a_common_time_are_refused(rt: HostRuntime) {
    // 3^31 microseconds are 617,673,396,283,947; with 2 microseconds there are 1,235,346,792,567,894 in common, which
    // is above 2^50, 1,125,899,906,842,624
    let odd = pass(20, 40, rate(1, 617_673_396_283_947), [None; 2]);
    let passes = [
        pass(10, 30, rate(1, 1), [None; 2]),
        odd,
        pass(0, 10, rate(1, 2), [None; 2]),
    ];
    let whole = mission(&rt);
    let refused = better(rt.alloc(), &whole, &passes).err();
    assert!(rt; refused == Some(Fault::BadPass { row: 2 }));
    assert!(rt; better(rt.alloc(), &whole, &passes[..2]).is_ok());
}
