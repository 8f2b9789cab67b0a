//! The numbers and the verdict of a picture, and its debug text.
ghost use Rattle.mm_chart.specs.Series.{IsSeries};

use crate::tests::charts::SHOWN;
use crate::tests::charts::samples::has_lines;
use crate::tests::samples::{FIRST_RUN, Runtime, SCI, THREE_STEPS, holds};
use mm_chart::{Column, Picture, Series, draw};
use mm_cut::{Parts, Verdict, read_sheet};
use mm_plan::simulate;
use mm_problem::read_problem;

// For each series its number in the first step and in the last, the sum and the largest number.
static NUMBERS: [(Series, [u64; 4]); 13] = [
    (Series::WindowCounts, [1, 0, 2, 1]),
    (Series::CountedWindow, [2, 0, 4, 2]),
    (Series::Window, [2, 0, 4, 2]),
    (Series::Used, [2, 0, 4, 2]),
    (Series::ChannelCounts(0), [0, 0, 0, 0]),
    (Series::Sent(0), [2, 0, 4, 2]),
    (Series::LimitsCount, [0, 0, 0, 0]),
    (Series::Inner(0), [1, 0, 2, 1]),
    (Series::Last(0), [0, 1, 1, 1]),
    (Series::LeftAndSent(0), [3, 4, 11, 4]),
    (Series::Left(0), [1, 4, 7, 4]),
    (Series::Lost(0), [0, 2, 2, 2]),
    (Series::Size(0), [4, 4, 12, 4]),
];

// These numbers of a picture with three steps.
fn numbers_of(picture: &Picture, series: Series) -> [u64; 4]
    requires { IsSeries picture.now series }
{
    let column = Column::new(picture, series);
    let (first, last) = (column.amount_at(1), column.amount_at(3));
    [first, last, column.total(), column.most()]
}

const PARTS: Parts = Parts {
    coming: 10,
    held: 4,
    windows: 4,
    limits: 0,
};

// The picture of the plan for the problem of the texts.
fn picture_of(rt: &impl Runtime) -> Picture {
    let problem = read_problem(rt.alloc(), SCI.as_bytes(), THREE_STEPS.as_bytes());
    let problem = problem.expect(rt, "a problem");
    let sheet = read_sheet(rt.alloc(), &problem, FIRST_RUN.as_bytes()).expect(rt, "a plan");
    Picture::new(rt.alloc(), problem, sheet).expect(rt, "memory")
}

// The picture has three steps, and these numbers.
fn has_numbers(rt: &impl Runtime, picture: &Picture) {
    assert!(rt; picture.problem().steps() == 3);
    for (series, wanted) in NUMBERS {
        holds(
            rt,
            numbers_of(picture, series) == wanted,
            "the numbers of the picture",
        );
    }
}

#[test]
fn a_picture_has_the_numbers_of_its_plan(rt: HostRuntime) {
    has_numbers(&rt, &picture_of(&rt));
}

#[test]
fn a_picture_has_the_verdict_of_its_plan(rt: HostRuntime) {
    let picture = picture_of(&rt);
    assert!(rt; picture.verdict() == Verdict::Least(2));
    assert!(rt; picture.parts() == PARTS);
}

#[test]
fn a_picture_is_drawn_with_these_lines(rt: HostRuntime) {
    let chart = draw(rt.alloc(), &picture_of(&rt)).expect(&rt, "memory");
    let chart = String::from_utf8(chart).expect(&rt, "UTF-8");
    has_lines(&rt, chart.as_str(), &SHOWN);
}

// The debug text of the picture's problem, sheet, verdict, volumes and shades.
fn shown_by_fields(rt: &impl Runtime, picture: &Picture) -> String {
    let (problem, verdict) = (picture.problem(), picture.verdict());
    let sheet = read_sheet(rt.alloc(), problem, FIRST_RUN.as_bytes()).expect(rt, "a plan");
    let volumes = simulate(rt.alloc(), problem, sheet.plan()).expect(rt, "memory");
    let shown = format!(in rt.alloc();
        "Picture {{ problem: {problem:?}, sheet: {sheet:?}, verdict: {verdict:?}, volumes: {volumes:?}, worth: None, shades: [Shade {{ store: 0, channel: 0, first: 1, last: 3, end: 3 }}] }}"
    );
    shown.expect(rt, "memory")
}

#[test]
fn a_picture_is_shown_without_its_marks(rt: HostRuntime) {
    let picture = picture_of(&rt);
    let shown = format!(in rt.alloc(); "{picture:?}").expect(&rt, "memory");
    let wanted = shown_by_fields(&rt, &picture);
    holds(&rt, shown.as_str() == wanted.as_str(), "the picture");
}
