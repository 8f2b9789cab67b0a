//! Each refusal as it is printed, and its words.
use crate::tests::samples::{Host, holds, is_shown};
use mm_base::Refusal;
use mm_cut::Verdict;
use mm_told::Words;

// Refusals, and the name that each is printed with.
macro_rules! names {
    ($($refusal:ident $($name:literal)?),*) => { [$((Refusal::$refusal, names!(of $refusal $($name)?))),*] };
    (of $refusal:ident) => { stringify!($refusal) };
    (of $refusal:ident $name:literal) => { $name };
}

// Each refusal in the order of its number, from 0, by the tables of docs/FORMATS.md: five a line. It is printed with
// its own name, or with the one beside it.
static ALL: [(Refusal, &str); 59] = names! {
    NoMemory, Short, Version, NoSecondaryHeader, PusVersion,
    Segmented, IdlePacket "Idle", HeaderCut, TooLong, HoldsMore,
    NoSuchRoute, TableFull, NotSt15, UnknownSubtype, CountMismatch,
    BadId, BadEnum, Disabled, Busy, NoRetrieval "Idle",
    BadRange, ClockEnd, WindowFull, NoSuchStore, Exists,
    TooManyStores, StorageOn, SetupText, SetupField, ForecastText,
    Header, Cell, StepNumber, Limit, PlanText,
    Shape, Unbounded, SameEnds, PlanShape, NotReady,
    SizeDiffers, OpeningDiffers, ClockTooLate, PlanDoesNotFit, Counts,
    NoMemoryInStep "NoMemory", LinkFailed, LogMismatch, BadSize, HexLine,
    NotRead, SourcesText, LinksText, ChannelDiffers, TooManyReports,
    NotFlyable, MissionText, MissionTable, MissionRow
};

#[test]
fn refusals_are_printed_with_number_and_name(rt: HostRuntime) {
    for (number, (refusal, name)) in ALL.iter().enumerate() {
        let text = format!(in rt.alloc(); "{number} {name}").expect(&rt, "memory");
        holds(&rt, usize::from(refusal.number()) == number, name);
        is_shown(&rt, refusal, text.as_str());
    }
}

fn have_no_full_stop(rt: &impl Host, words: Words) {
    for text in [words.expected, words.advice] {
        holds(rt, !text.as_bytes().ends_with(b"."), text);
    }
}

// Two refusals have words of their own.
fn differ(rt: &impl Host, words: Words, others: Words) {
    holds(rt, words.expected != others.expected, words.expected);
    holds(rt, words.advice != others.advice, words.expected);
}

// None of these refusals has the words.
fn are_of_none(rt: &impl Host, words: Words, refusals: &[(Refusal, &str)]) {
    for (refusal, _name) in refusals {
        differ(rt, words, Words::of(*refusal));
    }
}

// The words have no full stop, are those of no other refusal, and are found by the refusal's number.
#[test]
fn each_refusal_has_words_of_its_own(rt: HostRuntime) {
    for (i, (refusal, name)) in ALL.iter().enumerate() {
        let words = Words::of(*refusal);
        have_no_full_stop(&rt, words);
        are_of_none(&rt, words, &ALL[..i]);
        let found = Words::of_number(refusal.number());
        holds(&rt, found == Some(words), name);
    }
    assert!(rt; Words::of_number(59).is_none(), "a number of no refusal");
}

static FINDINGS: [Verdict; 7] = [
    Verdict::DoesNotFit(1),
    Verdict::LossIs(2),
    Verdict::BadStretch(3),
    Verdict::BadCount(4),
    Verdict::BoundIs(-5),
    Verdict::NotShown { loss: 6, bound: 5 },
    Verdict::FirstNotShown(7),
];

fn words_of(rt: &impl Host, verdict: Verdict) -> Words {
    Words::of_verdict(verdict).expect(rt, "words")
}

// None of these findings has the words.
fn are_of_no_finding(rt: &impl Host, words: Words, findings: &[Verdict]) {
    for verdict in findings {
        differ(rt, words, words_of(rt, *verdict));
    }
}

#[test]
fn findings_have_words_of_their_own(rt: HostRuntime) {
    for (i, verdict) in FINDINGS.iter().enumerate() {
        let words = words_of(&rt, *verdict);
        have_no_full_stop(&rt, words);
        are_of_no_finding(&rt, words, &FINDINGS[..i]);
    }
    for least in [Verdict::Least(1), Verdict::LeastInOrder(1)] {
        assert!(rt; Words::of_verdict(least).is_none(), "a least plan");
    }
}

// If a number of the plan differs, the plan may belong to another setup or forecast: the words do not tell the user to
// write the number that fits.
static OF_OTHER_TEXTS: [(Verdict, &str); 2] = wanted! {
    Verdict::LossIs(2)
    => "expected the loss that the plan has, which is the number printed; take the setup and the forecast that it \
        was planned for; if dumps were changed, plan again";
    Verdict::BoundIs(-5)
    => "expected the bound that the cut has, which is the number printed; take the setup and the forecast that it \
        was planned for, or plan again";
};

#[test]
fn a_plan_of_other_texts_is_told(rt: HostRuntime) {
    for (verdict, text) in &OF_OTHER_TEXTS {
        is_shown(&rt, &words_of(&rt, *verdict), text);
    }
}

static SHOWN: [(Refusal, &str); 3] = wanted! {
    Refusal::Cell
    => "expected a whole number of at most 1,000,000, without sign or leading zeros; write plain digits, without \
        spaces";
    Refusal::NoRetrieval => "expected a store with a retrieval on; begin a retrieval with subtype 9";
    Refusal::Shape
    => "expected a plan for the stores and the steps of this setup and this forecast; take the plan that was made \
        from them";
};

#[test]
fn words_are_shown_in_one_line(rt: HostRuntime) {
    for (refusal, text) in &SHOWN {
        is_shown(&rt, &Words::of(*refusal), text);
    }
}
