//! The rows of a chart.
ghost use Rattle.std.specs.Prelude.{◌≡◌, ◌+◌, ◌-◌, ◌*◌, ◌^◌, ◌<◌, ◌≤◌, ◌++◌, OnOk, IsTrue, length, flat_map};
ghost use Rattle.mm_base.specs.declared.limits.TheConstants.{MAX_STORES, MAX_STEPS, MAX_BLOCKS};
ghost use Rattle.mm_problem.specs.Dumping.{IsDumping, row, stores, steps, channels};
ghost use Rattle.mm_chart.specs.declared.series.Series.TheVariants.{Window, Used, Sent, Lost};
ghost use Rattle.mm_chart.specs.Picture.{has_worth};
ghost use Rattle.mm_chart.specs.Series.{IsSeries, total_of, most_of, most_limit, most_lost, most_saved, whole_of};
ghost use Rattle.mm_chart.specs.Layout.{edge, IsPlaced};
ghost use Rattle.mm_chart.specs.Svg.{printed, drawn};
ghost use Rattle.mm_chart.specs.Rows.{right, frame, saves, windows_words, windows_row, limit_front, limit_back};
ghost use Rattle.mm_chart.specs.Rows.{channel_words, channel_row, coming_to, all_coming, store_side};
ghost use Rattle.mm_chart.specs.Rows.{store_loss};
ghost use Rattle.mm_chart.specs.Rows.{store_words, size_line, store_bars, larger, store_row, tick, rows};

use crate::column::Column;
use crate::layout::{
    LARGER_AT, LEFT, NAME_AT, RAISED_AT, SAVED_AT, TALL, THIN, TICK_AT, WINDOW_BASE, bottom,
    channel_base, edge_at, has_limit, step_width, steps_width, store_base, tick_every,
};
use crate::legend::{push_legend, push_windows_keys};
use crate::pen::Part::{Grouped, Name, Number, Said};
use crate::pen::{
    Pushed, Style, label, push_column, push_frame, push_guide, push_label, push_profile,
};
use crate::phrases::SAVES;
use crate::picture::Picture;
use crate::series::Series;
use mm_problem::Problem;

// Where the words at the right of a row begin.
fn right(problem: &Problem) -> u32
    ensures { result ≡ right problem.now }
{
    LEFT + steps_width(problem) + 8
}

// The frame of a row.
fn push_row_frame(text: &mut Vec<u8>, problem: &Problem, base: u32, height: u32) -> Pushed
    requires { height ≤ base }
    ensures { OnOk result (text.new.items ≡ text.old.items ++ printed (frame problem.now base height)) }
{
    push_frame(text, LEFT, base - height, steps_width(problem), height)
}

#[tactic(auto, using(crate::proofs::Ranges::placing), unfolding(crate::specs::Rows::windows_words))]
fn push_windows_words(
    text: &mut Vec<u8>,
    picture: &Picture,
    most: u64,
    used: u64,
    windows: u64,
) -> Pushed
    requires most { most ≡ most_of picture.now Window }
    requires used { used ≡ total_of picture.now Used }
    requires windows { windows ≡ total_of picture.now Window }
    ensures { OnOk result (text.new.items ≡ text.old.items ++ drawn (windows_words picture.now)) }
{
    let right = right(picture.problem());
    let (upper, lower) = (WINDOW_BASE - 18, WINDOW_BASE - 4);
    label!(text; Name NAME_AT, upper; Said(b"windows"))?;
    label!(text; Side NAME_AT, lower; Said(b"up to "), Grouped(most))?;
    label!(text; Total right, upper; Grouped(used), Said(b" sent"))?;
    label!(text; Total right, lower; Said(b"of "), Grouped(windows))
}

#[tactic(auto, using(crate::proofs::Ranges::drawing), unfolding(crate::specs::Rows::windows_row))]
fn push_windows_row(text: &mut Vec<u8>, picture: &Picture) -> Pushed
    ensures { OnOk result (text.new.items ≡ text.old.items ++ drawn (windows_row picture.now)) }
{
    let windows = Column::new(picture, Series::Window);
    let used = Column::new(picture, Series::Used);
    let most = windows.most();
    push_profile(text, picture, Series::WindowCounts, 1)?;
    push_column(text, &windows, most)?;
    push_column(text, &used, most)?;
    push_row_frame(text, picture.problem(), WINDOW_BASE, TALL)?;
    let (used, windows) = (used.total(), windows.total());
    push_windows_words(text, picture, most, used, windows)?;
    push_windows_keys(text, picture, used, windows)
}

// The most that one larger window or limit saves, where that is known.
fn most_saved(picture: &Picture) -> u64
    ensures saved { IsTrue (has_worth picture.now) → result ≡ most_saved picture.now }
    ensures most { result ≤ MAX_STORES * 2 ^ 32 }
{
    let mut most: u64 = 0;
    if !picture.has_worth() {
        return most;
    }
    for channel in 0..picture.problem().channels() {
        most = most.max(Column::new(picture, Series::Raised(channel)).most());
    }
    most.max(Column::new(picture, Series::Worth).most())
}

// What a series saves, where that is known and is some: bars, and the most of them. The whole is drawn in full height.
#[tactic(auto, using(crate::proofs::Ranges::placing), unfolding(crate::specs::Rows::saves))]
fn push_saves(text: &mut Vec<u8>, picture: &Picture, series: Series, y: u32, whole: u64) -> Pushed
    requires series { IsSeries picture.now series }
    requires placed { IsPlaced series }
    requires whole { IsTrue (has_worth picture.now) → whole ≡ whole_of picture.now series }
    requires most { whole ≤ 2 ^ 40 }
    ensures { OnOk result (text.new.items ≡ text.old.items ++ drawn (saves picture.now series y)) }
{
    if !picture.has_worth() {
        return Ok(());
    }
    let column = Column::new(picture, series);
    let most = column.most();
    if most == 0 {
        return Ok(());
    }
    push_column(text, &column, whole)?;
    label!(text; Side NAME_AT, y; Said(SAVES), Grouped(most))
}

// The greatest limit of a channel in a step.
#[tactic(auto, using(crate::proofs::Ranges::largest_next))]
fn most_limit(problem: &Problem, channel: u8) -> u32
    ensures { result ≡ most_limit problem.now channel }
{
    let mut most: u32 = 0;
    for step in 1..problem.steps() + 1 {
        most = most.max(problem.limit(channel, step).unwrap_or(0));
    }
    most
}

// What stands before and after the limit of a channel.
#[tactic(auto, unfolding(crate::specs::Rows::limit_front, crate::specs::Rows::limit_back))]
fn limit_words(problem: &Problem, channel: u8) -> (&'static [u8], &'static [u8])
    ensures front { result.0.now ≡ limit_front problem.now channel }
    ensures back { result.1.now ≡ limit_back problem.now channel }
{
    if problem.limited().contains(&channel) {
        (b": up to ", b"")
    } else {
        (b": ", b" a step")
    }
}

#[tactic(auto, using(crate::proofs::Ranges::placing), unfolding(crate::specs::Rows::channel_words))]
fn push_channel_words(
    text: &mut Vec<u8>,
    picture: &Picture,
    channel: u8,
    limit: u32,
    sent: u64,
) -> Pushed
    requires limit { limit ≡ most_limit picture.now.problem channel }
    requires sent { sent ≡ total_of picture.now (Sent channel) }
    ensures { OnOk result (text.new.items ≡ text.old.items ++ drawn (channel_words picture.now channel)) }
{
    let problem = picture.problem();
    let y = channel_base(problem, channel) - 5;
    let (front, back) = limit_words(problem, channel);
    let (number, most) = (u32::from(channel), u64::from(limit));
    label!(text; Side NAME_AT, y; Said(b"channel "), Number(number), Said(front), Grouped(most), Said(back))?;
    label!(text; Total right(problem), y; Grouped(sent), Said(b" sent"))
}

// The row of a channel, and nothing for one without a limit.
#[tactic(auto, using(crate::proofs::Ranges::drawing), unfolding(crate::specs::Rows::channel_row))]
fn push_channel_row(text: &mut Vec<u8>, picture: &Picture, channel: u8, saved: u64) -> Pushed
    requires saved { IsTrue (has_worth picture.now) → saved ≡ most_saved picture.now }
    requires most { saved ≤ 2 ^ 40 }
    ensures { OnOk result (text.new.items ≡ text.old.items ++ drawn (channel_row picture.now channel)) }
{
    let problem = picture.problem();
    if has_limit(problem, channel) == 0 {
        return Ok(());
    }
    let sent = Column::new(picture, Series::Sent(channel));
    let limit = most_limit(problem, channel);
    let base = channel_base(problem, channel);
    push_profile(text, picture, Series::ChannelCounts(channel), 1)?;
    push_column(text, &sent, u64::from(limit))?;
    push_row_frame(text, problem, base, THIN)?;
    push_channel_words(text, picture, channel, limit, sent.total())?;
    push_saves(
        text,
        picture,
        Series::Raised(channel),
        base - RAISED_AT,
        saved,
    )
}

// What a store holds at the beginning and what comes to it.
#[tactic(auto, using(crate::proofs::Ranges::sum_by_next), unfolding(crate::specs::Rows::coming_to))]
fn coming_to(picture: &Picture, store: usize) -> u64
    requires { store < length picture.now.problem.rows }
    ensures coming { result ≡ coming_to picture.now store }
    ensures most { result ≤ 2 ^ 45 }
{
    let mut coming = u64::from(picture.problem().start(store));
    for step in 1..picture.problem().steps() + 1 {
        coming += u64::from(picture.problem().arrivals(store, step));
    }
    coming
}

// What comes to all stores.
#[tactic(auto, using(mm_base::proofs::RangeSums::sum_by_range_more))]
pub(crate) fn all_coming(picture: &Picture) -> u64
    ensures { result ≡ all_coming picture.now }
{
    let mut coming: u64 = 0;
    for store in 0..picture.problem().stores() {
        coming += coming_to(picture, store);
    }
    coming
}

// The most that any store loses in a step.
fn most_lost(picture: &Picture) -> u64
    ensures lost { result ≡ most_lost picture.now }
    ensures most { result ≤ MAX_STORES * 2 ^ 32 }
{
    let mut most: u64 = 0;
    for store in 0..picture.problem().stores() {
        most = most.max(Column::new(picture, Series::Lost(store)).most());
    }
    most
}

// The size and the channel of a store.
#[tactic(auto, unfolding(crate::specs::Rows::store_side))]
fn push_store_side(text: &mut Vec<u8>, y: u32, size: u32, channel: u8) -> Pushed
    ensures { OnOk result (text.new.items ≡ text.old.items ++ printed (store_side y size channel)) }
{
    let (size, channel) = (u64::from(size), u32::from(channel));
    label!(text; Side NAME_AT, y; Grouped(size), Said(b", channel "), Number(channel))
}

// What a store loses, in words.
#[tactic(auto, unfolding(crate::specs::Rows::store_loss))]
fn push_store_loss(
    text: &mut Vec<u8>,
    picture: &Picture,
    store: usize,
    base: u32,
    lost: u64,
) -> Pushed
    requires base { 18 ≤ base }
    requires lost { lost ≡ total_of picture.now (Lost store) }
    ensures { OnOk result (text.new.items ≡ text.old.items ++ printed (store_loss picture.now store base)) }
{
    let (right, y) = (right(picture.problem()), base - 18);
    if lost == 0 {
        return label!(text; Total right, y; Said(b"nothing lost"));
    }
    label!(text; Loss right, y; Grouped(lost), Said(b" lost"))
}

// A line at the size of a store in each step, and nothing where it has one size.
#[tactic(auto, using(crate::proofs::Ranges::placing), unfolding(crate::specs::Rows::size_line))]
fn push_size_line(text: &mut Vec<u8>, picture: &Picture, store: usize) -> Pushed
    requires store { store < length picture.now.problem.rows }
    requires few { store < MAX_STORES }
    ensures { OnOk result (text.new.items ≡ text.old.items ++ drawn (size_line picture.now store)) }
{
    let problem = picture.problem();
    if problem.one_size(store).is_some() {
        return Ok(());
    }
    let size = u64::from(problem.setup_size(store));
    push_profile(text, picture, Series::Size(store), size)
}

// The outlines of a store's stretches, of what stands in it, and of its size.
#[tactic(auto, using(crate::proofs::Ranges::placing), unfolding(crate::specs::Rows::store_bars))]
fn push_store_bars(text: &mut Vec<u8>, picture: &Picture, store: usize) -> Pushed
    requires store { store < length picture.now.problem.rows }
    requires few { store < MAX_STORES }
    ensures { OnOk result (text.new.items ≡ text.old.items ++ drawn (store_bars picture.now store)) }
{
    let size = u64::from(picture.problem().setup_size(store));
    push_profile(text, picture, Series::Inner(store), 1)?;
    push_profile(text, picture, Series::Last(store), 1)?;
    push_profile(text, picture, Series::LeftAndSent(store), size)?;
    push_profile(text, picture, Series::Left(store), size)?;
    push_size_line(text, picture, store)
}

#[tactic(auto, using(crate::proofs::Ranges::placing), unfolding(crate::specs::Rows::store_words))]
fn push_store_words(
    text: &mut Vec<u8>,
    picture: &Picture,
    store: usize,
    base: u32,
    lost: u64,
) -> Pushed
    requires store { store < length picture.now.problem.rows }
    requires base { 18 ≤ base }
    requires lost { lost ≡ total_of picture.now (Lost store) }
    ensures { OnOk result (text.new.items ≡ text.old.items ++ drawn (store_words picture.now store base)) }
{
    let problem = picture.problem();
    let (right, id) = (right(problem), problem.id(store));
    let coming = coming_to(picture, store);
    label!(text; Name NAME_AT, base - 18; Name(&id))?;
    push_store_side(
        text,
        base - 4,
        problem.setup_size(store),
        problem.channel(store),
    )?;
    push_store_loss(text, picture, store, base, lost)?;
    label!(text; Total right, base - 4; Said(b"of "), Grouped(coming))
}

// What a larger store saves at most, where that is known and is some.
#[tactic(auto, using(crate::proofs::Ranges::placing), unfolding(crate::specs::Rows::larger))]
fn push_larger(text: &mut Vec<u8>, picture: &Picture, store: usize, y: u32) -> Pushed
    ensures { OnOk result (text.new.items ≡ text.old.items ++ drawn (larger picture.now store y)) }
{
    let saved = picture.size_worth(store);
    if saved == 0 {
        return Ok(());
    }
    label!(text; Side NAME_AT, y; Said(SAVES), Grouped(saved))
}

#[tactic(auto, using(crate::proofs::Ranges::drawing), unfolding(crate::specs::Rows::store_row))]
fn push_store_row(text: &mut Vec<u8>, picture: &Picture, store: usize, whole: u64) -> Pushed
    requires store { store < length picture.now.problem.rows }
    requires few { store < MAX_STORES }
    requires whole { whole ≡ most_lost picture.now }
    requires most { whole ≤ 2 ^ 40 }
    ensures { OnOk result (text.new.items ≡ text.old.items ++ drawn (store_row picture.now store)) }
{
    let base = store_base(picture.problem(), store);
    let lost = Column::new(picture, Series::Lost(store));
    push_store_bars(text, picture, store)?;
    push_column(text, &lost, whole)?;
    push_row_frame(text, picture.problem(), base, TALL)?;
    push_store_words(text, picture, store, base, lost.total())?;
    push_larger(text, picture, store, base - LARGER_AT)
}

// The number of a step and a line from it through all rows, where a tick is due.
#[tactic(auto, using(crate::proofs::Ranges::drawing), unfolding(crate::specs::Rows::tick))]
fn push_tick(text: &mut Vec<u8>, picture: &Picture, step: u32) -> Pushed
    requires first { 1 ≤ step }
    requires last { step ≤ MAX_STEPS }
    ensures { OnOk result (text.new.items ≡ text.old.items ++ drawn (tick picture.now step)) }
{
    let problem = picture.problem();
    if step != 1 && step % tick_every(problem.steps()) != 0 {
        return Ok(());
    }
    let width = step_width(problem);
    let x = edge_at(width, step - 1) + width / 2;
    label!(text; Tick x, TICK_AT; Number(step))?;
    push_guide(text, x, TICK_AT + 4, bottom(problem))
}

/// Writes the keys, the ticks, and the rows of the windows, the channels with a limit, and the stores.
#[tactic(auto, using(crate::proofs::Ranges::drawing), unfolding(crate::specs::Rows::rows))]
pub fn push_rows(text: &mut Vec<u8>, picture: &Picture) -> Pushed
    ensures { OnOk result (text.new.items ≡ text.old.items ++ drawn (rows picture.now)) }
{
    let problem = picture.problem();
    let (lost, saved) = (most_lost(picture), most_saved(picture));
    push_legend(text, picture, lost, saved)?;
    label!(text; Side NAME_AT, TICK_AT; Said(b"step"))?;
    for step in 1..problem.steps() + 1 {
        push_tick(text, picture, step)?;
    }
    push_windows_row(text, picture)?;
    push_saves(text, picture, Series::Worth, SAVED_AT, saved)?;
    for channel in 0..problem.channels() {
        push_channel_row(text, picture, channel, saved)?;
    }
    for store in 0..problem.stores() {
        push_store_row(text, picture, store, lost)?;
    }
    Ok(())
}
