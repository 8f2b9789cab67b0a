//! What the colours of a chart mean: a key for each that is there.
ghost use Rattle.std.specs.Prelude.{◌≡◌, ◌++◌, OnOk, IsTrue};
ghost use Rattle.mm_chart.specs.declared.series.Series.TheVariants.{Used, Window};
ghost use Rattle.mm_chart.specs.Picture.{has_worth};
ghost use Rattle.mm_chart.specs.Series.{total_of, most_lost, most_saved};
ghost use Rattle.mm_chart.specs.Legend.{key_if, stays, windows_keys, numbers_keys, legend};
ghost use Rattle.mm_chart.specs.Svg.{drawn};

use crate::column::Column;
use crate::layout::is_limited;
use crate::pen::{Pushed, push_said};
use crate::picture::Picture;
use crate::series::Series;

pub const STAYS_KEY: &[u8] = b"<rect class='f' x='16' y='44' width='12' height='12'/>\
    <text class='t' x='32' y='54'>stays in the store</text>\n";

pub const LEAVES_KEY: &[u8] = b"<rect class='g' x='170' y='44' width='12' height='12'/>\
    <text class='t' x='186' y='54'>leaves in this step</text>\n";

pub const WINDOW_KEY: &[u8] = b"<rect class='p' x='330' y='44' width='12' height='12'/>\
    <text class='t' x='346' y='54'>window</text>\n";

pub const USED_KEY: &[u8] = b"<rect class='u' x='420' y='44' width='12' height='12'/>\
    <text class='t' x='436' y='54'>used</text>\n";

pub const LOST_KEY: &[u8] = b"<rect class='l' x='510' y='44' width='12' height='12'/>\
    <text class='t' x='526' y='54'>lost in this step (one scale for all stores)</text>\n";

pub const COUNTS_KEY: &[u8] = b"<rect class='c' x='16' y='62' width='12' height='12'/>\
    <text class='t' x='32' y='72'>counts in the cut</text>\n";

pub const LAST_KEY: &[u8] = b"<rect class='e' x='170' y='62' width='12' height='12'/>\
    <text class='t' x='186' y='72'>last step of a stretch: the size of the store counts</text>\n";

pub const SENT_KEY: &[u8] = b"<rect class='v' x='510' y='62' width='12' height='12'/>\
    <text class='t' x='526' y='72'>sent on a channel with a limit</text>\n";

/// The key of a store's size in each step, with its look.
pub const SIZE_KEY: &[u8] =
    b"<style>.z{fill:none;stroke:#000;stroke-width:1.5;stroke-dasharray:4 2}</style>\n\
    <rect class='z' x='810' y='44' width='12' height='12'/>\
    <text class='t' x='826' y='54'>size of the store in this step</text>\n";

/// The key of what larger windows and limits save, with its colour.
pub const SAVED_KEY: &[u8] = b"<style>.q{fill:#1e8a4c;stroke:#000;stroke-width:.5}</style>\n\
    <rect class='q' x='730' y='62' width='12' height='12'/>\
    <text class='t' x='746' y='72'>saved by a wider window or a higher limit (one scale)</text>\n";

// Whether something stays in a store.
#[tactic(auto, using(crate::proofs::Ranges::list_any_first))]
fn stays(picture: &Picture) -> bool
    ensures { result ≡ stays picture.now }
{
    let mut stays = false;
    for store in 0..picture.problem().stores() {
        stays = stays || Column::new(picture, Series::Left(store)).total() > 0;
    }
    stays
}

// A key where what it names is there.
#[tactic(auto, using(crate::proofs::Ranges::placing), unfolding(crate::specs::Legend::key_if))]
fn push_key(text: &mut Vec<u8>, there: bool, key: &[u8]) -> Pushed
    ensures { OnOk result (text.new.items ≡ text.old.items ++ drawn (key_if there key.now)) }
{
    if !there {
        return Ok(());
    }
    push_said(text, key)
}

/// Writes the keys of what is in the row of the windows, and of what leaves by them.
#[tactic(auto, using(crate::proofs::Ranges::drawing), unfolding(crate::specs::Legend::windows_keys))]
pub(crate) fn push_windows_keys(
    text: &mut Vec<u8>,
    picture: &Picture,
    used: u64,
    windows: u64,
) -> Pushed
    requires used { used ≡ total_of picture.now Used }
    requires windows { windows ≡ total_of picture.now Window }
    ensures { OnOk result (text.new.items ≡ text.old.items ++ drawn (windows_keys picture.now)) }
{
    push_key(text, used > 0, LEAVES_KEY)?;
    push_key(text, windows > 0, WINDOW_KEY)?;
    push_key(text, used > 0, USED_KEY)
}

// Writes the keys of what is sent on channels with a limit, of sizes of single steps, and of what is saved.
#[tactic(auto, using(crate::proofs::Ranges::drawing), unfolding(crate::specs::Legend::numbers_keys))]
fn push_numbers_keys(text: &mut Vec<u8>, picture: &Picture, saved: u64) -> Pushed
    requires { IsTrue (has_worth picture.now) → saved ≡ most_saved picture.now }
    ensures { OnOk result (text.new.items ≡ text.old.items ++ drawn (numbers_keys picture.now)) }
{
    push_key(text, is_limited(picture.problem()), SENT_KEY)?;
    push_key(text, !picture.problem().sized().is_empty(), SIZE_KEY)?;
    push_key(text, picture.has_worth() && saved > 0, SAVED_KEY)
}

/// Writes the other keys.
#[tactic(auto, using(crate::proofs::Ranges::drawing), unfolding(crate::specs::Legend::legend))]
pub(crate) fn push_legend(text: &mut Vec<u8>, picture: &Picture, lost: u64, saved: u64) -> Pushed
    requires lost { lost ≡ most_lost picture.now }
    requires saved { IsTrue (has_worth picture.now) → saved ≡ most_saved picture.now }
    ensures { OnOk result (text.new.items ≡ text.old.items ++ drawn (legend picture.now)) }
{
    push_key(text, stays(picture), STAYS_KEY)?;
    push_key(text, lost > 0, LOST_KEY)?;
    push_key(text, picture.has_inner(), COUNTS_KEY)?;
    push_key(text, !picture.cut().is_empty(), LAST_KEY)?;
    push_numbers_keys(text, picture, saved)
}
