//! Charts of texts.
ghost use Rattle.std.specs.Prelude.{◌≡◌, IfOk};
ghost use Rattle.mm_base.specs.Reading.{IfRefused};
ghost use Rattle.mm_cut.specs.declared.fault.Fault.TheVariants as fault;
ghost use Rattle.mm_cut.specs.Checking.{IsFaultOf};
ghost use Rattle.mm_chart.specs.Charts.{chart, Charts};

use crate::headline::push_headline;
use crate::layout::word_line;
use crate::pen::Part::{Number, Said};
use crate::pen::{parts, push_parts, push_said};
use crate::picture::Picture;
use crate::rows::push_rows;
use crate::words::{push_words, word_lines};
use mm_base::NoMemory;
use mm_cut::{Fault, read_texts};
use std::alloc::Global;

/// The beginning of the document, up to its height.
pub const OPENING: &[u8] =
    b"<svg xmlns='http://www.w3.org/2000/svg' version='1.1' viewBox='0 0 1100 ";

/// The rest of its first line.
pub const FONT: &[u8] = b"' font-family='sans-serif' font-size='13'>\n";

/// How each kind of mark and word looks, and the ground. What counts in the cut is hatched, so that it shows without
/// colours too.
pub const STYLES: &[u8] =
    b"<style>.h{font-size:20px;font-weight:bold}.m{font-size:15px;font-weight:bold;fill:#c4161c}\
    .a{font-size:20px;font-weight:bold;fill:#c4161c}.n{font-weight:bold;text-anchor:end}\
    .s{fill:#444;font-size:12px;text-anchor:end}.t{fill:#444;font-size:12px}.r{fill:#c4161c;font-weight:bold}\
    .k{fill:#444;font-size:12px;text-anchor:middle}.b{font-weight:bold}.i{fill:none;stroke:#bbb;stroke-width:.5}\
    .o{fill:none;stroke:#222;stroke-width:.5}.c{fill:url(#cut);stroke:#7a5c00;stroke-width:.5}\
    .e{fill:#b07d00;stroke:#000;stroke-width:.5}.g{fill:#9cc3e6}.f{fill:#2f6fb0}\
    .l{fill:#c4161c;stroke:#000;stroke-width:.5}.p{fill:#cfd4da}.u{fill:#58646f}.v{fill:#8d59c4}</style>\n\
    <defs><pattern id='cut' width='5' height='5' patternUnits='userSpaceOnUse'>\
    <rect width='5' height='5' fill='#fbe29b'/><path d='M0 5L5 0' stroke='#b88a1a' stroke-width='.8'/>\
    </pattern></defs>\n<rect width='100%' height='100%' fill='#fff'/>\n";

/// The chart of the plan that the plan text says, for the problem that the setup and the forecast say. The faults come
/// in this order: of the setup, of the forecast, of the plan text, of its shape.
pub fn chart_bytes(
    alloc: Global,
    setup: &[u8],
    forecast: &[u8],
    plan: &[u8],
) -> Result<Vec<u8>, Fault>
    ensures chart { IfOk result (λ text. Charts setup.now forecast.now plan.now text.items) }
    ensures refused { IfRefused fault.NoMemory result (IsFaultOf setup.now forecast.now plan.now) }
{
    let (problem, sheet) = read_texts(alloc, setup, forecast, plan)?;
    let picture = Picture::new(alloc, problem, sheet)?;
    Ok(draw(alloc, &picture)?)
}

/// The document of a picture: Scalable Vector Graphics (SVG) 1.1, by itself.
#[tactic(auto, using(crate::proofs::Ranges::drawing), unfolding(crate::specs::Charts::chart))]
pub fn draw(alloc: Global, picture: &Picture) -> Result<Vec<u8>, NoMemory>
    ensures { IfOk result (λ text. text.items ≡ chart picture.now) }
{
    let height = word_line(picture.problem(), word_lines(picture));
    let mut text = Vec::new(alloc);
    parts!(&mut text; Said(OPENING), Number(height), Said(FONT))?;
    push_said(&mut text, STYLES)?;
    push_headline(alloc, &mut text, picture)?;
    push_rows(&mut text, picture)?;
    push_words(&mut text, picture)?;
    push_said(&mut text, b"</svg>\n")?;
    Ok(text)
}
