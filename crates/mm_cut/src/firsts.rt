//! Certificates of the first stores, and the verdict on a sheet.
ghost use Rattle.std.specs.Prelude.{◌≡◌, ◌+◌, ◌<◌, ◌≤◌, ◌↔◌, length, Some, All, IsTrue, IsNone, IfSome};
ghost use Rattle.mm_plan.specs.Sheet.{IsSheet};
ghost use Rattle.mm_plan.specs.Table.{amount, HasShape};
ghost use Rattle.mm_cut.specs.Cuts.{IsFirstCut};
ghost use Rattle.mm_cut.specs.FirstBad.{IsFirstBad};
ghost use Rattle.mm_cut.specs.Firsts.{ShowsFirst, ShowFirsts};
ghost use Rattle.mm_cut.specs.Stretches.{store_of, IsStretch};
ghost use Rattle.mm_cut.specs.Verdicts.{IsOwnVerdict, IsVerdictWith, IsSheetVerdict};

use crate::bounds::bound;
use crate::counts::first_bad_count;
use crate::stretches::{first_bad, store_of};
use crate::verdict::{Verdict, verify};
use mm_base::MAX_STORES;
use mm_plan::{Certificate, Plan, Sheet, Stretch, first_loss};
use mm_problem::Problem;

// Whether the stores of the stretches are among the first.
fn are_of_first(problem: &Problem, stores: usize, stretches: &[Stretch]) -> bool
    requires { All (IsStretch problem.now) stretches.now }
    ensures { IsTrue result ↔ All (λ d. store_of problem.now d < stores) stretches.now }
{
    for stretch in stretches {
        if stores <= store_of(problem, stretch) {
            return false;
        }
    }
    true
}

/// Whether stretches and counted steps are a cut of that many of the first stores.
#[must_use]
pub fn is_first_cut(problem: &Problem, stores: usize, stretches: &[Stretch], counts: &[u32]) -> bool
    ensures { IsTrue result ↔ IsFirstCut stores problem.now stretches.now counts.now }
{
    first_bad(problem, stretches).is_none()
        && first_bad_count(problem, stretches, counts).is_none()
        && are_of_first(problem, stores, stretches)
}

/// Whether a certificate shows what that many of the first stores lose by the plan: it says their loss, and a cut of
/// them whose bound is as it says, and both are one number.
#[must_use]
pub fn shows_first(problem: &Problem, plan: &Plan, stores: usize, certificate: &Certificate) -> bool
    requires shape { HasShape problem.now plan.now }
    requires stores { stores ≤ length problem.now.rows }
    ensures { IsTrue result ↔ ShowsFirst stores problem.now (amount plan.now) certificate.now }
{
    let loss = first_loss(problem, plan, stores);
    let stretches = certificate.cut();
    let counts = certificate.by_channels();
    certificate.loss() == loss
        && certificate.bound() == loss as i64
        && is_first_cut(problem, stores, stretches, counts)
        && bound(problem, stretches, counts) == loss as i64
}

/// How many stores the first certificate counts that does not show what they lose by the plan, where the certificates
/// are of the first store, of the first two and so on.
#[must_use]
pub fn first_not_shown(problem: &Problem, plan: &Plan, firsts: &[Certificate]) -> Option<u32>
    requires shape { HasShape problem.now plan.now }
    requires few { length firsts.now ≤ length problem.now.rows }
    ensures none { IsNone result ↔ ShowFirsts problem.now (amount plan.now) firsts.now }
    ensures bad { IfSome result (IsFirstBad (ShowFirsts problem.now (amount plan.now)) firsts.now) }
{
    // its number fits
    prove!(problem.stores() <= MAX_STORES);
    for (place, certificate) in firsts.iter().enumerate() {
        if !shows_first(problem, plan, place + 1, certificate) {
            return Some((place + 1) as u32);
        }
    }
    None
}

// The verdict on a sheet's plan and its cut of all stores.
fn own_verdict(problem: &Problem, sheet: &Sheet) -> Verdict
    requires shape { HasShape problem.now sheet.now.plan }
    requires is_sheet { IsSheet sheet.now }
    ensures { IsOwnVerdict problem.now sheet.now result }
{
    verify(
        problem,
        sheet.plan(),
        sheet.cut(),
        sheet.by_channels(),
        sheet.loss(),
        sheet.bound(),
    )
}

// The verdict on a sheet with these certificates of the first stores, by that on its cut of all stores.
fn verdict_with(problem: &Problem, sheet: &Sheet, firsts: &[Certificate], own: Verdict) -> Verdict
    requires shape { HasShape problem.now sheet.now.plan }
    requires all { length firsts.now + 1 ≡ length problem.now.rows }
    requires own { IsOwnVerdict problem.now sheet.now own }
    ensures { IsVerdictWith problem.now sheet.now (Some firsts.now) result }
{
    let Verdict::Least(loss) = own else {
        return own;
    };
    match first_not_shown(problem, sheet.plan(), firsts) {
        Some(stores) => Verdict::FirstNotShown(stores),
        None => Verdict::LeastInOrder(loss),
    }
}

/// The verdict on a sheet that is one for the problem.
#[must_use]
pub fn verdict_of(problem: &Problem, sheet: &Sheet) -> Verdict
    requires shape { HasShape problem.now sheet.now.plan }
    requires is_sheet { IsSheet sheet.now }
    ensures { IsSheetVerdict problem.now sheet.now result }
{
    let own = own_verdict(problem, sheet);
    match sheet.firsts() {
        Some(firsts) => verdict_with(problem, sheet, firsts, own),
        None => own,
    }
}
