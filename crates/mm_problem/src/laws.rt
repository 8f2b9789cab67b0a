//! Laws on the meaning of the readers' definitions. The contract of each function is a law.
ghost use Rattle.mm_problem.specs.Laws.{ReadsSetups, ReadsForecasts};

pub use mm_base::laws::numbers;

/// A setup is read if and only if its bytes are the text of a readable document, and its rows are those of the
/// document.
pub fn setups()
    ensures { ReadsSetups }
{}

/// A forecast is read if and only if its records are those of a problem, which it is read as.
pub fn forecasts()
    ensures { ReadsForecasts }
{}
