//! Dump plans: volumes, losses, fit, and the text of a plan with its certificate.
#![tactic(auto)]

mod certificate;
mod draft;
mod fault;
mod filling;
mod fit;
mod form;
pub mod laws;
mod line;
mod loss;
mod plan;
mod print;
mod row;
mod sheet;
mod simulation;
mod stretch;
mod turn;
mod words;

pub use certificate::{Certificate, Cut};
pub use fault::Fault;
pub use filling::fill;
pub use fit::fits;
pub use loss::{first_loss, loss_of, store_loss};
pub use mm_base::NoMemory;
pub use plan::Plan;
pub use sheet::Sheet;
pub use simulation::{Simulated, simulate};
pub use stretch::{MAX_COUNTS, MAX_STRETCHES, Stretch};
pub use turn::{can_leave, held_by};
