//! A call of a store and what it is answered.

use mm_desk::Reply;
use refused_allocations::calls::{
    Ask, Told, told_of, told_of_delete, told_of_given, told_of_offer,
};

/// A call, and what it is answered.
pub type Call = (Ask, Told);

/// The reply that a log has.
pub fn told_of_reply(reply: &Reply) -> Told {
    match reply {
        Reply::Offered(answer) => told_of_offer(answer),
        Reply::Done(answer) => told_of(*answer),
        Reply::Given(answer) => told_of_given(answer),
        Reply::Deleted(answer) => told_of_delete(*answer),
    }
}
