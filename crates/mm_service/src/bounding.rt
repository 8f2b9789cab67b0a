//! How many reports may wait.
ghost use Rattle.std.specs.Prelude.{◌≡◌, OnOk, IfErr};
ghost use Rattle.mm_service.specs.declared.fault.Fault.TheVariants.{TooManyReports};
ghost use Rattle.mm_service.specs.Bounding.{most_reports, MayWait};

use crate::fault::Fault;
use crate::service::Service;
use mm_st15::Request;

// How many reports a request has at most.
pub(crate) fn most_reports(request: &Request) -> usize
    ensures { result ≡ most_reports request.now }
{
    match request {
        Request::ReportControl(targets) => targets.as_slice().len(),
        Request::SummariseContent(_) | Request::ReportStatus | Request::ReportConfiguration => 1,
        _ => 0,
    }
}

impl Service {
    /// Lets at most this number of reports wait from now on, or as many as memory holds. Those that wait already go on
    /// waiting.
    pub fn bound_waiting(&mut self, bound: Option<usize>)
        ensures bound { self.new ≡ record self.old { bound = bound } }
    {
        self.bound = bound;
    }

    // Refuses a request whose reports may not wait.
    pub(crate) fn admit(&self, request: &Request) -> Result<(), Fault>
        ensures may { OnOk result (MayWait request.now self.now) }
        ensures beyond { IfErr result (λ fault. (fault ≡ TooManyReports) × (MayWait request.now self.now → ⊥)) }
    {
        match self.bound {
            Some(bound) if most_reports(request) > bound.saturating_sub(self.waiting.len()) => {
                Err(Fault::TooManyReports)
            }
            _ => Ok(()),
        }
    }
}
