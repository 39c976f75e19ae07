//! An audit with the machines that something touched since its last look.

ghost use Rattle.std.specs.Prelude.{◌≡◌, IfOk, OnOk};
ghost use Rattle.pim_audit.specs.Audited.{LooksAt, with_due};
ghost use Rattle.pim_audit.specs.Holding.{HoldsOutside};
ghost use Rattle.pim_audit.specs.Seen.{report_seen};

use crate::audit::Audit;
use crate::look::Report;
use crate::touched::Touched;
use pim_addr::Family;
use pim_router::Router;
use std::alloc::{AllocError, Global};

/// An audit, and the machines that something touched since its last look.
#[derive(Drop)]
pub(crate) struct TrackedAudit<'t, F: Family> {
    /// The audit.
    pub(crate) audit: Audit<'t, F>,
    /// The machines.
    pub(crate) touched: Touched<F>,
}

impl<'t, F: Family> TrackedAudit<'t, F> {
    /// Looks at what is due at the router's present moment. Afterwards no machine is touched.
    ///
    /// # Errors
    /// Memory was refused.
    pub(crate) fn look(
        &mut self,
        alloc: Global,
        router: &Router<'_, F>,
    ) -> Result<Report<F::Addr>, AllocError>
        requires { HoldsOutside F.family self.old.touched self.old.audit router.now }
        ensures looks { IfOk result (λ report. LooksAt F.family self.old.audit router.now
            (report_seen F.bytes_of self.new.audit.due report)) }
        ensures rest { self.new.audit ≡ with_due self.old.audit self.new.audit.due }
        ensures holds { OnOk result
            (HoldsOutside F.family self.new.touched self.new.audit router.now) }
    {
        self.audit.look(alloc, router, &mut self.touched)
    }
}
