//! Why the receivers refuse a line.

use nx_memory::Vital;
use nx_receiver::MomentFault;

/// Why the receivers of a watch refuse a line. They then stay as they were.
#[derive(Clone, Copy, Debug, PartialEq, Eq)]
pub(crate) enum Refusal {
    /// Its moment is out of range, or before the one in force.
    Moment(MomentFault),
    /// It refuses a vital subject.
    Vital,
}

impl From<MomentFault> for Refusal {
    ghost use Rattle.std.specs.Prelude.{◌≡◌};
    ghost use Rattle.nx_watch.specs.declared.lines.refusal.Refusal.TheVariants.{Moment};

    ghost from_gives = { λ fault made. made ≡ Moment fault };

    fn from(fault: MomentFault) -> Refusal {
        Refusal::Moment(fault)
    }
}

impl From<Vital> for Refusal {
    ghost use Rattle.std.specs.Prelude.{◌≡◌};
    ghost use Rattle.nx_watch.specs.declared.lines.refusal.Refusal.TheVariants as refusal;

    ghost from_gives = { λ vital made. made ≡ refusal.Vital };

    fn from(_vital: Vital) -> Refusal {
        Refusal::Vital
    }
}
