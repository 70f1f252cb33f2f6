//! How calls over devices end early, in one form.

use nx_fec::{RunFault, WriteFault};
use nx_receiver::{ListenFault, ResumeFault, StateFault};
use nx_station::{CheckFault, DamageFault, SendRunFault};

/// Why a call ended early.
#[derive(Clone, Copy, Debug, PartialEq, Eq)]
pub enum Ending {
    Read,
    Write(u64),
    Other,
}

impl From<RunFault> for Ending {
    fn from(fault: RunFault) -> Ending {
        match fault {
            RunFault::Read => Ending::Read,
            RunFault::Write { written } => Ending::Write(written),
            _ => Ending::Other,
        }
    }
}

impl From<WriteFault> for Ending {
    fn from(fault: WriteFault) -> Ending {
        Ending::Write(fault.written)
    }
}

impl From<SendRunFault> for Ending {
    fn from(fault: SendRunFault) -> Ending {
        match fault {
            SendRunFault::Read => Ending::Read,
            SendRunFault::Write { written } => Ending::Write(written),
            _ => Ending::Other,
        }
    }
}

impl From<CheckFault> for Ending {
    fn from(fault: CheckFault) -> Ending {
        match fault {
            CheckFault::Run(fault) => Ending::from(fault),
            CheckFault::Emission(_) => Ending::Other,
        }
    }
}

impl From<DamageFault> for Ending {
    fn from(fault: DamageFault) -> Ending {
        match fault {
            DamageFault::Read => Ending::Read,
            DamageFault::Write { written } => Ending::Write(written),
            _ => Ending::Other,
        }
    }
}

impl From<ResumeFault> for Ending {
    fn from(fault: ResumeFault) -> Ending {
        match fault {
            ResumeFault::State(StateFault::Read) => Ending::Read,
            ResumeFault::State(_) => Ending::Other,
            ResumeFault::Listen(fault) => Ending::from(fault),
            ResumeFault::Write { written } => Ending::Write(written),
        }
    }
}

impl From<ListenFault> for Ending {
    fn from(fault: ListenFault) -> Ending {
        match fault {
            ListenFault::Read => Ending::Read,
            ListenFault::Write { written } => Ending::Write(written),
            _ => Ending::Other,
        }
    }
}
