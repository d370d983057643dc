//! Why commands end early.
use bk_desk::DeskErr;
use std::alloc::AllocError;
use thiserror::Error;

/// Why not all commands were carried out.
#[derive(Clone, Copy, Debug, PartialEq, Eq, Drop, Error)]
pub enum Stop {
    /// The disk or the output failed: the count of faults rose in this call.
    #[error("the disk or the output failed")]
    Fault,
    /// Memory was wanting, here or on the desk.
    #[error("out of memory")]
    NoMemory,
}

impl From<AllocError> for Stop {
    ghost use Rattle.std.specs.Prelude.{◌≡◌};
    ghost use Rattle.bk_run.specs.declared.stop.Stop.TheVariants.{NoMemory};

    ghost from_gives = { λ _ stop. stop ≡ NoMemory };

    fn from(_e: AllocError) -> Self {
        Stop::NoMemory
    }
}

impl From<DeskErr> for Stop {
    ghost use Rattle.std.specs.Prelude.{◌≡◌};
    ghost use Rattle.bk_run.specs.Doing.{stop_of};

    ghost from_gives = { λ e stop. stop ≡ stop_of e };

    fn from(e: DeskErr) -> Self {
        match e {
            DeskErr::Failed => Stop::Fault,
            DeskErr::NoMemory => Stop::NoMemory,
        }
    }
}
