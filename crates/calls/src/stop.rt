// Why a command was not carried out.
use fault::Fault;
use std::alloc::{AllocError, AllocFailed};
use std::io;

#[derive(Drop)]
pub enum Stop {
    // The line is no command, or a number or an index is out of its range: nothing was changed.
    Bad,
    // The library refused the call.
    Refused(Fault),
    // Output or memory failed: the program ends.
    Io(io::Error),
}

impl From<Fault> for Stop {
    fn from(fault: Fault) -> Stop {
        Stop::Refused(fault)
    }
}

impl From<io::Error> for Stop {
    fn from(error: io::Error) -> Stop {
        Stop::Io(error)
    }
}

impl From<AllocError> for Stop {
    fn from(error: AllocError) -> Stop {
        Stop::Io(error.into())
    }
}

impl<T: Drop> From<AllocFailed<T>> for Stop {
    fn from(_refused: AllocFailed<T>) -> Stop {
        Stop::Io(AllocError.into())
    }
}
