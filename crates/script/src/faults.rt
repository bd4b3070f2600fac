// A lack of memory is a fault.
use crate::types::ReadFault;
use std::alloc::{AllocError, AllocFailed};

impl From<AllocError> for ReadFault {
    fn from(_error: AllocError) -> ReadFault {
        ReadFault::Memory
    }
}

impl<T: Drop> From<AllocFailed<T>> for ReadFault {
    fn from(_error: AllocFailed<T>) -> ReadFault {
        ReadFault::Memory
    }
}
