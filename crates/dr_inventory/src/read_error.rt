use dr_base::{EstateFault, Stop};

/// Why a part of a document wasn't read.
pub type ReadError = Stop<EstateFault>;
