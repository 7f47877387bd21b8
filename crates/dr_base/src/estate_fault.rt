use crate::{Name, Path, Rows};

/// What an estate has too many of.
#[derive(Clone, Copy, Debug, PartialEq, Eq)]
pub enum Limit {
    /// Bytes, more than 4,194,304.
    Bytes,
    /// Machines, more than 2,000.
    Machines,
    /// Devices, more than 1,024.
    Devices,
    /// Datastores, more than 1,024.
    Datastores,
    /// Consistency groups, more than 1,024.
    Consistency,
    /// Protection groups, more than 256.
    Groups,
    /// Maps, more than 4,096.
    Maps,
    /// Plans, more than 64.
    Plans,
    /// Datastores of one machine, more than 16.
    MachineDatastores,
    /// Devices of one datastore, more than 16.
    DatastoreDevices,
    /// Steps of one plan, more than 64.
    PlanSteps,
    /// Dependencies of one machine, more than 32.
    PlanAfter,
    /// Commands of one machine before power-on, more than 2.
    PlanBefore,
    /// Commands of one machine after power-on, more than 2.
    PlanThen,
    /// Machines that one plan suspends, more than 64.
    PlanSuspend,
}

/// Why bytes are no estate.
#[derive(Debug, Drop, PartialEq, Eq)]
pub enum EstateFault {
    /// They are no TOML (E1).
    NotToml,
    /// The value at this path is missing, of another type, or not named by the form (E2).
    Key(Rows<u8>),
    /// The string at this path isn't the name, path or text that is wanted (E3).
    BadName(Rows<u8>),
    /// This name stands twice where it may stand once (E4). Of a map it is what is mapped.
    Twice(Path),
    /// This name isn't declared (E5).
    Unknown(Name),
    /// This device is named twice (E6).
    DeviceTwice(Name),
    /// There is too much of something: the count that was found (E7).
    Limit(Limit, u64),
    /// Want of memory.
    NoMemory,
}
