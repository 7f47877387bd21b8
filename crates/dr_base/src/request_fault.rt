/// A method of HTTP that a route may have.
#[derive(Clone, Copy, Debug, PartialEq, Eq)]
pub enum Method {
    Get,
    Put,
    Post,
}

/// Why a request was refused.
#[derive(Clone, Copy, Debug, PartialEq, Eq)]
pub enum RequestFault {
    /// Its head or body is malformed or cut off.
    H1,
    /// Its head or body is too large.
    H2,
    /// No route has its target.
    H3,
    /// The target's route has this method, and not the request's.
    H4(Method),
    /// Its body isn't what the route takes.
    H5,
    /// The source failed.
    ReadFault,
    /// Want of memory.
    NoMemory,
}
