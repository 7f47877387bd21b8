use dr_base::{Name, Placement, Side};
use dr_outside::Post;

/// One machine: its port, the step that is wanted of it, and what its last step found.
#[derive(Debug, Drop)]
pub struct Slot<P> {
    /// The machine's number in the estate, from 0. Steps and their laws go by the slot's place: a
    /// caller who wants the number to be that place must see to it.
    pub machine: u32,
    pub port: P,
    pub want: Want,
    pub found: Found,
}

/// The step that is wanted of a machine.
#[derive(Clone, Copy, Debug, PartialEq, Eq)]
pub enum Want {
    /// None.
    Nothing,
    /// To tell how it stands at both sides.
    Look,
    /// To be registered, if it isn't, and started, with its commands.
    Start(StartWant),
    /// To be turned off at this side.
    Stop(Side),
    /// To be turned off at this side, and made a placeholder there.
    Clear(Side),
}

/// A start that is wanted of a machine.
#[derive(Clone, Copy, Debug, PartialEq, Eq)]
pub struct StartWant {
    pub side: Side,
    pub place: Placement,
    /// Whether it is to run in a test bubble.
    pub bubble: bool,
    /// The number of the run that its commands' tokens name.
    pub root: u32,
    /// Two commands before power-on, then two after it.
    pub commands: [Option<Name>; 4],
}

/// What a machine's step found.
#[derive(Clone, Copy, Debug, PartialEq, Eq)]
pub enum Found {
    /// Nothing was wanted.
    Nothing,
    /// Its posts at A and B; none where the call failed.
    Looked(Option<Post>, Option<Post>),
    /// The step is complete: the codes of the commands that are wanted, in their places.
    Made([Option<u8>; 4]),
    /// A call at this side failed.
    Failed(Side),
    /// It stands at this side with another placement than is wanted, or not in a bubble as is wanted.
    Odd(Side, Post),
    /// A call at this side was refused, since the post was this.
    Refused(Side, Post),
}
