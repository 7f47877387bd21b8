ghost use Rattle.std.specs.Prelude.{IfSome};
ghost use Rattle.dr_desk.specs.Rooms.{IsRoom};

use std::alloc::Global;

/// The greatest length of a text that may come after something outside was called, in bytes.
const TEXT: usize = 1_024;

/// The room that one line needs for its answer. It is taken before anything outside is called, so
/// that no answer is lost for want of memory.
#[derive(Drop)]
pub(crate) struct Room {
    /// For the line's mark.
    pub(crate) marks: Vec<u32>,
    /// For the answer's text. Where a report comes before it, the report's own room is used.
    pub(crate) text: Vec<u8>,
}

impl Room {
    /// The room for one line, or `None` for want of memory.
    pub(crate) fn new(alloc: Global) -> Option<Room>
        ensures { IfSome result IsRoom }
    {
        let Ok(marks) = Vec::with_capacity(alloc, 1) else {
            return None;
        };
        let Ok(text) = Vec::with_capacity(alloc, TEXT) else {
            return None;
        };
        Some(Room { marks, text })
    }
}
