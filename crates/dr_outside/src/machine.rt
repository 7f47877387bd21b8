ghost use Rattle.std.specs.Prelude.{◌≡◌, true, IsTrue};
ghost use Rattle.dr_base.specs.Names.{is_name};
ghost use Rattle.dr_base.specs.Paths.{is_path};
ghost use Rattle.dr_outside.specs.Commands.{code_of};
ghost use Rattle.dr_outside.specs.Machines.{is_ready_for, post_after};

use dr_base::{Name, Path, Placement, Side};

/// A placement, in a test bubble or not.
#[derive(Clone, Copy, Debug, PartialEq, Eq)]
pub struct Placed {
    pub place: Placement,
    /// Whether the machine runs on an isolated network, beside the machine that serves.
    pub bubble: bool,
}

/// How a machine stands at one side.
#[derive(Clone, Copy, Debug, PartialEq, Eq)]
pub enum Post {
    /// It has a place there, and isn't registered.
    Placeholder,
    /// It is registered, and turned off.
    Off(Placed),
    /// It is started, and doesn't answer yet.
    On(Placed),
    /// It is started, and answers.
    Ready(Placed),
}

/// A command that ran once: its token and code, and what its call was given.
#[derive(Clone, Copy, Debug, PartialEq, Eq)]
pub struct Kept {
    pub token: u64,
    pub code: u8,
    pub name: Name,
    /// The side of a machine's command; `None` for a plan's.
    pub side: Option<Side>,
}

impl Placed {
    /// The placement whose network, folder and pool these texts spell.
    pub fn from_texts(network: &[u8], folder: &[u8], pool: &[u8], bubble: bool) -> Placed
        requires network { IsTrue (is_name network.now) }
        requires folder { IsTrue (is_path folder.now) }
        requires pool { IsTrue (is_name pool.now) }
        ensures { result ≡ record {
          place = record {
            network = network.now;
            folder = folder.now;
            pool = pool.now;
          };
          bubble = bubble;
        } }
    {
        let (Some(network), Some(folder), Some(pool)) = (
            Name::read(network),
            Path::read(folder),
            Name::read(pool),
        ) else {
            unreachable!();
        };
        Placed {
            place: Placement {
                network,
                folder,
                pool,
            },
            bubble,
        }
    }
}

impl Post {
    /// Whether it is as the call needs it.
    pub fn is_ready_for(&self, call: &PortCall) -> bool
        ensures { result ≡ is_ready_for call.now self.now }
    {
        match (call, self) {
            (PortCall::Register(_), Post::Placeholder) => true,
            (PortCall::Start, Post::Off(_) | Post::On(_)) => true,
            (PortCall::Stop, Post::On(_) | Post::Ready(_)) => true,
            (PortCall::Unregister, Post::Off(_)) => true,
            _ => false,
        }
    }

    /// What the call makes of it, which is as the call needs it.
    pub fn after(&self, call: &PortCall) -> Post
        requires { is_ready_for call.now self.now ≡ true }
        ensures { result ≡ post_after call.now self.now }
    {
        match (call, self) {
            (PortCall::Register(placed), _) => Post::Off(*placed),
            (PortCall::Start, Post::Off(placed) | Post::On(placed)) => Post::Ready(*placed),
            (PortCall::Stop, Post::On(placed) | Post::Ready(placed)) => Post::Off(*placed),
            _ => Post::Placeholder,
        }
    }
}

impl Kept {
    /// The code that is kept for a token.
    pub fn code_of(kept: &[Kept], token: u64) -> Option<u8>
        ensures { result ≡ code_of kept.now token }
    {
        for one in kept {
            if one.token == token {
                return Some(one.code);
            }
        }
        None
    }
}

/// A call that changes a post.
#[derive(Clone, Copy, Debug, PartialEq, Eq)]
pub enum PortCall {
    /// Register the machine there.
    Register(Placed),
    /// Turn it on, and wait until it answers.
    Start,
    /// Turn it off.
    Stop,
    /// Take it from the inventory.
    Unregister,
}

/// Why a call of a port was refused.
#[derive(Clone, Copy, Debug, PartialEq, Eq)]
pub enum PortFail {
    /// It failed.
    Failed,
    /// The post isn't as the call needs it: it is this.
    Wrong(Post),
    /// The command ran before, with this code.
    Ran(u8),
}
