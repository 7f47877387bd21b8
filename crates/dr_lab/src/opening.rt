//! The opening state of a site, in a group that protects A.

ghost use Rattle.std.specs.Prelude.{◌≡◌};
ghost use Rattle.dr_lab.specs.Opening.{opening_pair, opening_machine};

use dr_base::Side;
use dr_outside::{Content, Link, Pair, Placed, Post, Sides};

/// A pair that has no file: live from A, with 100 writes at both sides.
pub(crate) fn opening_pair() -> Pair
    ensures { result ≡ opening_pair }
{
    let content = Content {
        line: 0,
        base: 0,
        writes: 100,
    };
    Pair {
        source: Side::A,
        link: Link::Live,
        writable: Sides::only(Side::A),
        content: Sides {
            a: content,
            b: content,
        },
        snapshot: None,
    }
}

/// A machine that has no file: ready at A outside a bubble, with a network, a folder and a pool that
/// are each named `A`, and a placeholder at B.
pub(crate) fn opening_machine() -> Sides<Post>
    ensures { result ≡ opening_machine }
{
    Sides {
        a: Post::Ready(Placed::from_texts(b"A", b"A", b"A", false)),
        b: Post::Placeholder,
    }
}
