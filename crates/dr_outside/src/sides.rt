ghost use Rattle.std.specs.Prelude.{◌≡◌, ◌≤◌};
ghost use Rattle.dr_base.specs.declared.side.Side.{Side};
ghost use Rattle.dr_base.specs.Causes.{Rose};
ghost use Rattle.dr_outside.specs.BySide.{at, put, only};
ghost use Rattle.dr_outside.specs.Counts.{one_more_at};

use dr_base::Side;

/// One value for each site.
#[derive(Clone, Copy, Debug, PartialEq, Eq)]
pub struct Sides<T> {
    pub a: T,
    pub b: T,
}

impl<T: Copy> Sides<T> {
    /// What stands at this side.
    pub fn at(&self, side: Side) -> T
        ensures { result ≡ at side self.now }
    {
        match side {
            Side::A => self.a,
            Side::B => self.b,
        }
    }

    /// The same values, but for this one at this side.
    pub fn put(self, side: Side, value: T) -> Sides<T>
        ensures { result ≡ put side value self }
    {
        match side {
            Side::A => Sides {
                a: value,
                b: self.b,
            },
            Side::B => Sides {
                a: self.a,
                b: value,
            },
        }
    }
}

impl Sides<bool> {
    /// True at this side alone.
    pub fn only(side: Side) -> Sides<bool>
        ensures { result ≡ only side }
    {
        match side {
            Side::A => Sides { a: true, b: false },
            Side::B => Sides { a: false, b: true },
        }
    }
}

impl Sides<u64> {
    /// Counts one more at this side. A count stops at its last value.
    pub fn raise(&mut self, side: Side)
        ensures value { self.new ≡ one_more_at side self.old }
        ensures rose { Rose (at side self.old) (at side self.new) }
        ensures later { (s : Side) → at s self.old ≤ at s self.new }
    {
        *self = self.put(side, self.at(side).saturating_add(1));
    }
}
