//! Clocks.
ghost use Rattle.nfs_attrs.specs.declared.moment.Moment.{Moment};

use nfs_attrs::moment::Moment;

/// What knows the time.
pub trait Moments {
    /// That a look at it which reported this moment leads from one state to another.
    ghost reports: { Self → Moment → Self → Type 0 };

    /// The moment of now.
    fn now(&mut self) -> Moment
        ensures { reports self.old result self.new };
}
