//! Measures of a cost: its price, or the events whose weights are in it.
//!
//! A cost is lines, a step, the weight of an event, two costs after each other, or the greater of two. A measure says
//! what each of the five comes to. The walks over the costs of a plan (`costs`, `stimuli`) are written once, for every
//! measure.

use plan_tables::EventId;

/// What a walk over a cost adds up.
pub(crate) trait Measure {
    ghost use Rattle.cascade_rank.specs.Cost.{Cost, Lines, Step, Weight, Both, Greater};
    ghost use Rattle.cascade_rank.specs.Measures.{AreAlike};

    /// What a cost comes to.
    type Value: Copy;

    /// `Measures x c y v`: a walk over the cost `c` that starts with `x` gives `v` and leaves `y`.
    ghost Measures: { Self → Cost → Self → Self.Value → Type 0 };

    /// So many lines.
    fn lines(&self, count: u64) -> Self::Value
        ensures { Measures self.now (Lines count) self.now result };

    /// A handler that is looked at, or a call of a device.
    fn step(&self) -> Self::Value
        ensures { Measures self.now Step self.now result };

    /// The weight of an event.
    fn weight(&mut self, event: EventId) -> Self::Value
        ensures { Measures self.old (Weight event) self.new result };

    /// Two costs, walked over one after the other.
    fn both(&self, one: Self::Value, other: Self::Value) -> Self::Value
        ensures { (x y : Self) (a b : Cost) → Measures x a y one → Measures y b self.now other
            → Measures x (Both a b) self.now result };

    /// The dearer of two costs, walked over one after the other.
    fn greater(&self, one: Self::Value, other: Self::Value) -> Self::Value
        ensures { (x y : Self) (a b : Cost) → Measures x a y one → Measures y b self.now other
            → Measures x (Greater a b) self.now result };

    /// Costs that are alike have the same measure.
    ghost alike: { (x y : Self) (a b : Cost) (v : Self.Value) → AreAlike a b → Measures x a y v → Measures x b y v };
}
