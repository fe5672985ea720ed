//! Which plans have weights at all.

ghost use Rattle.cascade_rank.specs.CycleOrWeights.{CycleHasNoFit, OpenHasCycle, CycleIsOpen, GroundedHasLeast};

/// The law of weights, for each plan in which every number is that of an entry, as in every valid
/// plan: some weights fit exactly when no events lead to each other without end.
///
/// If some events do, no weights fit, and each of these events can reach a cycle. If an event can
/// reach a cycle, some events do. If no event can, there are least weights that fit: those that
/// `find` gives, unless one of them or their bound is above 100,000, or memory runs out.
///
/// It does nothing: its contract is the law, over plans as contracts see them.
pub fn cycles_or_weights()
    ensures cycle { CycleIsOpen }
    ensures open { OpenHasCycle }
    ensures no_fit { CycleHasNoFit }
    ensures least { GroundedHasLeast }
{}
