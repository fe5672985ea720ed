//! What holds after every list of calls.

ghost use Rattle.switch_core.specs.Calls.{LevelsAreAccepted, NothingIsLate, ChangesArmLater};

/// The law of `Switches`. It is about lists of calls after `new` in the order of their moments, if
/// each `fire` comes at the moment that was due, and all that is due by the moment of a `change`
/// has been fired before it.
///
/// Take the moment of the last call, or a later one. If nothing is due at or before it, `active`
/// reports for each switch the level that its past raw changes alone give. And nothing is due
/// before the moment of the last call.
///
/// A change arms nothing for its own moment: what is due after it was due before, or is due later.
///
/// It does nothing: its contract is the law, over the steps that the calls take.
pub fn levels_are_accepted()
    ensures levels { LevelsAreAccepted }
    ensures never_late { NothingIsLate }
    ensures later { ChangesArmLater }
{}
