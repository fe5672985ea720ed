//! What holds after every list of calls of a queue, of the handlers of every event, and of alarms.

ghost use Rattle.event_queue.specs.Alarms.{AlarmsGiveTheLeast};
ghost use Rattle.event_queue.specs.Calls.{IsFirstInFirstOut, IsWithinSize};
ghost use Rattle.event_queue.specs.PlanOrder.{HandlersAreInPlanOrder};

/// The law of `Queue`, for every list of calls of `push` and `take` on a new queue.
///
/// The events that `take` gave, followed by those that wait, are the events that `push` accepted,
/// in order. The queue keeps its size, and never holds more.
///
/// It does nothing: its contract is the law, over the steps that the calls take.
pub fn first_in_first_out()
    ensures order { IsFirstInFirstOut }
    ensures size { IsWithinSize }
{}

/// The law of `Handlers`, for every plan, whichever of its modes run, and every event: the order
/// that `nth` gives is plan order, and no other order of the same places is. No priority comes
/// after a lower one.
///
/// It does nothing: its contract is the law, over the order that `nth` gives.
pub fn handlers_are_in_plan_order()
    ensures { HandlersAreInPlanOrder }
{}

/// The law of `Alarms`, for all due moments: if `least` gives nothing, no row is due. If it
/// gives a moment and a row, this row is due at this moment, no row is due before it, and no lower
/// row is due at it.
///
/// It does nothing: its contract is the law, over the answer that `least` gives.
pub fn alarms_give_the_least()
    ensures { AlarmsGiveTheLeast }
{}
