//! What holds of a ledger after every list of calls.

ghost use Rattle.ball_devices.specs.Laws.{BallsAreSomewhere, LedgersFollowBookings, OriginsFollowBookings};

/// The law of known balls, for every list of calls that may come on a new ledger: each known ball is in a
/// device, on its way, or on the playfield.
///
/// It does nothing: its contract is the law, over the steps that the calls take.
pub fn balls_are_somewhere()
    ensures { BallsAreSomewhere }
{}

/// The law of what a ledger says, for the same lists of calls: each of its numbers is a count of what it
/// has booked. So is where the next ball comes from.
///
/// It does nothing: its contract is the law, over the steps that the calls take.
pub fn ledgers_follow_bookings()
    ensures numbers { LedgersFollowBookings }
    ensures origins { OriginsFollowBookings }
{}
