//! What the ledger of balls is told, and what it says.

ghost use Rattle.std.specs.Prelude.{◌≡◌, ◌<◌, ◌^◌, map, true, length};
ghost use Rattle.plan_tables.specs.PlanView.{home_rows};
ghost use Rattle.ball_devices.specs.Ledger.{counted_in, total};
ghost use Rattle.ball_devices.specs.Bookings.{after_call, booking_of, can_book};
ghost use Rattle.written_machine.specs.Machine.{counts_of};
ghost use Rattle.machine_core.specs.Balls.{ledger_call};

use ball_devices::{BallLedger, Booking};
use plan_tables::{BallTarget, Plan, RowId};
use written_machine::line::BallCounts;

/// What the ledger is told.
#[derive(Clone, Copy)]
pub(crate) enum BallCall {
    /// A ball enters the device.
    Enter(RowId),
    /// A ball leaves the device, and is on its way to the target.
    Leave(RowId, BallTarget),
    /// A ball leaves the device without being ejected.
    Lose(RowId),
    /// A ball that was on its way to the target is on the playfield.
    Arrive(BallTarget),
}

/// Books this, which the ledger may. Reports what is booked.
pub(crate) fn book(ledger: &mut BallLedger, call: BallCall) -> Booking
    requires { can_book (ledger_call call) ledger.old ≡ true }
    ensures booking { result ≡ booking_of (ledger_call call) ledger.old }
    ensures ledger { ledger.new ≡ after_call (ledger_call call) ledger.old }
{
    match call {
        BallCall::Enter(device) => Booking::Entered(device, ledger.enter(device)),
        BallCall::Leave(device, target) => {
            ledger.left(device, target);
            Booking::Left(device, target)
        }
        BallCall::Lose(device) => {
            ledger.lost(device);
            Booking::Lost(device)
        }
        BallCall::Arrive(target) => {
            ledger.arrived(target);
            Booking::Arrived(target)
        }
    }
}

/// How many balls are known, and where they are.
pub(crate) fn counts_of(ledger: &BallLedger) -> BallCounts
    requires { ledger.now.known < 2 ^ 32 }
    ensures { result ≡ counts_of ledger.now }
{
    BallCounts {
        known: ledger.known() as u32,
        counted: ledger.all_counted() as u32,
        transit: ledger.all_in_transit() as u32,
        playfield: ledger.playfield() as u32,
    }
}

/// How many balls are at home.
pub(crate) fn home(plan: &Plan, ledger: &BallLedger) -> u64
    requires { length ledger.now.counted ≡ length plan.now.rows }
    ensures { result ≡ total (map (counted_in ledger.now) (home_rows plan.now)) }
{
    let mut home = 0;
    for number in 0..plan.rows().len() {
        let row = RowId(number as u16);
        if plan.row(row).settings.is_home() {
            home += ledger.counted(row);
        }
    }
    home
}
