//! A cascade, whose commands are sent to the board as its lines come.

ghost use Rattle.std.specs.Prelude.{◌≡◌, ◌≤◌, ℕ, length, take};
ghost use Rattle.std.specs.List.{All};
ghost use Rattle.written_machine.specs.PlanOrder.{plan_steps};
ghost use Rattle.machine_core.specs.Core.{CanCall, HasHandlers, StaysWithin, HasSettled};
ghost use Rattle.coil_driver.specs.Driver.{DriverView, HasSent, IsSendable, IsServed};

use coil_driver::Driver;
use coil_guard::Board;
use device_objects::Device;
use machine_core::{Core, advance, settle};
use written_machine::Line;

/// Takes the event steps of a stimulus that has begun, in plan order, until no event waits. After
/// each step the commands of its lines are sent to the board, so that no command waits for the end
/// of the cascade. If the board does not take one, nothing more is sent, the steps go on to the end,
/// and the place of its line is answered, counted from 0.
pub(crate) fn run_cascade<D: Device, B: Board>(
    core: &mut Core<'_, D>,
    driver: &mut Driver<B>,
) -> Option<usize>
    requires handlers { HasHandlers core.old }
    requires calls { CanCall core.old }
    requires room { StaysWithin core.old }
    requires sendable { (n : ℕ) → All (IsSendable (length driver.old.guard))
        (plan_steps core.old.plan n core.old.machine).lines }
    ensures settles { HasSettled core.old core.new }
    ensures serves { IsServed core.new.machine.lines result driver.old driver.new }
    ensures coils { length driver.new.guard ≡ length driver.old.guard }
{
    let mut place = driver.serve(core.lines());
    while place.is_none() {
        let line_count = core.lines().len();
        if !advance(core) {
            return None;
        }
        place = serve_rest(driver, core.lines(), line_count);
    }
    settle(core);
    place
}

/// Sends the commands of the lines from a place on, as `serve` does; those of the lines before it
/// were sent. It answers the place of a line among all lines.
#[inline(always)]
fn serve_rest<B: Board>(driver: &mut Driver<B>, lines: &[Line], from: usize) -> Option<usize>
    requires from { from ≤ length lines.now }
    requires sendable { All (IsSendable (length driver.old.guard)) lines.now }
    ensures serves { (start : DriverView) → HasSent (take from lines.now) start driver.old
        → IsServed lines.now result start driver.new }
    ensures coils { length driver.new.guard ≡ length driver.old.guard }
{
    let rest = &lines[from..];
    match driver.serve(rest) {
        Some(place) => Some(lines.len() - (rest.len() - place)),
        None => None,
    }
}
