//! The steps of the game, and what they lead to.

ghost use Rattle.std.specs.Prelude.{◌≡◌};
ghost use Rattle.plan_tables.specs.Valid.{HasGame};
ghost use Rattle.written_machine.specs.Machine.{all_do, ask_ball, post_game, step_game, write_finals};
ghost use Rattle.machine_core.specs.Core.{CanCall, IsWithin, after};

use crate::core_state::Core;
use crate::tellings::tell;
use device_objects::Device;
use plan_tables::{GameEvent, Owner, Telling};

/// The game goes on as its event says. What that leads to is done.
pub(crate) fn step_game<D: Device>(core: &mut Core<'_, D>, event: GameEvent)
    requires game { HasGame core.old.plan }
    requires calls { CanCall core.old }
    requires room { IsWithin core.old.room (step_game core.old.plan event core.old.machine) }
    ensures { core.new ≡ after (step_game core.old.plan event) core.old }
{
    let work = core.play(event);
    tell_scores(core, work.finals);
    ask_ball(core, work.requests);
    post_game(core, work.posts.as_slice());
}

/// One ball more is wanted, if `asks` holds.
fn ask_ball<D: Device>(core: &mut Core<'_, D>, asks: bool)
    requires calls { CanCall core.old }
    requires room { IsWithin core.old.room (ask_ball core.old.plan asks core.old.machine) }
    ensures { core.new ≡ after (ask_ball core.old.plan asks) core.old }
{
    if asks {
        tell(core, Telling::Wanted(1));
    }
}

/// The scores of all players are told, if `tells` holds.
fn tell_scores<D: Device>(core: &mut Core<'_, D>, tells: bool)
    requires { IsWithin core.old.room (write_finals core.old.plan tells core.old.machine) }
    ensures { core.new ≡ after (write_finals core.old.plan tells) core.old }
{
    if !tells {
        return;
    }
    for place in 0..core.player_count() {
        core.tell_score(place + 1);
    }
}

/// The machine posts these events of the game.
fn post_game<D: Device>(core: &mut Core<'_, D>, events: &[GameEvent])
    requires game { HasGame core.old.plan }
    requires room { IsWithin core.old.room (all_do (post_game core.old.plan) events.now core.old.machine) }
    ensures { core.new ≡ after (all_do (post_game core.old.plan) events.now) core.old }
{
    let plan = core.plan();
    for event in events {
        core.post(Owner::Machine, plan.game_event(*event));
    }
}
