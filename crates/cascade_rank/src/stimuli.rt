//! What a stimulus costs, in one walk for every measure; and the bound, the greatest such cost.

ghost use Rattle.std.specs.Prelude.{◌≡◌, ◌<◌, length};
ghost use Rattle.std.specs.List.{All};
ghost use Rattle.plan_tables.specs.Valid.{IsListenerWithin};
ghost use Rattle.plan_tables.specs.PlanView.{row_numbers};
ghost use Rattle.device_objects.specs.declared.device.Call.TheVariants as calls;
ghost use Rattle.cascade_rank.specs.Events.{weight_of};
ghost use Rattle.cascade_rank.specs.Measures.{saturate};
ghost use Rattle.cascade_rank.specs.Weights.{IsWithinLimit, switch_cost as cost_at};
ghost use Rattle.cascade_rank.specs.Cost.{price, each_of, dearest_of, cost_of_post, cost_of_call, cost_of_listener};
ghost use Rattle.cascade_rank.specs.Cost.{cost_of_playfield_switch, cost_of_acceptance, cost_of_switch, switches_of};
ghost use Rattle.cascade_rank.specs.Cost.{cost_of_stimuli};

use crate::costs::{measure_call, measure_telling};
use crate::measure::Measure;
use crate::price::Price;
use crate::tellings::OneDevice;
use crate::weights::Weights;
use device_objects::Call;
use plan_tables::{BallTarget, EventId, Listener, Plan, RowId, SwitchId, Telling};

/// The greatest cost of any stimulus, or `u128::MAX` if that is less.
pub(crate) fn bound_of(plan: &Plan, weights: &[u32]) -> u128
    ensures { result ≡ saturate (price (weight_of weights.now) (cost_of_stimuli plan.now)) }
{
    measure_stimuli(&mut Price { weights }, plan)
}

/// What a change of this switch costs at these weights, 1 to 100,000: the greater of the costs of its
/// activation and its deactivation. If the weights fit, the change causes at most so many lines. It
/// takes no memory.
///
/// The plan has to have the switch, and a weight for each of its events. No weight and no bound may
/// be above 100,000, as `find` and `verify` make sure.
pub fn switch_cost(plan: &Plan, weights: &Weights, switch: SwitchId) -> u32
    requires switch { switch.0 < length plan.now.switches }
    requires weights { length weights.now ≡ length plan.now.events }
    requires limit { IsWithinLimit plan.now weights.now }
    ensures { result ≡ cost_at plan.now (weight_of weights.now) switch }
{
    let weights = weights.as_slice();
    measure_switch(&mut Price { weights }, plan, switch) as u32
}

/// The dearest stimulus: the acceptance of a switch, or the alarm of a device.
pub(crate) fn measure_stimuli<M: Measure>(measure: &mut M, plan: &Plan) -> M::Value
    ensures { M.Measures measure.old (cost_of_stimuli plan.now) measure.new result }
{
    let switches = measure_switches(measure, plan);
    let alarms = measure_alarms(measure, plan);
    measure.greater(switches, alarms)
}

/// The dearest switch.
fn measure_switches<M: Measure>(measure: &mut M, plan: &Plan) -> M::Value
    ensures { M.Measures measure.old (dearest_of (cost_of_switch plan.now) (switches_of plan.now)) measure.new result }
{
    let mut dearest = measure.lines(0);
    for number in 0..plan.switch_count() {
        let cost = measure_switch(measure, plan, SwitchId(number as u16));
        dearest = measure.greater(dearest, cost);
    }
    dearest
}

/// The dearest alarm of a device.
fn measure_alarms<M: Measure>(measure: &mut M, plan: &Plan) -> M::Value
    ensures { M.Measures measure.old (dearest_of (λ r. cost_of_call plan.now r calls.Fire) (row_numbers plan.now))
        measure.new result }
{
    let mut dearest = measure.lines(0);
    for number in 0..plan.rows().len() {
        let row = RowId(number as u16);
        let cost = measure_call::<OneDevice, M>(measure, plan, row, Call::Fire);
        dearest = measure.greater(dearest, cost);
    }
    dearest
}

/// The dearer of a switch's two acceptances.
fn measure_switch<M: Measure>(measure: &mut M, plan: &Plan, switch: SwitchId) -> M::Value
    requires { switch.0 < length plan.now.switches }
    ensures { M.Measures measure.old (cost_of_switch plan.now switch) measure.new result }
{
    let active = measure_acceptance(measure, plan, switch, true);
    let inactive = measure_acceptance(measure, plan, switch, false);
    measure.greater(active, inactive)
}

/// The acceptance of a switch as active or inactive: its line, the acts of the devices that listen to it,
/// that a ball arrives on the playfield, and its posts.
fn measure_acceptance<M: Measure>(
    measure: &mut M,
    plan: &Plan,
    switch: SwitchId,
    active: bool,
) -> M::Value
    requires { switch.0 < length plan.now.switches }
    ensures { M.Measures measure.old (cost_of_acceptance plan.now switch active) measure.new result }
{
    let line = measure.lines(1);
    let acts = measure_listeners(measure, plan, plan.listeners(switch), active);
    let arrival = measure_playfield_switch(measure, plan, switch, active);
    let posts = measure_posts(measure, plan.posts(switch, active));
    let last = measure.both(arrival, posts);
    let rest = measure.both(acts, last);
    measure.both(line, rest)
}

/// The acts of devices that listen to a switch.
fn measure_listeners<M: Measure>(
    measure: &mut M,
    plan: &Plan,
    listeners: &[Listener],
    active: bool,
) -> M::Value
    requires { All (IsListenerWithin (length plan.now.rows)) listeners.now }
    ensures { M.Measures measure.old (each_of (cost_of_listener plan.now active) listeners.now) measure.new result }
{
    let mut total = measure.lines(0);
    for listener in listeners {
        let act = listener.act(active);
        let cost = measure_call::<OneDevice, M>(measure, plan, listener.row, Call::Act(act));
        total = measure.both(total, cost);
    }
    total
}

/// The arrival of a ball on the playfield, if the switch reports one when it becomes active.
fn measure_playfield_switch<M: Measure>(
    measure: &mut M,
    plan: &Plan,
    switch: SwitchId,
    active: bool,
) -> M::Value
    requires { switch.0 < length plan.now.switches }
    ensures { M.Measures measure.old (cost_of_playfield_switch plan.now switch active) measure.new result }
{
    if active && plan.confirms_playfield(switch) {
        measure_telling(measure, plan, Telling::Arrived(BallTarget::Playfield))
    } else {
        measure.lines(0)
    }
}

fn measure_posts<M: Measure>(measure: &mut M, posts: &[EventId]) -> M::Value
    ensures { M.Measures measure.old (each_of cost_of_post posts.now) measure.new result }
{
    let mut total = measure.lines(0);
    for event in posts {
        let post = measure.weight(*event);
        total = measure.both(total, post);
    }
    total
}
