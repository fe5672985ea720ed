//! The bindings that handle each event, in the order of their priorities.

ghost use Rattle.std.specs.Prelude.{◌≡◌, ◌+◌, ◌<◌, ◌≤◌, ◌++◌, true, false, Bool, List, [], ◌∷◌, length, slice_index_or};
ghost use Rattle.std.specs.Prelude.{vec_capacity, IfOk};
ghost use Rattle.std.specs.{List.{All, AllPairs, AllWithin}, Ordering.is_lt};
ghost use Rattle.plan_tables.specs.declared.entries.BindingId.{BindingId};
ghost use Rattle.plan_tables.specs.PlanView.{binding_at, no_binding};
ghost use Rattle.event_queue.specs.Handlers.{runs_at, takes_part};
ghost use Rattle.event_queue.specs.OrderedLists.{put, put_all, IsOrdered, IsPlaceOf, IsInTurn, ranks_before};
ghost use Rattle.event_queue.specs.OrderedLists.{runs_before, stands_before, HasOrders, HasOwned, IsOwnedBy, IsGroup};
ghost use Rattle.event_queue.specs.OrderedLists.{also, also_all, without_all};

use plan_tables::{Binding, BindingId, EventId, ModeId, Owner, Plan};
use std::alloc::{AllocError, Global};
use std::cmp::Ordering;

/// For each mode of a plan the places of its bindings: those of an event together, in plan order.
pub(crate) fn owned_places(alloc: Global, plan: &Plan) -> Result<Vec<Vec<BindingId>>, AllocError>
    ensures { IfOk result (λ places_of_modes. HasOwned plan.now places_of_modes.items) }
{
    let modes = plan.mode_count();
    let mut places_of_modes = Vec::with_capacity(alloc, modes)?;
    for number in 0..modes {
        let own = places_of_mode(alloc, plan, ModeId(number as u16))?;
        places_of_modes.push(own)?;
    }
    Ok(places_of_modes)
}

/// The places of a mode's bindings: those of an event together, in plan order.
fn places_of_mode(alloc: Global, plan: &Plan, mode: ModeId) -> Result<Vec<BindingId>, AllocError>
    requires { mode.0 < length plan.now.modes }
    ensures { IfOk result (λ own. IsOwnedBy plan.now mode own.items) }
{
    let mut own = Vec::from_slice(alloc, plan.bindings_of_mode(mode))?;
    own.sort_unstable_by(|one, other| compare(plan, *one, *other));
    Ok(own)
}

/// Which of two places stands first, by [`stands_before`]. No place stands twice.
fn compare(plan: &Plan, one: BindingId, other: BindingId) -> Ordering
    ensures { is_lt result ≡ stands_before plan.now one other }
{
    if stands_before(plan, one, other) {
        Ordering::Less
    } else {
        Ordering::Greater
    }
}

/// Whether a place is of a lower event than another one, or of the same event, and runs before it.
fn stands_before(plan: &Plan, one: BindingId, other: BindingId) -> bool
    ensures { result ≡ stands_before plan.now one other }
{
    let bindings = plan.bindings();
    let (first, second) = (event_number(bindings, one), event_number(bindings, other));
    let runs = runs_before(
        priority(bindings, one),
        one,
        priority(bindings, other),
        other,
    );
    first < second || first == second && runs
}

/// For each event of a plan the order of what takes part while these modes run.
pub(crate) fn first_orders(
    alloc: Global,
    plan: &Plan,
    running: &[bool],
) -> Result<Vec<Vec<BindingId>>, AllocError>
    ensures { IfOk result (λ orders. HasOrders plan.now (runs_at plan.now running.now) orders.items) }
{
    let mut orders = rooms(alloc, plan)?;
    for number in 0..plan.binding_count() {
        let place = BindingId(number as u16);
        if takes_part(running, plan.binding(place).owner) {
            add_place(&mut orders, plan, place);
        }
    }
    Ok(orders)
}

/// For each event of a plan room for all that is bound to it. Nothing takes part.
fn rooms(alloc: Global, plan: &Plan) -> Result<Vec<Vec<BindingId>>, AllocError>
    ensures { IfOk result (λ orders. HasOrders plan.now (λ p. false) orders.items) }
{
    let events = plan.event_count();
    let mut orders = Vec::with_capacity(alloc, events)?;
    for number in 0..events {
        let bound = plan.bindings_of(EventId(number as u16)).len();
        orders.push(Vec::with_capacity(alloc, bound)?)?;
    }
    Ok(orders)
}

/// The binding at a place takes part from now on. It did not before.
fn add_place(orders: &mut Vec<Vec<BindingId>>, plan: &Plan, place: BindingId)
    requires place { place.0 < length plan.now.bindings }
    requires orders { (takes : BindingId → Bool) × HasOrders plan.now takes orders.old.items × (takes place ≡ false) }
    ensures { (takes : BindingId → Bool) → HasOrders plan.now takes orders.old.items → takes place ≡ false
        → HasOrders plan.now (also takes place) orders.new.items }
{
    let event = plan.binding(place).event;
    put_in(&mut orders[event.0 as usize], plan, place);
}

/// Of places that stand by event, how many are of the event of the first one, from it on.
pub(crate) fn of_one_event(plan: &Plan, places: &[BindingId]) -> usize
    requires { 0 < length places.now }
    ensures count { (0 < result) × (result ≤ length places.now) }
    ensures same { (first : BindingId) → AllWithin
        (λ p. (binding_at plan.now p).event.0 ≡ (binding_at plan.now (slice_index_or places.now 0 first)).event.0)
        places.now 0 result }
{
    let bindings = plan.bindings();
    let event = event_number(bindings, places[0]);
    for number in 1..places.len() {
        if event_number(bindings, places[number]) != event {
            return number;
        }
    }
    places.len()
}

/// The bindings at places of one event take part from now on. They did not before.
pub(crate) fn add_group(
    orders: &mut Vec<Vec<BindingId>>,
    fresh: &mut Vec<BindingId>,
    plan: &Plan,
    group: &[BindingId],
)
    requires group { IsGroup plan.now group.now }
    requires orders { (takes : BindingId → Bool) × HasOrders plan.now takes orders.old.items
        × All (λ p. takes p ≡ false) group.now }
    requires room { length plan.now.bindings ≤ vec_capacity fresh.old }
    ensures orders { (takes : BindingId → Bool) → HasOrders plan.now takes orders.old.items
        → All (λ p. takes p ≡ false) group.now → HasOrders plan.now (also_all takes group.now) orders.new.items }
    ensures room { vec_capacity fresh.old ≤ vec_capacity fresh.new }
{
    let event = plan.binding(group[0]).event;
    let order = &mut orders[event.0 as usize];
    merge(fresh, plan, order, group);
    replace(order, fresh);
}

/// The bindings at places of one event take part no more. They did before.
pub(crate) fn drop_group(
    orders: &mut Vec<Vec<BindingId>>,
    fresh: &mut Vec<BindingId>,
    plan: &Plan,
    group: &[BindingId],
)
    requires group { IsGroup plan.now group.now }
    requires orders { (takes : BindingId → Bool) × HasOrders plan.now takes orders.old.items
        × All (λ p. takes p ≡ true) group.now }
    requires room { length plan.now.bindings ≤ vec_capacity fresh.old }
    ensures orders { (takes : BindingId → Bool) → HasOrders plan.now takes orders.old.items
        → All (λ p. takes p ≡ true) group.now → HasOrders plan.now (without_all takes group.now) orders.new.items }
    ensures room { vec_capacity fresh.old ≤ vec_capacity fresh.new }
{
    let event = plan.binding(group[0]).event;
    let order = &mut orders[event.0 as usize];
    part(fresh, plan, order, group);
    replace(order, fresh);
}

/// Writes down an order with the places of a group among it. Each place is looked for only after
/// the one before it, so that this is one walk.
fn merge(fresh: &mut Vec<BindingId>, plan: &Plan, order: &[BindingId], group: &[BindingId])
    requires order { IsOrdered (runs_before plan.now) order.now }
    requires group { IsInTurn (runs_before plan.now) group.now }
    requires room { length order.now + length group.now ≤ vec_capacity fresh.old }
    ensures items { fresh.new.items ≡ put_all (runs_before plan.now) group.now order.now }
    ensures capacity { vec_capacity fresh.old ≤ vec_capacity fresh.new }
{
    fresh.clear();
    let mut rest_of_order = order;
    let mut rest = group;
    while let [place, more @ ..] = rest {
        let (before, after) = rest_of_order.split_at(index_of(rest_of_order, plan, *place));
        add_all(fresh, before);
        add_one(fresh, *place);
        rest_of_order = after;
        rest = more;
    }
    add_all(fresh, rest_of_order);
}

/// Writes down an order without the places of a group, which are among it. As `merge`, this is one
/// walk.
fn part(fresh: &mut Vec<BindingId>, plan: &Plan, order: &[BindingId], group: &[BindingId])
    requires order { IsOrdered (runs_before plan.now) order.now }
    requires group { IsInTurn (runs_before plan.now) group.now }
    requires among { (others : List BindingId) × IsOrdered (runs_before plan.now) others
        × (order.now ≡ put_all (runs_before plan.now) group.now others) }
    requires room { length order.now ≤ vec_capacity fresh.old }
    ensures items { (others : List BindingId) → IsOrdered (runs_before plan.now) others
        → order.now ≡ put_all (runs_before plan.now) group.now others → fresh.new.items ≡ others }
    ensures capacity { vec_capacity fresh.old ≤ vec_capacity fresh.new }
{
    fresh.clear();
    let mut rest_of_order = order;
    let mut rest = group;
    while let [place, more @ ..] = rest {
        let (before, after) = rest_of_order.split_at(index_of(rest_of_order, plan, *place));
        add_all(fresh, before);
        rest_of_order = &after[1..];
        rest = more;
    }
    add_all(fresh, rest_of_order);
}

/// From now on an order has these places. There has to be room for them.
fn replace(order: &mut Vec<BindingId>, places: &[BindingId])
    requires { length places.now ≤ vec_capacity order.old }
    ensures items { order.new.items ≡ places.now }
    ensures capacity { vec_capacity order.old ≤ vec_capacity order.new }
{
    order.clear();
    add_all(order, places);
}

/// Adds places at the end of others. There has to be room for them.
fn add_all(to: &mut Vec<BindingId>, places: &[BindingId])
    requires { length to.old.items + length places.now ≤ vec_capacity to.old }
    ensures items { to.new.items ≡ to.old.items ++ places.now }
    ensures capacity { vec_capacity to.old ≤ vec_capacity to.new }
{
    match to.extend_from_slice(places) {
        Ok(()) => {}
        Err(_) => unreachable!(),
    }
}

/// As `add_all`, of one place.
fn add_one(to: &mut Vec<BindingId>, place: BindingId)
    requires { length to.old.items < vec_capacity to.old }
    ensures items { to.new.items ≡ to.old.items ++ place ∷ [] }
    ensures capacity { vec_capacity to.old ≤ vec_capacity to.new }
{
    match to.push(place) {
        Ok(()) => {}
        Err(_) => unreachable!(),
    }
}

/// Puts a place into an order, which has room for it.
fn put_in(order: &mut Vec<BindingId>, plan: &Plan, place: BindingId)
    requires order { IsOrdered (runs_before plan.now) order.old.items }
    requires room { length order.old.items < vec_capacity order.old }
    ensures items { order.new.items ≡ put (runs_before plan.now) place order.old.items }
    ensures capacity { vec_capacity order.old ≤ vec_capacity order.new }
{
    let at = index_of(order, plan, place);
    match order.insert(at, place) {
        Ok(()) => {}
        Err(_) => unreachable!(),
    }
}

/// How many places in an order run before this one. It looks at the first one, and then halves:
/// those of a mode mostly stand together.
fn index_of(order: &[BindingId], plan: &Plan, place: BindingId) -> usize
    requires { IsOrdered (runs_before plan.now) order.now }
    ensures { IsPlaceOf (runs_before plan.now) place order.now result }
{
    let bindings = plan.bindings();
    let own = priority(bindings, place);
    let Some(first) = order.first() else {
        return 0;
    };
    if !runs_before(priority(bindings, *first), *first, own, place) {
        return 0;
    }
    order.partition_point(|other| runs_before(priority(bindings, *other), *other, own, place))
}

/// Whether a binding of the priority `one` at the first place runs before one of the priority
/// `other` at the second: it has the higher priority, or the same priority and the lower place.
fn runs_before(one: u32, first: BindingId, other: u32, second: BindingId) -> bool
    ensures { result ≡ ranks_before one first other second }
{
    other < one || one == other && first.0 < second.0
}

/// The number of the event of the binding at a place, 0 if there is none.
fn event_number(bindings: &[Binding], place: BindingId) -> u16
    ensures { result ≡ (slice_index_or bindings.now place.0 no_binding).event.0 }
{
    match bindings.get(place.0 as usize) {
        Some(binding) => binding.event.0,
        None => 0,
    }
}

/// The priority of the binding at a place, 0 if there is none.
fn priority(bindings: &[Binding], place: BindingId) -> u32
    ensures { result ≡ (slice_index_or bindings.now place.0 no_binding).priority }
{
    match bindings.get(place.0 as usize) {
        Some(binding) => binding.priority,
        None => 0,
    }
}

/// Whether the bindings of an owner take part while these modes run.
fn takes_part(running: &[bool], owner: Owner) -> bool
    ensures { result ≡ takes_part running.now owner }
{
    match owner {
        Owner::Machine => true,
        Owner::Mode(mode) => running.get(mode.0 as usize).copied().unwrap_or(false),
    }
}
