//! The accepted level of every switch.

ghost use Rattle.std.specs.Prelude.{◌≡◌, ◌<◌, ◌≤◌, true, if◌then◌else◌, is_some, MatchOption, List, length, take};
ghost use Rattle.std.specs.Prelude.{slice_set, vec_capacity};
ghost use Rattle.std.specs.List.{insert, remove};
ghost use Rattle.switch_core.specs.SwitchStep.{SwitchState};
ghost use Rattle.switch_core.specs.PendingSwitches.{waiting_from, soonest, IsWaiting};

use crate::change::Change;
use crate::state::State;
use plan_tables::Plan;
use plan_tables::entries::{SwitchId, SwitchKind};
use std::alloc::{AllocError, Global};
use std::marker::Model;

/// The raw and the accepted level of every switch of a plan. Moments are milliseconds, below 2^40.
///
/// A new raw level of a quick switch is accepted at once. For any other switch it is due 5 ms
/// later, and `fire` then accepts it. A change back to the accepted level before that cancels it.
#[derive(Drop)]
pub struct Switches {
    kinds: Vec<SwitchKind>,
    states: Vec<State>,
    /// Every switch that is due, with its moment: lower numbers first. There is room for all
    /// switches. Mostly there are few, so that what is due next is found without a look at the
    /// states of all switches.
    waiting: Vec<(u64, SwitchId)>,
    /// What is due next. It is looked for only when a due moment changes.
    next: Option<(u64, SwitchId)>,
}

impl Model for Switches {
    ghost use Rattle.std.specs.Prelude.{map};
    ghost use Rattle.switch_core.specs.StateView.{state_view};
    ghost use Rattle.switch_core.specs.Switches.{SwitchesView};
    ghost use Rattle.switch_core.specs.PendingSwitches.{IsKept};

    ghost Value = { SwitchesView };

    ghost view = { λ s. record { kinds = s.kinds.items; states = map state_view s.states.items } };

    ghost invariant = { λ s. IsKept s.next s.waiting
        (record { kinds = s.kinds.items; states = map state_view s.states.items }) };
}

impl Switches {
    ghost use Rattle.std.specs.Prelude.{◌≡◌, ◌<◌, ◌^◌, length, Some, IsSome, IfOk, IfSome, IfNone};
    ghost use Rattle.switch_core.specs.Switches.{IsComplete, active_at, all_idle, after_change, reported_by_change};
    ghost use Rattle.switch_core.specs.Switches.{IsNextDue, IsNothingDue, next_due, after_fire, reported_by_fire};

    /// All switches of the plan, inactive: at raw level 0, or 1 if the contact is normally closed.
    /// Only this call takes memory.
    ///
    /// # Errors
    ///
    /// `AllocError`: memory ran out.
    pub fn new(alloc: Global, plan: &Plan) -> Result<Switches, AllocError>
        ensures idle { IfOk result (λ s. s ≡ all_idle plan.now) }
        ensures count { IfOk result (λ s. length s.kinds ≡ length plan.now.switches) }
        ensures complete { IfOk result (λ s. IsComplete s) }
    {
        let count = plan.switch_count();
        let mut kinds = Vec::with_capacity(alloc, count)?;
        let mut states = Vec::with_capacity(alloc, count)?;
        let waiting = Vec::with_capacity(alloc, count)?;
        for number in 0..count {
            let kind = plan.switch_kind(SwitchId(number as u16));
            kinds.push_reserved(kind);
            states.push_reserved(State::idle(kind));
        }
        Ok(Switches {
            kinds,
            states,
            waiting,
            next: None,
        })
    }

    /// Changes the raw level of a switch of the plan at the moment `now`, below 2^40 ms. Reports
    /// the new accepted level if it is accepted at once. If the switch has this raw level already,
    /// nothing happens.
    ///
    /// Before this call, everything that is due at or before `now` has to be accepted (by `fire`).
    pub fn change(&mut self, switch: SwitchId, level: bool, now: u64) -> Option<Change>
        requires switch { switch.0 < length self.old.kinds }
        requires now { now < 2 ^ 40 }
        ensures state { self.new ≡ after_change switch level now self.old }
        ensures reports { result ≡ reported_by_change switch level now self.old }
        ensures complete { IsComplete self.new }
    {
        let number = switch.0 as usize;
        let kind = self.kinds[number];
        let old = self.states[number];
        let new = old.change_level(kind, level, now);
        self.states[number] = new;
        if new.due != old.due {
            set_due(&mut self.waiting, switch, old.due, new.due);
            self.next = soonest(&self.waiting);
        }
        let active = new.active;
        old.takes(kind, level).then_some(Change { switch, active })
    }

    /// The switch whose raw level is to be accepted next, and when: the earliest moment, and at one
    /// moment the lowest-numbered switch. None if nothing is due.
    pub fn due(&self) -> Option<(u64, SwitchId)>
        ensures next { result ≡ next_due self.now }
        ensures least { IfSome result (λ d. IsNextDue self.now d.0 d.1) }
        ensures within { IfSome result (λ d. d.1.0 < length self.now.kinds) }
        ensures none { IfNone result (IsNothingDue self.now) }
        ensures complete { IsComplete self.now }
    {
        self.next
    }

    /// Accepts the raw level that is due next, and reports the new accepted level. Something has to
    /// be due, as `due` says.
    pub fn fire(&mut self) -> Change
        requires { IsSome (next_due self.old) }
        ensures state { self.new ≡ after_fire self.old }
        ensures reports { reported_by_fire self.old ≡ Some result }
        ensures kinds { self.new.kinds ≡ self.old.kinds }
        ensures complete { IsComplete self.new }
    {
        let Some((_, switch)) = self.next else {
            unreachable!()
        };
        let number = switch.0 as usize;
        let old = self.states[number];
        let new_state = old.fire_change(self.kinds[number]);
        self.states[number] = new_state;
        set_due(&mut self.waiting, switch, old.due, new_state.due);
        self.next = soonest(&self.waiting);
        let active = new_state.active;
        Change { switch, active }
    }

    /// Whether a switch of the plan is active by the level that was accepted last.
    pub fn active(&self, switch: SwitchId) -> bool
        requires { switch.0 < length self.now.kinds }
        ensures active { result ≡ active_at self.now switch }
        ensures complete { IsComplete self.now }
    {
        self.states[switch.0 as usize].active
    }
}

/// A switch that was due at the moment `was` is due at `due` from now on; `None` means that it is not
/// due. The other switches in the list stay.
fn set_due(waiting: &mut Vec<(u64, SwitchId)>, switch: SwitchId, was: Option<u64>, due: Option<u64>)
    requires { (states : List SwitchState) × IsWaiting switch was states waiting.old.items
        × (length states ≤ vec_capacity waiting.old) }
    ensures items { (states : List SwitchState) (new : SwitchState) → IsWaiting switch was states waiting.old.items
        → new.due ≡ due → waiting.new.items ≡ waiting_from 0 (slice_set states switch.0 new) }
    ensures capacity { vec_capacity waiting.old ≤ vec_capacity waiting.new }
{
    let at = place_of(waiting, switch);
    take_out(waiting, at, was);
    put_in(waiting, at, switch, due);
}

/// Takes out the switch at a place, if it was due.
fn take_out(waiting: &mut Vec<(u64, SwitchId)>, at: usize, was: Option<u64>)
    requires { is_some was ≡ true → at < length waiting.old.items }
    ensures items { waiting.new.items ≡ (if is_some was then remove waiting.old.items at else waiting.old.items) }
    ensures capacity { vec_capacity waiting.new ≡ vec_capacity waiting.old }
{
    if was.is_some() {
        let _was = waiting.remove(at);
    }
}

/// Puts in a switch at a place, if it is due. There has to be room for it.
fn put_in(waiting: &mut Vec<(u64, SwitchId)>, at: usize, switch: SwitchId, due: Option<u64>)
    requires place { at ≤ length waiting.old.items }
    requires room { length waiting.old.items < vec_capacity waiting.old }
    ensures items { MatchOption due (waiting.new.items ≡ waiting.old.items)
        (λ moment. waiting.new.items ≡ insert waiting.old.items at (moment, switch)) }
    ensures capacity { vec_capacity waiting.old ≤ vec_capacity waiting.new }
{
    let Some(moment) = due else {
        return;
    };
    match waiting.insert(at, (moment, switch)) {
        Ok(()) => {}
        Err(_) => unreachable!(),
    }
}

/// How many of those that wait have a lower number, found by halving.
fn place_of(waiting: &[(u64, SwitchId)], switch: SwitchId) -> usize
    ensures { (states : List SwitchState) → waiting.now ≡ waiting_from 0 states
        → result ≡ length (waiting_from 0 (take switch.0 states)) }
{
    waiting.partition_point(|other| other.1.0 < switch.0)
}

/// Of those that wait the one of the least moment, and of equal moments the lowest number.
fn soonest(waiting: &[(u64, SwitchId)]) -> Option<(u64, SwitchId)>
    ensures { result ≡ soonest waiting.now }
{
    let (first, rest) = waiting.split_first()?;
    let mut next = *first;
    for due in rest {
        if due.0 < next.0 {
            next = *due;
        }
    }
    Some(next)
}
