//! What the machine itself does at each event.

ghost use Rattle.std.specs.Prelude.{◌≡◌, ◌==◌, ◌<◌, ◌≤◌, length, map, position, slice_get, slice_set, IfOk, IfSome};
ghost use Rattle.std.specs.List.{range_with_len};
ghost use Rattle.plan_tables.specs.GameEvents.{game_events};
ghost use Rattle.plan_tables.specs.PlanView.{PlanView, game_work};
ghost use Rattle.plan_tables.specs.PlanFields.{mode_entry_view, HasWorks, AreModeWorks, AreWorksFrom};

use crate::entries::{
    EventId, GAME_EVENTS, GameEvent, GameRules, ModeEntry, ModeEvent, ModeEvents, ModeId, Work,
};
use std::alloc::{AllocError, Global};

/// The work of each of so many events.
pub(crate) fn works_by_event(
    alloc: Global,
    events: usize,
    modes: &[ModeEntry],
    game: Option<GameRules>,
) -> Result<Vec<Work>, AllocError>
    requires events { events ≤ 4096 }
    requires modes { length modes.now ≤ 64 }
    ensures { IfOk result (λ works. (plan : PlanView) → length plan.events ≡ events
        → plan.modes ≡ map mode_entry_view modes.now → plan.game ≡ game → HasWorks plan works.items) }
{
    let mut works = works_of_game(alloc, events, game)?;
    set_works_of_modes(&mut works, modes);
    Ok(works)
}

/// The work of each of so many events in the game.
fn works_of_game(
    alloc: Global,
    events: usize,
    game: Option<GameRules>,
) -> Result<Vec<Work>, AllocError>
    requires { events ≤ 4096 }
    ensures { IfOk result (λ works. works.items
        ≡ map (λ e. game_work game (record { 0 = e })) (range_with_len 0 events)) }
{
    let mut works = Vec::with_capacity(alloc, events)?;
    for event in 0..events {
        let work = work_of_game(game, EventId(event as u16));
        works.push(work)?;
    }
    Ok(works)
}

/// The work of an event in the game.
fn work_of_game(game: Option<GameRules>, event: EventId) -> Work
    ensures { result ≡ game_work game event }
{
    let Some(rules) = game else {
        return Work::Nothing;
    };
    match place_of(&rules.events, event) {
        None => Work::Nothing,
        Some(place) => Work::Game(game_event_at(place)),
    }
}

/// The place of an event among these; none if it is not there.
fn place_of(events: &[EventId], event: EventId) -> Option<usize>
    ensures place { result ≡ position (λ f. f.0 == event.0) events.now }
    ensures within { IfSome result (λ place. place < length events.now) }
{
    events.iter().position(|other| other.0 == event.0)
}

/// The game's event at a place.
fn game_event_at(place: usize) -> GameEvent
    requires { place < 21 }
    ensures { slice_get game_events place ≡ Some result }
{
    GAME_EVENTS[place]
}

/// Sets the work of the events of these modes. An event of two modes has the work of the first.
fn set_works_of_modes(works: &mut [Work], modes: &[ModeEntry])
    requires { length modes.now ≤ 64 }
    ensures { AreWorksFrom 0 (map mode_entry_view modes.now) works.old works.new }
{
    let mut number = modes.len();
    while number > 0 {
        number -= 1;
        set_works_of_mode(works, number, modes[number].mode.events);
    }
}

/// Sets the work of the events of a mode. If two of them are one, it has the work of the first.
fn set_works_of_mode(works: &mut [Work], number: usize, events: ModeEvents)
    requires { number < 64 }
    ensures { AreModeWorks number events works.old works.new }
{
    let mode = ModeId(number as u16);
    set_work(works, events.stopped, Work::Mode(mode, ModeEvent::Stopped));
    set_work(
        works,
        events.stopping,
        Work::Mode(mode, ModeEvent::Stopping),
    );
    set_work(works, events.started, Work::Mode(mode, ModeEvent::Started));
    set_work(
        works,
        events.starting,
        Work::Mode(mode, ModeEvent::Starting),
    );
    set_work(
        works,
        events.will_start,
        Work::Mode(mode, ModeEvent::WillStart),
    );
}

/// Sets the work of an event, if it is one of these.
fn set_work(works: &mut [Work], event: EventId, work: Work)
    ensures { works.new ≡ slice_set works.old event.0 work }
{
    let place = event.0 as usize;
    if place < works.len() {
        works[place] = work;
    }
}
