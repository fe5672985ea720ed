//! Which events lead to each event.

ghost use Rattle.std.specs.Prelude.{◌≡◌, ◌<◌, length, IfOk, OnOk};
ghost use Rattle.std.specs.List.{All};
ghost use Rattle.plan_tables.specs.Valid.{IsEventWithin};
ghost use Rattle.cascade_rank.specs.Cost.{each_of, cost_of_post};
ghost use Rattle.cascade_rank.specs.Leaders.{AddsLeader, HasLeaders};

use crate::posts::Posts;
use plan_tables::{EventId, Plan};
use std::alloc::{AllocError, Global};
use std::marker::Model;

/// For each event, the events that lead to it, each as often as it does.
#[derive(Drop)]
pub(crate) struct Leaders {
    lists: Vec<Vec<EventId>>,
}

impl Model for Leaders {
    ghost use Rattle.std.specs.Prelude.{List, map};
    ghost use Rattle.plan_tables.specs.declared.entries.EventId.{EventId};

    ghost Value = { List (List EventId) };

    ghost view = { λ l. map (λ v. v.items) l.lists.items };
}

impl Leaders {
    ghost use Rattle.std.specs.Prelude.{[], ◌∷◌, ◌++◌, replicate, slice_set};
    ghost use Rattle.cascade_rank.specs.Leaders.{leaders_to};

    /// No event leads to any of so many.
    fn new(alloc: Global, events: usize) -> Result<Leaders, AllocError>
        ensures { IfOk result (λ leaders. leaders ≡ replicate events []) }
    {
        let mut lists = Vec::with_capacity(alloc, events)?;
        for _ in 0..events {
            lists.push(Vec::new(alloc))?;
        }
        Ok(Leaders { lists })
    }

    /// One more time `leader` leads to the event.
    fn add(&mut self, event: EventId, leader: EventId) -> Result<(), AllocError>
        requires { event.0 < length self.old }
        ensures { OnOk result (self.new ≡ slice_set self.old event.0 (leaders_to self.old event ++ leader ∷ [])) }
    {
        self.lists[event.0 as usize].push(leader)?;
        Ok(())
    }

    /// The events that lead to the event.
    pub(crate) fn of(&self, event: EventId) -> &[EventId]
        requires { event.0 < length self.now }
        ensures { result.now ≡ leaders_to self.now event }
    {
        self.lists[event.0 as usize].as_slice()
    }
}

/// Which events lead to each event, and how many posts each event leads to.
pub(crate) fn count_posts(alloc: Global, plan: &Plan) -> Result<(Leaders, Vec<usize>), AllocError>
    ensures { IfOk result (λ counted. HasLeaders plan.now (length plan.now.events) counted.0 counted.1.items) }
{
    let mut leaders = Leaders::new(alloc, plan.event_count())?;
    let mut open_posts = Vec::with_capacity(alloc, plan.event_count())?;
    let mut posts = Posts::new(alloc);
    for number in 0..plan.event_count() {
        let event = EventId(number as u16);
        let followers = posts.of(plan, event)?;
        add_event(&mut leaders, event, followers)?;
        open_posts.push(followers.len())?;
    }
    Ok((leaders, open_posts))
}

/// The event leads to each of these.
fn add_event(leaders: &mut Leaders, event: EventId, posts: &[EventId]) -> Result<(), AllocError>
    requires { All (IsEventWithin (length leaders.old)) posts.now }
    ensures { OnOk result (AddsLeader event (each_of cost_of_post posts.now) leaders.old leaders.new) }
{
    for post in posts {
        leaders.add(*post, event)?;
    }
    Ok(())
}
