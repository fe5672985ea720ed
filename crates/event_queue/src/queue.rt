//! The events that wait.

use circular_buffer::HeapCircularBuffer;
use plan_tables::{EventId, Owner};
use std::alloc::{AllocError, Global};
use std::marker::Model;
use thiserror::Error;

/// An event that waits, and who posted it.
#[derive(Clone, Copy, Debug)]
pub struct Posted {
    /// The event that was posted.
    pub event: EventId,
    /// Who posted it.
    pub owner: Owner,
}

/// No more events may wait.
#[derive(Clone, Copy, Debug, Error)]
#[error("Full")]
pub struct Full;

/// The events that wait, first posted first. Its room is made once, so that neither adding nor
/// taking an event needs memory.
#[derive(Drop)]
pub struct Queue {
    waiting: HeapCircularBuffer<Posted>,
}

/// What the room is written with.
const ANY: Posted = Posted {
    event: EventId(0),
    owner: Owner::Machine,
};

impl Model for Queue {
    ghost use Rattle.event_queue.specs.Queue.{QueueView};

    ghost Value = { QueueView };

    ghost view = { λ q. record { size = q.waiting.capacity; waiting = q.waiting.items } };

    ghost use Rattle.std.specs.Prelude.{◌≤◌, length};

    ghost invariant = { λ q. length q.waiting.items ≤ q.waiting.capacity };
}

impl Queue {
    ghost use Rattle.std.specs.Prelude.{◌≡◌, IfOk};
    ghost use Rattle.event_queue.specs.Queue.{empty, IsPushed, IsTaken};

    /// An empty queue in which at most `size` events may wait. Fails only by memory. Its room is
    /// written once, so that no event waits for a page of memory later.
    pub fn new(alloc: Global, size: usize) -> Result<Queue, AllocError>
        ensures { IfOk result (λ q. q ≡ empty size) }
    {
        let mut waiting = HeapCircularBuffer::with_capacity(alloc, size)?;
        for _ in 0..size {
            let _ = waiting.try_push_back(ANY);
        }
        waiting.clear();
        Ok(Queue { waiting })
    }

    /// Adds an event after all others.
    ///
    /// # Errors
    ///
    /// `Full` exactly when as many events wait as may. Nothing has changed then.
    pub fn push(&mut self, event: Posted) -> Result<(), Full>
        ensures { IsPushed event result self.old self.new }
    {
        self.waiting.try_push_back(event).map_err(|_| Full)
    }

    /// Takes the event that waits first, or none if none waits.
    pub fn take(&mut self) -> Option<Posted>
        ensures { IsTaken result self.old self.new }
    {
        self.waiting.pop_front()
    }
}
