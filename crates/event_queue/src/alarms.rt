//! The alarms of devices, which wait for their moments.

ghost use Rattle.std.specs.Prelude.{◌≡◌, ◌≤◌, ◌<◌, ℕ, List, length};
ghost use Rattle.std.specs.VecDeque.{deque_capacity};
ghost use Rattle.event_queue.specs.Alarms.{comes_before, alarm_of};
ghost use Rattle.event_queue.specs.OrderedLists.{put_alarm, IsOrdered, IsPlaceOf};

use plan_tables::RowId;
use std::alloc::{AllocError, Global};
use std::collections::VecDeque;
use std::marker::Model;

/// The moment at which each device is due, if it is, by the number of its row. Moments are
/// milliseconds, and may be any number.
#[derive(Drop)]
pub struct Alarms {
    dues: Vec<Option<u64>>,
    /// Every row that is due, with its moment: lower moments first, and of equal ones lower rows.
    /// There is room for all rows. It is a queue of two ends, since most alarms are taken out in
    /// front, and put in near the end.
    queue: VecDeque<(u64, RowId)>,
}

impl Model for Alarms {
    ghost use Rattle.std.specs.Prelude.{ℕ, Option, List};

    ghost Value = { List (Option ℕ) };

    ghost view = { λ a. a.dues.items };

    ghost use Rattle.std.specs.Prelude.{◌≡◌, ◌≤◌, ◌<◌, ◌^◌, length};
    ghost use Rattle.std.specs.VecDeque.{deque_capacity};
    ghost use Rattle.event_queue.specs.OrderedLists.{ordered_alarms};

    ghost invariant = { λ a. (length a.dues.items < 2 ^ 16) × (a.queue.items ≡ ordered_alarms a.dues.items)
        × (length a.dues.items ≤ deque_capacity a.queue) };
}

impl Alarms {
    ghost use Rattle.std.specs.Prelude.{◌≡◌, ◌<◌, length, replicate, slice_set, None, IfOk, IfSome};
    ghost use Rattle.event_queue.specs.Alarms.{due_of, least_of};

    /// So many rows, none of which is due. Only this call takes memory. Fails only by memory.
    pub fn new(alloc: Global, rows: u16) -> Result<Alarms, AllocError>
        ensures { IfOk result (λ a. a ≡ replicate rows None) }
    {
        Ok(Alarms {
            dues: vec![in alloc; None; rows as usize]?,
            queue: VecDeque::with_capacity(alloc, rows as usize)?,
        })
    }

    /// From now on a row is due at this moment, or not at all. Nothing else changes.
    #[inline(always)]
    pub fn set(&mut self, row: RowId, due: Option<u64>)
        requires { row.0 < length self.old }
        ensures { self.new ≡ slice_set self.old row.0 due }
    {
        // Most calls of a device leave its moment as it was.
        if self.dues[row.0 as usize] != due {
            self.move_alarm(row, due);
        }
    }

    /// As `set`, and slower if nothing changes. Takes the row's alarm out, and puts the new one
    /// in: each time only the alarms on the shorter side of its place move. It is never inlined, so
    /// that `set` stays small.
    #[inline(never)]
    fn move_alarm(&mut self, row: RowId, due: Option<u64>)
        requires { row.0 < length self.old }
        ensures { self.new ≡ slice_set self.old row.0 due }
    {
        let Alarms { dues, queue } = self;
        let was = dues[row.0 as usize];
        dues[row.0 as usize] = due;
        take_out(queue, alarm_of(row, was));
        put_in(queue, alarm_of(row, due));
    }

    /// The moment at which a row is due, if there is such a row and it is due.
    pub fn due(&self, row: RowId) -> Option<u64>
        ensures { result ≡ due_of self.now row }
    {
        self.dues.get(row.0 as usize).copied().flatten()
    }

    /// The least moment at which a row is due, and of the rows that are due then the lowest. None
    /// if no row is due. This looks through no rows.
    pub fn least(&self) -> Option<(u64, RowId)>
        ensures least { result ≡ least_of self.now }
        ensures within { IfSome result (λ alarm. alarm.1.0 < length self.now) }
    {
        self.queue.front().copied()
    }
}

/// Puts an alarm, if there is one, among those in order. There has to be room for it.
fn put_in(queue: &mut VecDeque<(u64, RowId)>, alarm: Option<(u64, RowId)>)
    requires order { IsOrdered comes_before queue.old.items }
    requires room { length queue.old.items < deque_capacity queue.old }
    ensures items { queue.new.items ≡ put_alarm alarm queue.old.items }
    ensures capacity { deque_capacity queue.old ≤ deque_capacity queue.new }
{
    let Some(alarm) = alarm else {
        return;
    };
    let place = place_of(queue, alarm);
    match queue.insert(place, alarm) {
        Ok(()) => {}
        Err(_) => unreachable!(),
    }
}

/// Takes an alarm, if there is one, out of those in order, of which it is one.
fn take_out(queue: &mut VecDeque<(u64, RowId)>, alarm: Option<(u64, RowId)>)
    requires { (rest : List (ℕ × RowId)) × IsOrdered comes_before rest × (queue.old.items ≡ put_alarm alarm rest) }
    ensures items { (rest : List (ℕ × RowId)) → queue.old.items ≡ put_alarm alarm rest → queue.new.items ≡ rest }
    ensures capacity { deque_capacity queue.new ≡ deque_capacity queue.old }
{
    let Some(alarm) = alarm else {
        return;
    };
    let place = place_of(queue, alarm);
    let _taken = queue.remove(place);
}

/// How many alarms come before this one. It looks at the front and at the back first, and then
/// halves: most alarms are taken out in front, and many are put in at the end.
fn place_of(queue: &VecDeque<(u64, RowId)>, alarm: (u64, RowId)) -> usize
    requires { IsOrdered comes_before queue.now.items }
    ensures { IsPlaceOf comes_before alarm queue.now.items result }
{
    let (Some(first), Some(last)) = (queue.front(), queue.back()) else {
        return 0;
    };
    if !comes_before(*first, alarm) {
        return 0;
    }
    if comes_before(*last, alarm) {
        return queue.len();
    }
    queue.partition_point(|other| comes_before(*other, alarm))
}

/// The alarm of a row that is due at this moment, or none if it is not due.
fn alarm_of(row: RowId, due: Option<u64>) -> Option<(u64, RowId)>
    ensures { result ≡ alarm_of row due }
{
    let moment = due?;
    Some((moment, row))
}

/// Whether an alarm has the lesser moment, or the same moment and the lower row.
fn comes_before(a: (u64, RowId), b: (u64, RowId)) -> bool
    ensures { result ≡ comes_before a b }
{
    a.0 < b.0 || a.0 == b.0 && a.1.0 < b.1.0
}
