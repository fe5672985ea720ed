//! The ledger of all known balls.

use crate::booking::Origin;
use plan_tables::{BallTarget, Plan, RowId};
use std::alloc::{AllocError, Global};
use std::marker::Model;

/// The ledger of all known balls: how many lie in each device, are on their way to each target, and
/// are on the playfield. Together they are all that are known, at most 2^32.
///
/// A ball becomes known when it enters a device and none was on its way there, or on the playfield.
/// Known balls stay known.
#[derive(Drop)]
pub struct BallLedger {
    known: u64,
    counted: Vec<u64>,
    to_devices: Vec<u64>,
    to_playfield: u64,
    playfield: u64,
    /// All that are on their way: those of `to_devices`, and `to_playfield`.
    in_transit: u64,
}

impl Model for BallLedger {
    ghost use Rattle.std.specs.Prelude.{◌≡◌};
    ghost use Rattle.ball_devices.specs.Ledger.{Ledger, IsLedger, all_in_transit, ledger_of};

    ghost Value = { Ledger };

    ghost view = { λ l. ledger_of l.known l.counted.items l.to_devices.items l.to_playfield l.playfield };

    ghost invariant = { λ l.
        IsLedger (ledger_of l.known l.counted.items l.to_devices.items l.to_playfield l.playfield)
        × (l.in_transit ≡ all_in_transit (ledger_of l.known l.counted.items l.to_devices.items l.to_playfield
        l.playfield)) };
}

impl BallLedger {
    ghost use Rattle.std.specs.Prelude.{◌≡◌, ◌<◌, ◌^◌, length, IfOk};
    ghost use Rattle.ball_devices.specs.Ledger.{IsLedger, no_balls, counted_in, transit_to, all_counted};
    ghost use Rattle.ball_devices.specs.Ledger.{all_in_transit, origin_of, after_entry, left, lost, arrived};
    ghost use Rattle.plan_tables.specs.Valid.{IsTargetThere};

    /// The ledger of a plan's devices. No ball is known. Only this call takes memory.
    ///
    /// # Errors
    ///
    /// `AllocError`: memory ran out.
    pub fn new(alloc: Global, plan: &Plan) -> Result<BallLedger, AllocError>
        ensures empty { IfOk result (λ l. l ≡ no_balls plan.now) }
        ensures ledger { IfOk result (λ l. IsLedger l) }
    {
        let rows = plan.rows().len();
        Ok(BallLedger {
            known: 0,
            counted: vec![in alloc; 0; rows]?,
            to_devices: vec![in alloc; 0; rows]?,
            to_playfield: 0,
            playfield: 0,
            in_transit: 0,
        })
    }

    /// Books that a ball enters a device, and returns where it came from: it was on its way to the
    /// device, else on the playfield, else it is new. Fewer than 2^32 balls are known before.
    pub fn enter(&mut self, device: RowId) -> Origin
        requires device { device.0 < length self.old.counted }
        requires room { self.old.known < 2 ^ 32 }
        ensures state { self.new ≡ after_entry device self.old }
        ensures origin { result ≡ origin_of device self.old }
        ensures ledger { IsLedger self.new }
    {
        let origin = self.origin(device);
        let number = device.0 as usize;
        match origin {
            Origin::Awaited => {
                self.to_devices[number] -= 1;
                self.in_transit -= 1;
            }
            Origin::Found => self.playfield -= 1,
            Origin::New => self.known += 1,
        }
        self.counted[number] += 1;
        origin
    }

    /// Where a ball comes from that enters the device now.
    fn origin(&self, device: RowId) -> Origin
        requires { device.0 < length self.now.counted }
        ensures { result ≡ origin_of device self.now }
    {
        if self.to_devices[device.0 as usize] > 0 {
            Origin::Awaited
        } else if self.playfield > 0 {
            Origin::Found
        } else {
            Origin::New
        }
    }

    /// A ball leaves a device, which has one, and is on its way to the target.
    pub fn left(&mut self, device: RowId, target: BallTarget)
        requires device { device.0 < length self.old.counted }
        requires target { IsTargetThere (length self.old.counted) target }
        requires ball { 0 < counted_in self.old device }
        ensures state { self.new ≡ left device target self.old }
        ensures ledger { IsLedger self.new }
    {
        let from = device.0 as usize;
        self.counted[from] -= 1;
        match target {
            BallTarget::Playfield => self.to_playfield += 1,
            BallTarget::Device(to) => self.to_devices[to.0 as usize] += 1,
        }
        self.in_transit += 1;
    }

    /// A ball leaves a device, which has one, and is on the playfield, though it was not ejected.
    pub fn lost(&mut self, device: RowId)
        requires device { device.0 < length self.old.counted }
        requires ball { 0 < counted_in self.old device }
        ensures state { self.new ≡ lost device self.old }
        ensures ledger { IsLedger self.new }
    {
        let number = device.0 as usize;
        self.playfield += 1;
        self.counted[number] -= 1;
    }

    /// Books that a ball that was on its way to the target is on the playfield. There is such a ball.
    pub fn arrived(&mut self, target: BallTarget)
        requires target { IsTargetThere (length self.old.counted) target }
        requires ball { 0 < transit_to self.old target }
        ensures state { self.new ≡ arrived target self.old }
        ensures ledger { IsLedger self.new }
    {
        match target {
            BallTarget::Playfield => self.to_playfield -= 1,
            BallTarget::Device(to) => self.to_devices[to.0 as usize] -= 1,
        }
        self.in_transit -= 1;
        self.playfield += 1;
    }

    /// How many balls are known: at most 2^32.
    pub fn known(&self) -> u64
        ensures known { result ≡ self.now.known }
        ensures ledger { IsLedger self.now }
    {
        self.known
    }

    /// How many balls lie in a device.
    pub fn counted(&self, device: RowId) -> u64
        requires { device.0 < length self.now.counted }
        ensures counted { result ≡ counted_in self.now device }
        ensures ledger { IsLedger self.now }
    {
        self.counted[device.0 as usize]
    }

    /// How many balls are on their way to a target.
    pub fn transit(&self, target: BallTarget) -> u64
        requires { IsTargetThere (length self.now.counted) target }
        ensures transit { result ≡ transit_to self.now target }
        ensures ledger { IsLedger self.now }
    {
        match target {
            BallTarget::Playfield => self.to_playfield,
            BallTarget::Device(to) => self.to_devices[to.0 as usize],
        }
    }

    /// How many balls are on the playfield.
    pub fn playfield(&self) -> u64
        ensures playfield { result ≡ self.now.playfield }
        ensures ledger { IsLedger self.now }
    {
        self.playfield
    }

    /// How many balls lie in devices, in all.
    pub fn all_counted(&self) -> u64
        ensures counted { result ≡ all_counted self.now }
        ensures ledger { IsLedger self.now }
    {
        self.known - self.in_transit - self.playfield
    }

    /// How many balls are on their way, in all.
    pub fn all_in_transit(&self) -> u64
        ensures transit { result ≡ all_in_transit self.now }
        ensures ledger { IsLedger self.now }
    {
        self.in_transit
    }
}
