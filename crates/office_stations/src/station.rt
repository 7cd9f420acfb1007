//! What turns an office: its pump, its socket, the time of its turns, and when its neighbours were last heard.

ghost use Rattle.std.specs.Prelude.{◌≡◌, ◌<◌, ℕ, None, false, true, length, IfOk, IfErr, OnOk, OnErr};
ghost use Rattle.own_lock.specs.Passes.{IsOf};
ghost use Rattle.locked_office.specs.Calls.{Stays};
ghost use Rattle.socket_pump.specs.Last.{last_of};
ghost use Rattle.office_stations.specs.Paces.{first_pace, noted, paced, waited_to};
ghost use Rattle.office_stations.specs.Rounds.{BreaksOff, Turns};
ghost use Rattle.office_stations.specs.Waits.{IsWait};
ghost use Rattle.socket_pump.specs.sockets.Waits.{failed, one_more};
ghost use Rattle.office_stations.specs.declared.fault.RunFault.TheVariants as faults;
ghost use Rattle.office_stations.specs.refinement.Standings.{standing};

use crate::address::address;
use crate::fault::RunFault;
use crate::hearing::{Hearing, Ways};
use crate::opening::OpeningFault;
use crate::pace::{Pace, TimedTurn};
use crate::remarks::{Way, unmet_by};
use crate::sessions::count_finished;
use crate::shared::Shared;
use crate::turning::Turning;
use crate::watch::Watch;
use locked_office::Desk;
use office_map::{OfficeId, Plan};
use own_lock::Pass;
use site_core::Office;
use socket_pump::sockets::{Binds, Socket};
use socket_pump::{Pump, Turn, WireFailed};
use std::alloc::{AllocError, Global};
use std::io::ErrorKind;
use std::net::{Ipv4Addr, SocketAddr};
use std::rt::Clock;
use std::sync::Wait;
use std::time::Instant;

/// What turns an office.
#[derive(Drop)]
pub struct Station<S: Socket> {
    pub pump: Pump,
    pub socket: S,
    pub pace: Pace,
    hearing: Hearing,
    /// How many of its sessions have been told as finished.
    told: usize,
}

impl<S: Socket> Station<S> {
    /// With a socket that knows no neighbour yet; its turns are timed from this moment on.
    pub fn new(pump: Pump, socket: S, start: Instant) -> Station<S>
        ensures pump { result.pump ≡ pump }
        ensures socket { result.socket ≡ socket }
        ensures pace { result.pace ≡ first_pace }
    {
        Station::with_hearing(pump, socket, Hearing::none(), start)
    }

    /// The same, with a socket that knows the neighbours that are to be heard.
    pub fn with_hearing(pump: Pump, socket: S, hearing: Hearing, start: Instant) -> Station<S>
        ensures pump { result.pump ≡ pump }
        ensures socket { result.socket ≡ socket }
        ensures pace { result.pace ≡ first_pace }
    {
        Station {
            pump,
            socket,
            pace: Pace::new(start),
            hearing,
            told: 0,
        }
    }

    /// Where a neighbour is, from now on.
    pub fn set_peer(&mut self, v: OfficeId, at: SocketAddr)
        requires { v < 16 }
        ensures pump { self.new.pump ≡ self.old.pump }
        ensures pace { self.new.pace ≡ self.old.pace }
    {
        self.socket.set_peer(v, at);
        self.hearing.set_place(v, at);
    }

    /// Waits once for what comes before a turn, as long as its pace says, and tells when it was that it ended, in milliseconds from
    /// the start.
    pub fn wait<R: Clock>(&mut self, rt: &R) -> Result<u64, RunFault>
        ensures pump { self.new.pump ≡ self.old.pump }
        ensures waits { (most : ℕ) × IsWait self.old.pace most × (S.waits self.new.socket ≡ one_more most (S.waits self.old.socket)) }
        ensures pace { IfOk result (λ at. self.new.pace ≡ waited_to at self.old.pace) }
        ensures fine { OnOk result (S.account self.new.socket ≡ S.account self.old.socket) }
        ensures failed { OnErr result (S.account self.new.socket ≡ failed (S.account self.old.socket)) }
        ensures fault { IfErr result (λ fault. fault ≡ faults.WireFailed) }
    {
        let most = self.pace.wait();
        match self.socket.poll(most) {
            Ok(()) => Ok(self.pace.tick(rt)),
            Err(WireFailed) => Err(RunFault::WireFailed),
        }
    }

    /// There is something to do at once: before the next turn it isn't waited.
    pub fn hurry(&mut self)
        ensures pump { self.new.pump ≡ self.old.pump }
        ensures socket { self.new.socket ≡ self.old.socket }
        ensures pace { self.new.pace ≡ record self.old.pace { busy = true } }
    {
        self.pace.hurry();
    }

    /// The turn of this time did this.
    pub fn note(&mut self, turn: &Turn, at: u64, shared: &Shared)
        ensures pump { self.new.pump ≡ self.old.pump }
        ensures socket { self.new.socket ≡ self.old.socket }
        ensures pace { self.new.pace ≡ noted turn.now self.old.pace }
    {
        self.pace.note(turn);
        shared.note(turn);
        self.hearing.note(turn, &self.socket, at);
    }

    /// So many of its sessions have finished.
    pub fn note_finished(&mut self, finished: usize, shared: &Shared)
        ensures pump { self.new.pump ≡ self.old.pump }
        ensures socket { self.new.socket ≡ self.old.socket }
        ensures pace { self.new.pace ≡ self.old.pace }
    {
        shared.finish(finished.saturating_sub(self.told) as u64);
        self.told = finished;
    }

    /// How many of its sessions have been told as finished.
    pub fn finished(&self) -> u64 {
        self.told as u64
    }

    /// One turn, after one wait for what comes, and when it was; and the sessions are counted that finished by it.
    pub fn turn<R: Wait + Clock>(
        &mut self,
        rt: &R,
        desk: &Desk,
        pass: &mut Pass<Office>,
        turning: Turning,
        shared: &Shared,
    ) -> Result<TimedTurn, RunFault>
        requires key { desk.now.key ≡ self.old.pump.key }
        requires of { IsOf desk.now pass.old }
        requires idle { pass.old.holds ≡ false }
        ensures key { self.new.pump.key ≡ self.old.pump.key }
        ensures stays { Stays desk.now pass.old pass.new }
        ensures pace { IfOk result (λ t. self.new.pace ≡ paced t.at t.turn self.old.pace) }
        ensures turns { IfOk result (λ t. Turns turning S.tells pass.old.tag desk.now.key t
            (standing pass.old (S.account self.old.socket) (last_of self.old.pump.lasts)) (standing pass.new (S.account self.new.socket) (last_of self.new.pump.lasts))) }
        ensures breaks_off { IfErr result (BreaksOff turning S.tells pass.old.tag desk.now.key
            (standing pass.old (S.account self.old.socket) (last_of self.old.pump.lasts)) (standing pass.new (S.account self.new.socket) (last_of self.new.pump.lasts))) }
    {
        let at = match self.wait(rt) {
            Ok(at) => at,
            Err(fault) => return Err(fault),
        };
        let turn = match turning.turn(rt, &mut self.pump, &mut self.socket, desk, pass, at) {
            Ok(turn) => turn,
            Err(fault) => return Err(RunFault::of_pump(fault)),
        };
        self.note(&turn, at, shared);
        if turn.rules > 0 {
            let finished = count_finished(rt, desk, pass);
            self.note_finished(finished, shared);
        }
        Ok(TimedTurn { at, turn })
    }

    /// Tells once a second of the office's neighbours that it didn't meet yet, and, if it leads the others, how far the run is.
    pub fn tell<W: Watch>(
        &mut self,
        plan: &Plan,
        me: OfficeId,
        leads: bool,
        watch: &W,
        shared: &Shared,
    )
        ensures pump { self.new.pump ≡ self.old.pump }
        ensures socket { self.new.socket ≡ self.old.socket }
        ensures pace { self.new.pace ≡ self.old.pace }
    {
        if !self.pace.is_time_to_tell() {
            return;
        }
        if leads {
            watch.tell(shared.progress());
        }
        self.tell_unmet(plan, me, watch);
    }

    /// The same of an office alone.
    pub fn tell_alone<W: Watch>(&mut self, plan: &Plan, me: OfficeId, watch: &W, shared: &Shared)
        ensures pump { self.new.pump ≡ self.old.pump }
        ensures socket { self.new.socket ≡ self.old.socket }
        ensures pace { self.new.pace ≡ self.old.pace }
    {
        self.tell(plan, me, true, watch, shared);
    }

    /// Tells of the office's neighbours that it never reached or heard yet.
    fn tell_unmet<W: Watch>(&self, plan: &Plan, me: OfficeId, watch: &W) {
        for k in 0..16 {
            let Some(way) = self.way(OfficeId::new(k)) else {
                continue;
            };
            if let Some(unmet) = unmet_by(plan, me, &way) {
                watch.tell_of(&unmet);
            }
        }
    }

    /// The way to a neighbour, at the last turn.
    fn way(&self, v: OfficeId) -> Option<Way>
        requires { v < 16 }
    {
        self.hearing.way(&self.socket, v, self.pace.now())
    }

    /// What is known of the ways to the office's neighbours, at its last turn.
    pub fn known_ways(&self) -> Ways {
        self.hearing.ways(&self.socket, self.pace.now())
    }

    /// The ways to the office's neighbours, at its last turn.
    pub fn ways(&self, alloc: Global) -> Result<Vec<Way>, AllocError> {
        self.known_ways().to_vec(alloc)
    }
}

/// What turns the office: a pump, and a socket at the plan's address that knows those of its neighbours.
pub fn at_address<R: Clock, B: Binds>(
    rt: &R,
    alloc: Global,
    plan: &Plan,
    me: OfficeId,
    binds: &B,
) -> Result<Station<B::Socket>, OpeningFault>
    requires { me < length plan.now.offices }
    ensures key { IfOk result (λ s. s.pump.key ≡ (plan.now, me)) }
    ensures last { IfOk result (λ s. (v n : ℕ) → last_of s.pump.lasts v n ≡ None) }
    ensures pace { IfOk result (λ s. s.pace ≡ first_pace) }
{
    let Some(at) = address(plan, me) else {
        let nowhere = SocketAddr::from((Ipv4Addr::UNSPECIFIED, 0));
        return Err(OpeningFault::BindFailed(nowhere, ErrorKind::InvalidInput));
    };
    let socket = match binds.bind(at) {
        Ok((socket, _)) => socket,
        Err(error) => return Err(OpeningFault::BindFailed(at, error.kind())),
    };
    let pump = Pump::open(alloc, plan, me)?;
    let Ok(start) = Instant::now(rt) else {
        return Err(OpeningFault::NoClock);
    };
    let mut station = Station::new(pump, socket, start);
    for v in plan.neighbours(me) {
        if let Some(at) = address(plan, *v) {
            station.set_peer(*v, at);
        }
    }
    Ok(station)
}
