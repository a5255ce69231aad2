ghost use Rattle.std.specs.Prelude.{◌≡◌, ◌≤◌, ◌<◌, ◌++◌, [], length, take, drop, min, IfOk, OnErr, IfSome, IsTrue, IsSomeAnd, false, is_some, is_err, slice_get, option_map, map};
ghost use Rattle.std.specs.List.{All};
ghost use Rattle.std.specs.Option.{option_copied};
ghost use Rattle.edge_core.specs.Room.{has_place};
ghost use Rattle.edge_core.specs.Faults.{is_next_failing};
ghost use Rattle.edge_core.specs.LinkInside.{IsFresh, inputs_of, after_reading, after_writing};
ghost use Rattle.edge_core.specs.Door.{after_attach, has_next, after_accept, left_of, read_count, after_read, write_fails, after_write, after_shut, all_written};

use crate::door::{AskedPort, Door, DoorFault};
use crate::fault_plan::{Calls, FaultPlan};
use crate::memory_link::MemoryLink;
use list_core::Parts;
use snap_core::Bytes;
use std::alloc::{AllocError, Global};
use std::collections::VecDeque;
use std::marker::Model;

/// What each link brings, in the order of the links.
pub type Inputs = Parts<Bytes>;

/// Links in memory, which tell all that they hold and fail at the calls that they are told.
#[derive(Debug, Drop)]
pub struct MemoryDoor {
    shut: Vec<MemoryLink>,
    current: Option<MemoryLink>,
    coming: VecDeque<MemoryLink>,
    attached: bool,
    asked: AskedPort,
    cut: usize,
    space: usize,
    plan: FaultPlan,
}

impl Model for MemoryDoor {
    ghost use Rattle.edge_core.specs.Door.{MemoryDoorState};

    ghost Value = { MemoryDoorState };

    ghost use Rattle.edge_core.specs.DoorInside.{state_of, IsReady};

    ghost view = { state_of };

    ghost invariant = { IsReady };
}

fn waiting_links(
    alloc: Global,
    inputs: Inputs,
    space: usize,
) -> Result<VecDeque<MemoryLink>, AllocError>
    ensures inputs { IfOk result (λ coming. inputs_of coming.items ≡ inputs) }
    ensures fresh { IfOk result (λ coming. All (IsFresh space) coming.items) }
{
    let mut coming = VecDeque::new(alloc);
    for input in inputs.into_vec() {
        coming.push_back(MemoryLink::new(alloc, input, space)?)?;
    }
    Ok(coming)
}

fn read_from(current: &mut Option<MemoryLink>, cut: usize, room: &mut [u8]) -> usize
    requires { IsTrue (is_some current.old) }
    ensures count { IfSome current.old (λ bounded.
        result ≡ min cut (min (length room.old) (length bounded.link.left))) }
    ensures bytes { IfSome current.old (λ bounded.
        room.new ≡ take result bounded.link.left ++ drop result room.old) }
    ensures after { current.new ≡ option_map (after_reading result) current.old }
{
    match current {
        Some(link) => link.read(cut, room),
        None => unreachable!(),
    }
}

fn has_place(current: &Option<MemoryLink>, piece: &[u8]) -> bool
    requires { IsTrue (is_some current.now) }
    ensures { IfSome current.now (λ bounded.
        result ≡ has_place bounded.link.written bounded.space piece.now) }
{
    match current {
        Some(link) => link.has_place(piece),
        None => unreachable!(),
    }
}

fn write_to(current: &mut Option<MemoryLink>, piece: &[u8])
    requires { IsSomeAnd current.old (λ bounded.
        IsTrue (has_place bounded.link.written bounded.space piece.now)) }
    ensures { current.new ≡ option_map (after_writing piece.now) current.old }
{
    match current {
        Some(link) => link.write(piece),
        None => unreachable!(),
    }
}

/// What is written to a link that isn't open yet: nothing, where there is such a link.
fn unwritten(coming: &VecDeque<MemoryLink>, at: usize) -> Option<&[u8]>
    ensures { option_copied result ≡ slice_get (map (λ input. []) (inputs_of coming.now.items)) at }
{
    if at < coming.len() { Some(&[]) } else { None }
}

impl MemoryDoor {
    /// Links that bring these inputs, none of them open. A read takes at most `cut` bytes, and
    /// `space` is the room in bytes for all that is written to a link. `fails` are the numbers of
    /// the calls that fail, counted over `attach`, `accept`, `read` and `write`. Fails for want of
    /// memory alone.
    pub fn new(
        alloc: Global,
        inputs: Inputs,
        cut: usize,
        space: usize,
        fails: Calls,
    ) -> Result<MemoryDoor, AllocError>
        requires { 0 < cut }
        ensures { IfOk result (λ door. door ≡ record {
          is_attached = false;
          asked = AskedPort.Never;
          links = record { shut = []; current = None; coming = inputs };
          cut = cut;
          space = space;
          faults = record { calls = 0; count = 0; failing = fails };
        }) }
    {
        let coming = waiting_links(alloc, inputs, space)?;
        Ok(MemoryDoor {
            shut: Vec::with_capacity(alloc, coming.len())?,
            current: None,
            coming,
            attached: false,
            asked: AskedPort::Never,
            cut,
            space,
            plan: FaultPlan::new(fails),
        })
    }

    /// As `Door::attach`.
    pub fn attach(&mut self, port: Option<u16>) -> Result<(), DoorFault>
        ensures failed { is_err result ≡ is_next_failing self.old.faults }
        ensures after { self.new ≡ after_attach port self.old }
        ensures count { self.old.faults.count ≤ self.new.faults.count }
    {
        self.asked = self.asked.also(port);
        if self.plan.fails_next(false) {
            return Err(DoorFault);
        }
        self.attached = true;
        Ok(())
    }

    /// As `Door::accept`.
    pub fn accept(&mut self) -> Result<bool, DoorFault>
        requires none_open { is_some self.old.links.current ≡ false }
        ensures failed { is_err result ≡ is_next_failing self.old.faults }
        ensures more { IfOk result (λ more. more ≡ has_next self.old.links.coming) }
        ensures open { IfOk result (λ more. is_some self.new.links.current ≡ more) }
        ensures after { self.new ≡ after_accept self.old }
        ensures count { self.old.faults.count ≤ self.new.faults.count }
    {
        if self.plan.fails_next(false) {
            return Err(DoorFault);
        }
        match self.coming.pop_front() {
            Some(link) => {
                self.current = Some(link);
                Ok(true)
            }
            None => Ok(false),
        }
    }

    /// As `Door::read`: it takes all that the link brings, as far as `room` and the cut go. The rest
    /// of `room` stays, and after a failure all of it.
    pub fn read(&mut self, room: &mut [u8]) -> Result<usize, DoorFault>
        requires { IsTrue (is_some self.old.links.current) }
        ensures failed { is_err result ≡ is_next_failing self.old.faults }
        ensures read { IfOk result (λ n. n ≡ read_count self.old (length room.old)) }
        ensures at_end { IfOk result (λ n.
            n ≡ 0 → 0 < length room.old → left_of self.old.links.current ≡ []) }
        ensures bytes { IfOk result (λ n.
            room.new ≡ take n (left_of self.old.links.current) ++ drop n room.old) }
        ensures kept { OnErr result (room.new ≡ room.old) }
        ensures after { self.new ≡ after_read self.old (length room.old) }
        ensures count { self.old.faults.count ≤ self.new.faults.count }
    {
        if self.plan.fails_next(false) {
            Err(DoorFault)
        } else {
            Ok(read_from(&mut self.current, self.cut, room))
        }
    }

    /// As `Door::write`: the whole piece is written, or it has no place in the room and fails.
    pub fn write(&mut self, piece: &[u8]) -> Result<usize, DoorFault>
        requires { IsTrue (is_some self.old.links.current) }
        ensures failed { is_err result ≡ write_fails self.old piece.now }
        ensures whole { IfOk result (λ n. n ≡ length piece.now) }
        ensures after { self.new ≡ after_write self.old piece.now }
        ensures count { self.old.faults.count ≤ self.new.faults.count }
    {
        if self.plan.fails_next(!has_place(&self.current, piece)) {
            return Err(DoorFault);
        }
        write_to(&mut self.current, piece);
        Ok(piece.len())
    }

    /// As `Door::shut`.
    pub fn shut(&mut self)
        ensures { self.new ≡ record self.old { links = after_shut self.old.links } }
    {
        if let Some(link) = self.current.take() {
            self.shut.push(link).unwrap();
        }
    }

    /// What was written to a link, the first of which is number 0: nothing where it isn't open yet.
    /// `None` where there is no such link.
    pub fn written(&self, link: usize) -> Option<&[u8]>
        ensures { option_copied result ≡ slice_get (all_written self.now.links) link }
    {
        let ended = self.shut.len();
        if link < ended {
            return Some(self.shut[link].written());
        }
        let later = link - ended;
        match &self.current {
            Some(open) if later == 0 => Some(open.written()),
            Some(_) => unwritten(&self.coming, later - 1),
            None => unwritten(&self.coming, later),
        }
    }

    /// As `Door::faults`.
    pub fn faults(&self) -> u64
        ensures { result ≡ self.now.faults.count }
    {
        self.plan.count()
    }
}

impl Door for MemoryDoor {
    ghost use Rattle.std.specs.Prelude.{refl};
    ghost use Rattle.edge_core.specs.Door.{told_by};

    ghost state = { told_by };

    ghost open_is_told = { λ _. refl };

    fn attach(&mut self, port: Option<u16>) -> Result<(), DoorFault> {
        MemoryDoor::attach(self, port)
    }

    fn accept(&mut self) -> Result<bool, DoorFault> {
        MemoryDoor::accept(self)
    }

    fn read(&mut self, room: &mut [u8]) -> Result<usize, DoorFault> {
        MemoryDoor::read(self, room)
    }

    fn write(&mut self, piece: &[u8]) -> Result<usize, DoorFault> {
        MemoryDoor::write(self, piece)
    }

    fn shut(&mut self) {
        MemoryDoor::shut(self);
    }

    fn faults(&self) -> u64 {
        MemoryDoor::faults(self)
    }
}
