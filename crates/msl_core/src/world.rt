ghost use Rattle.std.specs.Prelude.{◌≡◌, ◌<◌, ◌≤◌, IfOk};
ghost use Rattle.msl_base.specs.declared.limits.TheConstants.{MOST_MEMBERS};
ghost use Rattle.msl_core.specs.Outcomes.{Comes};
ghost use Rattle.msl_core.specs.Worlds.{Applies, CanHappen, InGroup, OverIsQuiet, Places, Sound, StayOver, happened, in_group, new_world};
ghost use Rattle.msl_core.specs.declared.event.Event.TheVariants as events;

use crate::event::{Applied, Event, Move, Refusal};
use crate::group::Group;
use crate::place::{Loan, Place};
use msl_base::NoMemory;
use msl_base::limits::MOST_MEMBERS;
use std::alloc::Global;
use std::marker::Model;

/// A world of nested groups, seen as the list of its groups with their loans. It grows as long as memory is there.
#[derive(Drop)]
pub struct World {
    alloc: Global,
    places: Vec<Place>,
}

impl Model for World {
    ghost use Rattle.msl_core.specs.Worlds.{Places, Sound};

    ghost Value = { Places };

    ghost view = { λ w. w.places.items };

    ghost invariant = { λ w. Sound w.places.items };
}

impl World {
    /// One group of `n` nodes, number 0, whose node `start` holds the root; the token is at node 0 and black. It fails
    /// for want of memory alone.
    pub fn new(alloc: Global, n: u32, start: u32) -> Result<World, NoMemory>
        requires few { n ≤ MOST_MEMBERS }
        requires start { start < n }
        ensures new { IfOk result (λ world. world ≡ new_world n start) }
        ensures sound { IfOk result (λ world. Sound world) }
    {
        let group = Group::new(alloc, n, start)?;
        let mut places = Vec::new(alloc);
        places.push(Place { group, loan: None })?;
        Ok(World { alloc, places })
    }

    /// Lets an event happen: `Done` where its condition holds and memory is there, `NotEnabled` exactly where it doesn't
    /// hold, and `NoMemory` where memory ran out; in both the world stays as it was. It takes constant time, but for new
    /// memory.
    pub fn apply(&mut self, e: Event) -> Applied
        ensures applied { Applies self.old e result self.new }
        ensures sound { Sound self.new }
        ensures quiet { OverIsQuiet self.new }
        ensures over { StayOver self.old self.new }
    {
        self.facts();
        let outcome = self.happen(e);
        self.facts();
        answer(outcome, e)
    }

    // What holds of every world.
    fn facts(&self)
        ensures { Sound self.now }
    {
        let _ = &self.places;
    }

    fn happen(&mut self, e: Event) -> Result<(), Refusal>
        ensures { Comes (CanHappen self.old e) self.old (happened self.old e) self.new result }
    {
        match e {
            Event::Split { group, node, k } => self.make(group, Move::Split { node, k }),
            Event::Shut { group, node } => self.make(group, Move::Shut { node }),
            Event::Post { group, node, to } => self.make(group, Move::Post { node, to }),
            Event::Take { group, node } => self.make(group, Move::Take { node }),
            Event::Pass { group, node } => self.make(group, Move::Pass { node }),
            Event::Probe { group } => self.make(group, Move::Probe),
            Event::Over { group } => self.make(group, Move::Over),
            Event::Lend { group, node, size } => self.lend(group, node, size),
            Event::Back { group } => self.back(group),
        }
    }

    // A move in one group.
    fn make(&mut self, group: u64, m: Move) -> Result<(), Refusal>
        ensures { Comes (InGroup self.old group m) self.old (in_group self.old group m) self.new result }
    {
        let i = group as usize;
        if i >= self.places.len() {
            return Err(Refusal::NotEnabled);
        }
        self.places[i].group.make(m)
    }

    fn lend(&mut self, group: u64, node: u32, size: u32) -> Result<(), Refusal>
        ensures { Comes (CanHappen self.old (events.Lend group node size)) self.old (happened self.old (events.Lend group node size)) self.new result }
    {
        let i = group as usize;
        if i >= self.places.len()
            || !self.places[i].group.holds(node)
            || size < 1
            || size > MOST_MEMBERS
        {
            return Err(Refusal::NotEnabled);
        }
        let inner = Group::new(self.alloc, size, 0)?;
        self.places.reserve(1)?;
        let slot = self.places[i].group.lend(node)?;
        let loan = Loan {
            group: i,
            node: node as usize,
            slot,
            lent: true,
        };
        self.places.push_reserved(Place {
            group: inner,
            loan: Some(loan),
        });
        Ok(())
    }

    fn back(&mut self, group: u64) -> Result<(), Refusal>
        ensures { Comes (CanHappen self.old (events.Back group)) self.old (happened self.old (events.Back group)) self.new result }
    {
        let i = group as usize;
        if i >= self.places.len() || !self.places[i].group.is_over() {
            return Err(Refusal::NotEnabled);
        }
        match self.places[i].loan {
            Some(loan) if loan.lent => {
                self.places[loan.group].group.back(loan.node, loan.slot)?;
                self.places[i].loan = Some(Loan {
                    lent: false,
                    ..loan
                });
                Ok(())
            }
            _ => Err(Refusal::NotEnabled),
        }
    }
}

fn answer(outcome: Result<(), Refusal>, e: Event) -> Applied
    ensures { (w v : Places) → Comes (CanHappen w e) w (happened w e) v outcome → Applies w e result v }
{
    match outcome {
        Ok(()) => Applied::Done,
        Err(Refusal::NotEnabled) => Applied::NotEnabled(e),
        Err(Refusal::NoMemory) => Applied::NoMemory,
    }
}
