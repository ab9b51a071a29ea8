// One copy of the shelf.
ghost use Rattle.std.specs.Prelude.{◌≡◌, [], IfOk};

use crate::book::Front;
use crate::kept::keep;
use crate::route::Route;
use left_right::Absorb;
use std::alloc::{AllocError, Global};
use std::marker::Model;

/// An offer, and all offers up to it.
#[derive(Drop)]
pub struct Offered {
    route: Route,
    front: Front,
}

impl Model for Offered {
    ghost use Rattle.sh_shelf.specs.Racked.{Offering};

    ghost Value = { Offering };

    ghost view = { λ o. record { route = o.route; front = o.front } };
}

impl Offered {
    pub fn new(route: Route, front: Front) -> Offered
        ensures { result ≡ record { route = route; front = front } }
    {
        Offered { route, front }
    }
}

/// The rows of the offers that it took in.
#[derive(Drop)]
pub struct Rack {
    room: usize,
    rows: Vec<Route>,
    front: Front,
}

impl Model for Rack {
    ghost use Rattle.std.specs.Vec.{vec_capacity};
    ghost use Rattle.sh_shelf.specs.Racked.{IsRack, Racked};

    ghost Value = { Racked };

    ghost view = { λ r. record { room = r.room; rows = r.rows.items; front = r.front } };

    ghost invariant = { λ r. IsRack r.room (vec_capacity r.rows) r.rows.items };
}

impl Rack {
    pub fn new(alloc: Global, room: usize, front: Front) -> Result<Rack, AllocError>
        ensures { IfOk result (λ r. r ≡ record { room = room; rows = []; front = front }) }
    {
        Ok(Rack {
            room,
            rows: Vec::with_capacity(alloc, room)?,
            front,
        })
    }

    pub fn rows(&self) -> &[Route]
        ensures { result.now ≡ self.now.rows }
    {
        &self.rows
    }

    pub fn room(&self) -> usize
        ensures { result ≡ self.now.room }
    {
        self.room
    }

    pub fn front(&self) -> &Front
        ensures { result.now ≡ self.now.front }
    {
        &self.front
    }
}

impl Absorb<Offered> for Rack {
    ghost use Rattle.sh_shelf.specs.Racked.{with_offer};

    type State = Rack;

    ghost state = { λ x. x };

    ghost applied = { with_offer };

    ghost never_fails = { Unit {0} };

    fn absorb_first(&mut self, operation: &Offered, _other: &Rack) -> Result<(), AllocError> {
        keep(&mut self.rows, self.room, operation.route);
        self.front = operation.front.again();
        Ok(())
    }
}
