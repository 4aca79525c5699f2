// Where locals in memory lie, by their numbers.

ghost use Rattle.std.specs.Prelude.{◌≡◌, List, ◌∷◌, IfOk, OnOk};
ghost use Rattle.pool_rewrite.specs.declared.frames.Place.{Place};
ghost use Rattle.pool_rewrite.specs.Places.{found_in, TellsPlaces};

use crate::frames::Place;
use indexmap::IndexMap;
use std::alloc::{AllocError, Global};
use tac_ir::Local;

/// The places of locals in memory by the numbers of parameters and of locals of the body.
#[derive(Drop)]
pub(crate) struct Locals {
    pub(crate) parameters: IndexMap<usize, Place>,
    pub(crate) variables: IndexMap<usize, Place>,
}

impl Locals {
    /// Those of these places, the first where a local has several.
    pub(crate) fn of_places(alloc: Global, places: &[Place]) -> Result<Locals, AllocError>
        ensures { IfOk result (λ made. TellsPlaces places.now made) }
    {
        let mut locals = Locals {
            parameters: IndexMap::new(alloc),
            variables: IndexMap::new(alloc),
        };
        let mut number = places.len();
        while number > 0 {
            number -= 1;
            locals.put(places[number])?;
        }
        Ok(locals)
    }

    /// Where a local lies.
    pub(crate) fn find(&self, local: Local) -> Option<Place>
        ensures { result ≡ found_in self.now local }
    {
        match local {
            Local::Parameter(number) => self.parameters.get(&number).copied(),
            Local::Variable(number) => self.variables.get(&number).copied(),
        }
    }

    /// Puts one place in front of the others.
    fn put(&mut self, place: Place) -> Result<(), AllocError>
        ensures { OnOk result ((others : List Place) → TellsPlaces others self.old → TellsPlaces (place ∷ others) self.new) }
    {
        match place.object.local {
            Local::Parameter(number) => {
                self.parameters.insert(number, place)?;
            }
            Local::Variable(number) => {
                self.variables.insert(number, place)?;
            }
        }
        Ok(())
    }
}
