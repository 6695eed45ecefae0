ghost use Rattle.std.specs.Prelude.{◌≡◌, IfOk};
ghost use Rattle.kapi_watch.specs.Running.{at_place};

use crate::watch::Watching;
use kapi_text::Memory;
use kapi_watch::Cursor;
use std::alloc::Global;
use std::marker::Model;

/// The watch that a connection shows, in a block of its own: answers and connections without a watch are moved without
/// the room for one.
#[derive(Drop)]
pub struct KeptWatch {
    block: Box<Watching>,
}

impl Model for KeptWatch {
    ghost use Rattle.kapi_answer.specs.declared.watch.Watching.{Watching as Watched};

    ghost Value = { Watched };

    ghost view = { λ k. k.block.value };
}

impl KeptWatch {
    /// Takes a watch over.
    pub fn new(alloc: Global, watching: Watching) -> Result<KeptWatch, Memory>
        ensures { IfOk result (λ k. k ≡ watching) }
    {
        Ok(KeptWatch {
            block: Box::new(alloc, watching)?,
        })
    }

    /// The watch, borrowed.
    pub fn get(&self) -> &Watching
        ensures { result.now ≡ self.now }
    {
        &self.block
    }

    /// Moves the watch to a place.
    pub fn shown(&mut self, place: Cursor)
        ensures { self.new ≡ record self.old { watch = at_place self.old.watch place } }
    {
        self.block.watch.shown(place);
    }
}
