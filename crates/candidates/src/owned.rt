// A list of one's own: what C lends as three pointers, in one value.
ghost use Rattle.std.specs.Prelude.{◌≡◌, take};
ghost use Rattle.numbers.specs.Refusal.{verdict};
ghost use Rattle.candidates.specs.Memory.{Called, arrival, departure, listed_ids};
ghost use Rattle.candidates.specs.Current.{Empty};

use crate::candidate::Candidate;
use crate::list;
use crate::list::ROOM;
use numbers::refusal::Check;
use std::marker::Model;

// The first `count` places of either array are the candidates. By hand: a list takes fixed memory, where a Vec would
// allocate, and two arrays, since `list`'s functions go over the columns that C lends.
#[derive(Drop)]
pub struct List {
    count: usize,
    ids: [u16; ROOM],
    densities: [f64; ROOM],
}

impl Model for List {
    ghost use Rattle.candidates.specs.Memory.{Memory, memory};

    ghost Value = { Memory };

    ghost view = { λ l. memory l.count l.ids l.densities };
}

impl List {
    // Nobody is present.
    pub fn new() -> List
        ensures { Empty result }
    {
        List {
            count: 0,
            ids: [0; ROOM],
            densities: [0.0; ROOM],
        }
    }

    // Nobody is present any more; the places hold what they held.
    pub fn clear(&mut self)
        ensures { Empty self.new }
    {
        self.count = 0;
    }

    // A candidate arrives.
    pub fn arrive(&mut self, c: Candidate) -> Check
        ensures { Called self.old (arrival c) (verdict result) self.new }
    {
        list::arrive(&mut self.count, &mut self.ids, &mut self.densities, c)
    }

    // The candidate that has the id departs.
    pub fn depart(&mut self, id: u16) -> Check
        ensures { Called self.old (departure id) (verdict result) self.new }
    {
        list::depart(&mut self.count, &mut self.ids, &mut self.densities, id)
    }

    // How many are present.
    pub fn count(&self) -> usize
        ensures { result ≡ self.now.count }
    {
        self.count
    }

    // The ids of those present, from the top.
    #[tactic(auto, unfolding(crate::specs::Memory::listed_ids))]
    pub fn ids(&self) -> &[u16]
        ensures { result.now ≡ listed_ids self.now }
    {
        &self.ids[..list::in_use(self.count)]
    }

    // Their densities.
    pub fn densities(&self) -> &[f64]
        ensures { result.now ≡ take self.now.count self.now.densities }
    {
        &self.densities[..list::in_use(self.count)]
    }
}
