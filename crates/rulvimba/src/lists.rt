// The list of candidates in the caller's memory: a count, and 64 places for ids and for densities. By hand: C lends
// three pointers.
ghost use Rattle.candidates.specs.Memory.{memory, arrival, departure};
ghost use Rattle.rulvimba.specs.Lists.{ListCall};

use crate::records;
use candidates::candidate::Candidate;
use candidates::list;
use candidates::list::ROOM;

// A candidate arrives; a refusal leaves the memory as it was.
pub fn rulvimba_arrive_in(
    count: &mut usize,
    ids: &mut [u16; ROOM],
    densities: &mut [f64; ROOM],
    c: Candidate,
) -> u64
    ensures { ListCall (memory count.old ids.old densities.old) (arrival c) result (memory count.new ids.new densities.new) }
{
    records::number_of(list::arrive(count, ids, densities, c))
}

// A candidate departs; a refusal leaves the memory as it was.
pub fn rulvimba_depart_in(
    count: &mut usize,
    ids: &mut [u16; ROOM],
    densities: &mut [f64; ROOM],
    id: u16,
) -> u64
    ensures { ListCall (memory count.old ids.old densities.old) (departure id) result (memory count.new ids.new densities.new) }
{
    records::number_of(list::depart(count, ids, densities, id))
}
