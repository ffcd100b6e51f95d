// The commands of a job's candidate list, which the crate `candidates` keeps.
ghost use Rattle.std.specs.Prelude.{◌≡◌};
ghost use Rattle.candidates.specs.Memory.{left, arrival, departure};

use crate::replies::Reply;
use candidates::candidate::Candidate;
use candidates::owned::List;
use text::faults::Fault;
use text::line::Line;

// A candidate arrives. The list is then what its definition says: as it was, if the arrival is refused.
fn arrived(list: &mut List, c: Candidate) -> Reply
    ensures { list.new ≡ left list.old (arrival c) }
{
    Reply::Arrive(c.id, list.arrive(c))
}

// The candidate that has the id departs, in the same manner.
fn departed(list: &mut List, id: u16) -> Reply
    ensures { list.new ≡ left list.old (departure id) }
{
    Reply::Depart(id, list.depart(id))
}

// arrive ID DENSITY
pub fn arrive(list: &mut List, line: &mut Line<'_>) -> Result<Reply, Fault> {
    let id = line.id()?;
    let density = line.number()?;
    line.end()?;
    Ok(arrived(list, Candidate { id, density }))
}

// depart ID
pub fn depart(list: &mut List, line: &mut Line<'_>) -> Result<Reply, Fault> {
    let id = line.id()?;
    line.end()?;
    Ok(departed(list, id))
}

// list
pub fn all(line: &mut Line<'_>) -> Result<Reply, Fault> {
    line.end()?;
    Ok(Reply::List)
}
