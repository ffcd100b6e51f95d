// The present candidates, greatest density first (document 02, ii): a count, and 64 places for their ids
// and as many for their densities, lent by the caller. A refused call leaves them as they were.
ghost use Rattle.std.specs.Prelude.{◌≡◌, min, length};
ghost use Rattle.std.specs.List.{position, position_or_len};
ghost use Rattle.numbers.specs.Refusal.{verdict};
ghost use Rattle.candidates.specs.Candidate.{is_id, goes_before};
ghost use Rattle.candidates.specs.Memory.{places, memory, rows, is_among, check, Called, arrival, departure};

use crate::candidate::Candidate;
use crate::columns;
use numbers::refusal::{Check, Refusal, refuse};

// How many candidates a list has room for.
pub const ROOM: usize = 64;

// How many places hold a candidate: a count above the room counts as it.
pub(crate) fn in_use(count: usize) -> usize
    ensures { result ≡ min count places }
{
    count.min(ROOM)
}

// The place of an id.
fn find(ids: &[u16], id: u16) -> Option<usize>
    ensures { result ≡ position (is_id id) ids.now }
{
    ids.iter().position(|x| *x == id)
}

// Whether an id is among others. By hand, all of them compared, so that the compiler compares several at a time and no
// branch hangs on where the id is: `contains` takes twice the time where one of fifty is.
fn is_among(ids: &[u16], id: u16) -> bool
    ensures { result ≡ is_among id ids.now }
{
    let mut among = false;
    for x in ids {
        among |= *x == id;
    }
    among
}

// The place of an arrival: before the first that it goes before.
fn place(ids: &[u16], densities: &[f64], c: Candidate) -> usize
    requires { length ids.now ≡ length densities.now }
    ensures { result ≡ position_or_len (goes_before c) (rows ids.now densities.now) }
{
    let below = |(id, density): (&u16, &f64)| {
        c.goes_before(Candidate {
            id: *id,
            density: *density,
        })
    };
    ids.iter()
        .zip(densities)
        .position(below)
        .unwrap_or(ids.len())
}

// What an arrival is refused for, beside those that are present.
#[tactic(auto, unfolding(crate::specs::Memory::check, numbers::specs::Refusal::number))]
fn check_arrival(ids: &[u16], c: Candidate) -> Check
    ensures { verdict result ≡ check ids.now (arrival c) }
{
    c.check()?;
    refuse(Refusal::Full, ids.len() < ROOM)?;
    refuse(Refusal::Id, !is_among(ids, c.id))
}

// A candidate arrives. By hand: C lends three pointers, and a contract of one value with the three has to name each
// reference, which is no plainer. `owned::List` has the three in one.
pub fn arrive(
    count: &mut usize,
    ids: &mut [u16; ROOM],
    densities: &mut [f64; ROOM],
    c: Candidate,
) -> Check
    ensures { Called (memory count.old ids.old densities.old) (arrival c) (verdict result) (memory count.new ids.new densities.new) }
{
    let n = in_use(*count);
    check_arrival(&ids[..n], c)?;
    let at = place(&ids[..n], &densities[..n], c);
    columns::put(ids, n, at, c.id);
    columns::put(densities, n, at, c.density);
    *count = n + 1;
    Ok(())
}

// The candidate that has the id departs.
pub fn depart(
    count: &mut usize,
    ids: &mut [u16; ROOM],
    densities: &mut [f64; ROOM],
    id: u16,
) -> Check
    ensures { Called (memory count.old ids.old densities.old) (departure id) (verdict result) (memory count.new ids.new densities.new) }
{
    let n = in_use(*count);
    let at = find(&ids[..n], id).ok_or(Refusal::Id)?;
    columns::take_out(ids, n, at);
    columns::take_out(densities, n, at);
    *count = n - 1;
    Ok(())
}
