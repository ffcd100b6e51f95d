// Records of calls on a list: what is called, what it must answer, and the list that it must leave.
//
//   K IIII DDDDDDDDDDDDDDDD NN CC      then CC times ` IIII DDDDDDDDDDDDDDDD`
//
// data/README says what each is.
ghost use Rattle.std.specs.Prelude.{◌≡◌, length};

use candidates::candidate::Candidate;
use candidates::list::ROOM;
use candidates::owned::List;
use floats::patterns;
use std::fs::File;
use text::records;

// What is called.
#[derive(Clone, Copy)]
pub enum Call {
    // nobody is present
    Begin,
    Arrival(Candidate),
    Departure(u16),
}

// What a record begins with: the call, its number and how many entries follow.
#[derive(Clone, Copy)]
pub struct Head {
    pub call: Call,
    pub number: u64,
    pub entries: u64,
}

// An id of four digits, a blank, and a density of sixteen.
fn candidate_of(text: &[u8]) -> Candidate
    requires { length text.now ≡ 21 }
{
    // an id has four digits, where sixteen are read
    let mut id = [b'0'; 16];
    id[12..].copy_from_slice(&text[..4]);
    Candidate {
        id: u16::try_from(records::hex16(&id)).unwrap_or(0),
        density: patterns::of_bits(records::hex16(&text[5..])),
    }
}

// By hand: a `From` of a pair, the letter and what stands behind it, would be no plainer.
fn call_of(kind: u8, c: Candidate) -> Call {
    match kind {
        b'a' => Call::Arrival(c),
        b'd' => Call::Departure(c.id),
        _ => Call::Begin,
    }
}

// The head of the next record, if there is one.
pub fn read_head(file: &mut File) -> Option<Head> {
    let text: [u8; 29] = records::next(file)?;
    Some(Head {
        call: call_of(text[0], candidate_of(&text[2..23])),
        number: records::decimal(&text[24..26]),
        entries: records::decimal(&text[27..29]),
    })
}

// The next entry behind its blank. Where the file ends before, what is missing is 0.
fn read_entry(file: &mut File) -> Candidate {
    let text: [u8; 22] = records::next_or_zeros(file);
    candidate_of(&text[1..])
}

// Whether the next `n` entries are the candidates of the list, from the top. Of more than a list has places for, no
// more are read.
pub fn same_entries(file: &mut File, n: u64, list: &List) -> bool {
    let mut same = n == list.count() as u64;
    let mut present = list.ids().iter().zip(list.densities());
    for _ in 0..n.min(ROOM as u64) {
        let entry = read_entry(file);
        same &= present.next().is_some_and(|(id, density)| {
            *id == entry.id && patterns::bits(*density) == patterns::bits(entry.density)
        });
    }
    same
}
