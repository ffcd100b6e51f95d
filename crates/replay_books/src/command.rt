// The lines of the index. data/README says what each is.
use numbers::refusal::Refusal;
use std::str::Split;

// What a call must answer: its number, and how many surfaces or bytes a book has.
#[derive(Clone, Copy)]
pub struct Must {
    number: u64,
    count: usize,
}

// A field of a surface.
#[derive(Clone, Copy)]
pub enum Field {
    Kind,
    TwoSided,
    Given,
    X,
    Y,
    Entries,
    Eta,
    K,
    Outer,
}

// A number to be put into a field of the list's surface at `surface`; of a spectrum, at `place`.
#[derive(Clone, Copy)]
pub struct Change {
    pub surface: usize,
    pub field: Field,
    pub place: usize,
    pub bits: u64,
}

// What a line asks for. Names are those of files.
#[derive(Clone, Copy)]
pub enum Command<'a> {
    Read {
        book: &'a str,
        must: Must,
    },
    Again {
        book: &'a str,
    },
    List {
        books: &'a str,
    },
    Set(Change),
    Write {
        room: usize,
        must: Must,
        book: &'a str,
    },
    // none of these
    Unknown,
}

impl Must {
    // Whether a call answered so.
    pub fn is(self, answer: Result<usize, Refusal>) -> bool {
        match answer {
            Ok(count) => self.number == 0 && self.count == count,
            Err(why) => self.number == why.number() && self.count == 0,
        }
    }

    // That a call is accepted, and answers so many.
    pub fn count(count: usize) -> Must {
        Must { number: 0, count }
    }

    // By hand: two words, and no text by itself.
    fn of(words: &mut Split<'_, char>) -> Option<Must> {
        Some(Must {
            number: words.next()?.parse().ok()?,
            count: words.next()?.parse().ok()?,
        })
    }
}

impl Field {
    fn of(word: &str) -> Option<Field> {
        match word {
            "kind" => Some(Field::Kind),
            "two_sided" => Some(Field::TwoSided),
            "given" => Some(Field::Given),
            "x" => Some(Field::X),
            "y" => Some(Field::Y),
            "entries" => Some(Field::Entries),
            "eta" => Some(Field::Eta),
            "k" => Some(Field::K),
            "outer" => Some(Field::Outer),
            _ => None,
        }
    }
}

impl<'a> Command<'a> {
    pub fn of(line: &'a str) -> Command<'a> {
        let (word, rest) = line.split_once(' ').unwrap_or((line, ""));
        let known = match word {
            "read" => Command::read(rest),
            "again" => Some(Command::Again { book: rest }),
            "list" => Some(Command::List { books: rest }),
            "set" => Command::set(rest),
            "write" => Command::write(rest),
            _ => None,
        };
        known.unwrap_or(Command::Unknown)
    }

    // BOOK NUMBER COUNT
    fn read(text: &'a str) -> Option<Command<'a>> {
        let mut words = text.split(' ');
        let book = words.next()?;
        let must = Must::of(&mut words)?;
        Some(Command::Read { book, must })
    }

    // SURFACE FIELD PLACE BITS
    fn set(text: &'a str) -> Option<Command<'a>> {
        let mut words = text.split(' ');
        Some(Command::Set(Change {
            surface: words.next()?.parse().ok()?,
            field: Field::of(words.next()?)?,
            place: words.next()?.parse().ok()?,
            bits: u64::from_str_radix(words.next()?, 16).ok()?,
        }))
    }

    // ROOM NUMBER COUNT BOOK
    fn write(text: &'a str) -> Option<Command<'a>> {
        let mut words = text.split(' ');
        let room = words.next()?.parse().ok()?;
        let must = Must::of(&mut words)?;
        let book = words.next()?;
        Some(Command::Write { room, must, book })
    }
}
