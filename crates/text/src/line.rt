// The words of a line of a job, read one after the other. A method that finds a fault answers it, and a caller ends
// there, by `?`.
ghost use Rattle.std.specs.Prelude.{◌≡◌, ◌<◌, MatchOption, None, Some, drop, length, IfSome, IfOk, OnOk, IsTrue};
ghost use Rattle.text.specs.Line.{left, unread, shown, begin, next_word, past_word, fault, word, keyword, is_next, past_optional, end, below, decimal_below, index, id, flag, number_bits, number, past_number, spectrum_ends, entries, past_entries, with_entries};

use crate::digits;
use crate::faults::{Fault, Indices, Wrong};
use crate::words::{from_word, is_blank, split_word};
use floats::patterns;

// The most digits of an index or a flag.
const INDEX_DIGITS: usize = 4;

// The most digits of an id, and how many ids there are.
const ID_DIGITS: usize = 5;

const IDS: u64 = 65536;

// What is left of a line, and how many of its words were begun. Without a Model: a type with a lifetime that has one can't
// be Copy.
#[derive(Clone, Copy)]
pub struct Line<'a> {
    rest: &'a [u8],
    words: u64,
}

// The bits of the number that a text begins with, and what is behind it.
#[tactic(auto, using(crate::proofs::line::Numbers::short), unfolding(crate::specs::Line::number_bits))]
fn split_number(text: &[u8]) -> Option<(u64, &[u8])>
    ensures { MatchOption result (number_bits text.now ≡ None) (λ p. (number_bits text.now ≡ Some p.0) × (p.1.now ≡ drop 16 text.now)) }
{
    let (digits, rest) = text.split_first_chunk::<16>()?;
    match rest.first() {
        Some(b) if !is_blank(*b) => None,
        _ => Some((digits::hex16(digits)?, rest)),
    }
}

// The value of a decimal of no more than `most` digits, if it is below `limit`.
#[tactic(auto, unfolding(crate::specs::Line::below))]
fn below(word: &[u8], most: usize, limit: u64) -> Option<u64>
    ensures value { result ≡ below most limit word.now }
    ensures bound { IfSome result (λ n. n < limit) }
{
    if most < word.len() {
        return None;
    }
    digits::decimal(word).filter(|value| *value < limit)
}

impl<'a> Line<'a> {
    // A line of which nothing was read.
    pub fn new(text: &'a [u8]) -> Line<'a>
        ensures { left result ≡ unread text.now }
    {
        Line {
            rest: text,
            words: 0,
        }
    }

    // That something is wrong with the word that was begun last.
    pub fn wrong(&self, wrong: Wrong) -> Fault
        ensures { result ≡ fault (left self.now) wrong }
    {
        Fault {
            word: self.words,
            wrong,
        }
    }

    // Begins the next word.
    fn begin(&mut self)
        ensures { left self.new ≡ begin (left self.old) }
    {
        self.words = self.words.saturating_add(1);
        self.rest = from_word(self.rest);
    }

    // The next word; empty at the line's end.
    fn next_word(&mut self) -> &'a [u8]
        ensures value { result.now ≡ next_word (left self.old) }
        ensures rest { left self.new ≡ past_word (left self.old) }
    {
        self.begin();
        let (word, rest) = split_word(self.rest);
        self.rest = rest;
        word
    }

    // The next word, which the line is to have.
    #[tactic(auto, unfolding(crate::specs::Line::word))]
    pub fn word(&mut self) -> Result<&'a [u8], Fault>
        ensures value { shown result ≡ word (left self.old) }
        ensures rest { left self.new ≡ past_word (left self.old) }
    {
        let word = self.next_word();
        if word.is_empty() {
            return Err(self.wrong(Wrong::Short));
        }
        Ok(word)
    }

    // The word `name`.
    #[tactic(auto, unfolding(crate::specs::Line::keyword))]
    pub fn keyword(&mut self, name: &[u8], wrong: Wrong) -> Result<(), Fault>
        ensures value { result ≡ keyword name.now wrong (left self.old) }
        ensures rest { left self.new ≡ past_word (left self.old) }
    {
        if self.word()? != name {
            return Err(self.wrong(wrong));
        }
        Ok(())
    }

    // Whether the next word is `name`; it is read only then.
    pub fn optional(&mut self, name: &[u8]) -> bool
        ensures value { result ≡ is_next name.now (left self.old) }
        ensures rest { left self.new ≡ past_optional name.now (left self.old) }
    {
        let mut ahead = *self;
        let is_next = ahead.next_word() == name;
        if is_next {
            *self = ahead;
        }
        is_next
    }

    // The line's end.
    #[tactic(auto, unfolding(crate::specs::Line::end))]
    pub fn end(&mut self) -> Result<(), Fault>
        ensures value { result ≡ end (left self.old) }
        ensures rest { left self.new ≡ begin (left self.old) }
    {
        self.begin();
        if !self.rest.is_empty() {
            return Err(self.wrong(Wrong::More));
        }
        Ok(())
    }

    // A number: the 16 hexadecimal digits of its bits. For speed the word's end is looked for behind them alone.
    #[tactic(auto, unfolding(crate::specs::Line::number, crate::specs::Line::past_number))]
    pub fn number(&mut self) -> Result<f64, Fault>
        ensures value { result ≡ number (left self.old) }
        ensures rest { left self.new ≡ past_number (left self.old) }
    {
        self.begin();
        if self.rest.is_empty() {
            return Err(self.wrong(Wrong::Short));
        }
        let Some((bits, rest)) = split_number(self.rest) else {
            return Err(self.wrong(Wrong::Number));
        };
        self.rest = rest;
        Ok(patterns::of_bits(bits))
    }

    // Whether a spectrum ends here: at the line's end, before a word of one letter, or before the word
    // `outer`.
    #[tactic(auto, unfolding(crate::specs::Line::spectrum_ends))]
    fn spectrum_ends(mut self) -> bool
        ensures { result ≡ spectrum_ends (left self.entry) }
    {
        let next = self.next_word();
        next.len() < 2 || next == b"outer".as_slice()
    }

    // The entries of a spectrum: all that the line has are read, and as many are kept as there are places
    // for; the answer is how many are kept. Each entry takes some bytes of the line, so that no spectrum uses
    // up the turns. By hand: `count` is that answer, and stops at the last place while the turns go on.
    pub fn entries(&mut self, values: &mut [f64]) -> Result<usize, Fault>
        ensures value { result ≡ entries (length values.old) (left self.old) }
        ensures rest { left self.new ≡ past_entries (left self.old) }
        ensures values { values.new ≡ with_entries values.old (left self.old) }
        ensures end { OnOk result (IsTrue (spectrum_ends (left self.new))) }
    {
        let mut count = 0;
        for _ in 0..self.rest.len() {
            if self.spectrum_ends() {
                break;
            }
            let x = self.number()?;
            if count < values.len() {
                values[count] = x;
                count += 1;
            }
        }
        Ok(count)
    }

    // A decimal of no more than `most` digits, below `limit`.
    #[tactic(auto, unfolding(crate::specs::Line::decimal_below))]
    fn decimal(&mut self, most: usize, limit: u64, wrong: Wrong) -> Result<u64, Fault>
        ensures value { result ≡ decimal_below most limit wrong (left self.old) }
        ensures bound { IfOk result (λ n. n < limit) }
        ensures rest { left self.new ≡ past_word (left self.old) }
    {
        below(self.word()?, most, limit).ok_or(self.wrong(wrong))
    }

    // An index.
    pub fn index(&mut self, of: Indices) -> Result<u64, Fault>
        ensures value { result ≡ index of (left self.old) }
        ensures rest { left self.new ≡ past_word (left self.old) }
    {
        self.decimal(INDEX_DIGITS, of.count, Wrong::Index(of))
    }

    // A candidate's id.
    pub fn id(&mut self) -> Result<u16, Fault>
        ensures value { result ≡ id (left self.old) }
        ensures rest { left self.new ≡ past_word (left self.old) }
    {
        Ok(self.decimal(ID_DIGITS, IDS, Wrong::Id)? as u16)
    }

    // A flag: 0 or 1.
    #[tactic(auto, unfolding(crate::specs::Line::flag))]
    pub fn flag(&mut self) -> Result<bool, Fault>
        ensures value { result ≡ flag (left self.old) }
        ensures rest { left self.new ≡ past_word (left self.old) }
    {
        Ok(self.decimal(INDEX_DIGITS, 2, Wrong::Flag)? == 1)
    }
}
