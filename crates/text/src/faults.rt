// What is wrong with a line of a job, in words.
ghost use Rattle.std.specs.Prelude.{Some};
ghost use Rattle.text.specs.Faults.{indices_text, wrong_text, fault_text};

use std::fmt;

// Whose index a word is, and how many there are.
#[derive(Clone, Copy)]
pub struct Indices {
    pub whose: &'static str,
    pub count: u64,
}

// What is wrong with a word.
#[derive(Clone, Copy)]
pub enum Wrong {
    Command,
    Index(Indices),
    Id,
    Kind,
    Flag,
    Number,
    Eta,
    K,
    Short,
    More,
    NoSurface,
    NoPath,
    NoFile,
    NoPlace,
}

// What is wrong with a line, and at which of its words, from 1.
#[derive(Clone, Copy)]
pub struct Fault {
    pub word: u64,
    pub wrong: Wrong,
}

impl fmt::Display for Indices {
    ghost output = { λ of. Some (indices_text of) };

    fn fmt<W: fmt::Write>(&self, f: &mut fmt::Formatter<W>) -> fmt::Result {
        let whose = self.whose;
        let last = self.count.saturating_sub(1);
        write!(f, "{whose} index is from 0 to {last}")
    }
}

impl fmt::Display for Wrong {
    ghost output = { λ why. Some (wrong_text why) };

    fn fmt<W: fmt::Write>(&self, f: &mut fmt::Formatter<W>) -> fmt::Result {
        match self {
            Wrong::Command => f.write_str("unknown command"),
            Wrong::Index(indices) => write!(f, "{indices}"),
            Wrong::Id => f.write_str("an id is from 0 to 65535"),
            Wrong::Kind => f.write_str("a kind is metal or glass"),
            Wrong::Flag => f.write_str("a flag is 0 or 1"),
            Wrong::Number => f.write_str(
                "a number is the 16 hexadecimal digits of its bits; a decimal is turned into them by rays-csv to-job",
            ),
            Wrong::Eta => f.write_str("the word eta is missing"),
            Wrong::K => f.write_str("the word k is missing"),
            Wrong::Short => f.write_str("the line ends too soon"),
            Wrong::More => f.write_str("the line goes on"),
            Wrong::NoSurface => f.write_str("the surface is not made"),
            Wrong::NoPath => f.write_str("the path is not started"),
            Wrong::NoFile => f.write_str("the file cannot be read"),
            Wrong::NoPlace => f.write_str("the book's surfaces go past the last place"),
        }
    }
}

impl fmt::Display for Fault {
    ghost output = { λ f. Some (fault_text f) };

    fn fmt<W: fmt::Write>(&self, f: &mut fmt::Formatter<W>) -> fmt::Result {
        let word = self.word;
        let wrong = self.wrong;
        write!(f, "error word {word}: {wrong}")
    }
}
