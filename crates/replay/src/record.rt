// Records of the sample: a function's number, how many words go in and come out, and the words.
//
//   NNN II O WORD .. WORD      in decimal, and each word 16 hexadecimal digits
use floats::patterns;
use std::fs::File;
use text::records;

// What a record begins with; how many words come out is known by the function.
#[derive(Clone, Copy)]
pub struct Head {
    pub number: u64,
    pub ins: u64,
}

// The head of the next record, if there is one.
pub fn read_head(file: &mut File) -> Option<Head> {
    let text: [u8; 8] = records::next(file)?;
    Some(Head {
        number: records::decimal(&text[..3]),
        ins: records::decimal(&text[4..6]),
    })
}

// The next word behind its blank, and 0 where it is none.
pub fn word(file: &mut File) -> u64 {
    let text: [u8; 17] = records::next_or_zeros(file);
    records::hex16(&text[1..])
}

// The words that go in, as floats; the places behind them are 0.
pub fn read_floats(file: &mut File, ins: u64, floats: &mut [f64]) {
    floats.fill(0.0);
    for x in floats.iter_mut().take(ins as usize) {
        *x = patterns::of_bits(word(file));
    }
}
