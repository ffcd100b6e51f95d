// The spectra for the records that come after them. The records 700, 800, 970, 980 and 940 have the entries: of
// what the crate `numbers` is handed or of eta, of k and of the outer spectrum. 971, 981 and 941 have the first of 95 entries, 972, 982
// and 942 of 471, which stand by turns.
use crate::record;
use crate::record::Head;
use numbers::dense_spectrum::DenseSpectrum;
use optics::microfacet;
use std::fs::File;

const MOST: usize = DenseSpectrum::FINE_SAMPLES;

const ONES: [f64; MOST] = [1.0; MOST];

// The first `n` entries once more in the places after them, by turns. By index: each entry is one that stands before it in
// the same array.
fn by_turns(entries: &mut [f64], n: usize) {
    for i in n..entries.len() {
        entries[i] = entries[i - n];
    }
}

// Entries, of which the first `n` are the spectrum's. By hand: a replay takes fixed memory, and a Vec would allocate; and
// beside the program rays' own, since the two share no crate that knows a spectrum as it is read.
#[derive(Clone, Copy)]
struct Spectrum {
    entries: [f64; MOST],
    n: usize,
}

impl Spectrum {
    const NONE: Spectrum = Spectrum {
        entries: [0.0; MOST],
        n: 0,
    };

    fn read(file: &mut File, head: Head) -> Spectrum {
        let mut entries = [0.0; MOST];
        record::read_floats(file, head.ins, &mut entries);
        // a count that is no number reads as some entries too
        let n = (head.ins % 256) as usize;
        if head.number % 10 == 0 {
            return Spectrum { entries, n };
        }
        by_turns(&mut entries, n);
        let n = if head.number % 10 == 1 {
            DenseSpectrum::SAMPLES
        } else {
            MOST
        };
        Spectrum { entries, n }
    }

    fn lent(&self) -> DenseSpectrum<'_> {
        DenseSpectrum::new(&self.entries[..self.n.min(MOST)])
    }
}

// Until a record has an outer spectrum, glass lies in air: ones, as many as eta's entries.
#[derive(Clone, Copy)]
pub struct Spectra {
    eta: Spectrum,
    k: Spectrum,
    outer: Option<Spectrum>,
}

impl Spectra {
    pub fn new() -> Spectra {
        Spectra {
            eta: Spectrum::NONE,
            k: Spectrum::NONE,
            outer: None,
        }
    }

    pub fn in_air(&self) -> bool {
        self.outer.is_none()
    }

    // Reads what follows the head of a record, if it has a spectrum; whether it does.
    pub fn read(&mut self, file: &mut File, head: Head) -> bool {
        match head.number {
            700 | 800 | 970..=979 => self.eta = Spectrum::read(file, head),
            980..=989 => self.k = Spectrum::read(file, head),
            940..=949 => self.outer = Some(Spectrum::read(file, head)),
            _ => return false,
        }
        true
    }

    // The spectrum that the crate `numbers` is handed, which lies in eta's place.
    pub fn numbers(&self) -> DenseSpectrum<'_> {
        self.eta.lent()
    }

    pub fn lent(&self) -> microfacet::Spectra<'_> {
        microfacet::Spectra {
            eta: self.eta.lent(),
            k: self.k.lent(),
            outer: match &self.outer {
                Some(outer) => outer.lent(),
                None => DenseSpectrum::new(&ONES[..self.eta.n.min(MOST)]),
            },
        }
    }
}
