// A book's surface in fixed memory, as C has it too.
ghost use Rattle.std.specs.Prelude.{◌≡◌, ◌≤◌, true, length, take, replicate, IsSomeAnd};
ghost use Rattle.floats.specs.Float.{f1};
ghost use Rattle.numbers.specs.DenseSpectrum.{fine_samples};
ghost use Rattle.numbers.specs.Refusal.{verdict, accepted, answer};
ghost use Rattle.numbers.specs.Written.{over};
ghost use Rattle.optics.specs.Surface.{medium};
ghost use Rattle.optics.specs.Check.{check_spectra};
ghost use Rattle.book.specs.Layout.{is_part};
ghost use Rattle.book.specs.Surfaces.{part_bytes, surface_in, roughness_kept, offered_on, air_outside, check_read, check_written};
ghost use Rattle.book.specs.Record.{surface_of, laid, offered, record_of, entries_in, outer_made, offered_made, make_offered, MadeIn, answer_offered};

pub use crate::bytes::PLACES;
use crate::{bytes, layout};
use floats::float;
use numbers::dense_spectrum::DenseSpectrum;
use numbers::refusal::{Check, Refusal, refuse};
use numbers::vec2::Vec2;
use optics::check;
use optics::check::{check_spectra, check_surface, is_roughness_given};
use optics::microfacet::{Kind, Microsurface, Spectra, Surface};

// The roughness stands as it was given and raised; of each spectrum so many entries are in use. By hand, numbers for the
// kind and the flag, and places for entries: C has no enum and no slice in a struct.
#[repr(C)]
#[derive(Clone, Copy)]
pub struct Record {
    pub kind: u64,
    pub two_sided: u64,
    pub given: f64,
    pub roughness: Vec2,
    pub entries: usize,
    pub eta: [f64; PLACES],
    pub k: [f64; PLACES],
    pub outer: [f64; PLACES],
}

// So many of a spectrum's places, or none where a number is above the places'.
#[tactic(auto, unfolding(crate::specs::Record::entries_in))]
fn entries_in(n: usize, places: &[f64; PLACES]) -> &[f64]
    ensures { result.now ≡ entries_in n places.now }
{
    if n > PLACES {
        return &[];
    }
    &places[..n]
}

// Fills a spectrum's places with so many ones, and then zeros.
pub(crate) fn ones(places: &mut [f64; PLACES], n: usize)
    requires { n ≤ fine_samples }
    ensures { places.new ≡ laid (replicate n f1) }
{
    *places = [0.0; PLACES];
    places[..n].fill(1.0);
}

// Puts a spectrum's entries at the front of its places. What stands behind them stays, since nothing reads it: clearing it
// would take longer than the entries.
#[tactic(auto, unfolding(numbers::specs::Written::over))]
fn put(places: &mut [f64; PLACES], xs: &[f64])
    requires { length xs.now ≤ fine_samples }
    ensures { places.new ≡ over xs.now places.old }
{
    places[..xs.len()].copy_from_slice(xs);
}

// Puts what lies outside a surface of so many entries at the front of its places. Metal's outer spectrum isn't read.
#[tactic(auto, unfolding(numbers::specs::Written::over, crate::specs::Record::outer_made))]
fn put_outer(places: &mut [f64; PLACES], kind: Kind, n: usize, outer: &[f64])
    requires { (length (outer_made kind n outer.now) ≡ n) × (n ≤ fine_samples) }
    ensures { places.new ≡ over (outer_made kind n outer.now) places.old }
{
    match kind {
        Kind::Metal => places[..n].fill(0.0),
        Kind::Glass => put(places, outer),
    }
}

impl Record {
    // What stands where nothing was read: its roughness isn't as it was given, so that every call refuses it.
    pub const NOTHING: Record = Record {
        kind: Kind::Metal as u64,
        two_sided: 0,
        given: 0.0,
        roughness: Vec2::ZERO,
        entries: 0,
        eta: [0.0; PLACES],
        k: [0.0; PLACES],
        outer: [0.0; PLACES],
    };

    // Becomes the surface that a roughness as given and spectra make.
    #[tactic(auto, using(crate::proofs::record::Made::tables))]
    fn set(&mut self, kind: Kind, two_sided: bool, given: f64, spectra: &Spectra<'_>)
        requires { check_spectra kind spectra.now.eta spectra.now.k (medium spectra.now.outer) ≡ accepted }
        ensures { offered self.new ≡ offered_made kind two_sided given spectra.now.eta spectra.now.k spectra.now.outer }
    {
        let n = spectra.eta.values.len();
        self.kind = u64::from(kind);
        self.two_sided = two_sided as u64;
        self.given = given;
        self.roughness = Vec2::splat(check::raised(given));
        self.entries = n;
        put(&mut self.eta, spectra.eta.values);
        put(&mut self.k, spectra.k.values);
        put_outer(&mut self.outer, kind, n, spectra.outer.values);
    }

    // The same in a place that holds no record yet. In a function of its own, for the record that it has room for.
    fn set_first(
        place: &mut Option<Record>,
        kind: Kind,
        two_sided: bool,
        given: f64,
        spectra: &Spectra<'_>,
    )
        requires { check_spectra kind spectra.now.eta spectra.now.k (medium spectra.now.outer) ≡ accepted }
        ensures { IsSomeAnd place.new
            (λ r. offered r ≡ offered_made kind two_sided given spectra.now.eta spectra.now.k spectra.now.outer) }
    {
        *place = Some(Record::NOTHING);
        if let Some(record) = place {
            record.set(kind, two_sided, given, spectra);
        }
    }

    // What a roughness as given and spectra make, in its place, or what they are refused for, which leaves the place as it
    // was. Metal's outer spectrum isn't read. In place: a record is large, and handed on by value it was cleared and copied
    // at each step.
    #[tactic(auto, unfolding(crate::specs::Record::make_offered, numbers::specs::Refusal::number))]
    pub fn make_in(
        place: &mut Option<Record>,
        kind: Kind,
        two_sided: bool,
        given: f64,
        spectra: &Spectra<'_>,
    ) -> Check
        ensures { MadeIn (make_offered kind two_sided given spectra.now.eta spectra.now.k spectra.now.outer) result place.old place.new }
    {
        refuse(Refusal::Roughness, is_roughness_given(given))?;
        check_spectra(kind, spectra)?;
        match place {
            Some(record) => record.set(kind, two_sided, given, spectra),
            None => Record::set_first(place, kind, two_sided, given, spectra),
        }
        Ok(())
    }

    // The same, handed out.
    pub fn made(
        kind: Kind,
        two_sided: bool,
        given: f64,
        spectra: &Spectra<'_>,
    ) -> Result<Record, Refusal>
        ensures { answer_offered (answer result) ≡ make_offered kind two_sided given spectra.now.eta spectra.now.k spectra.now.outer }
    {
        let mut place = None;
        Record::make_in(&mut place, kind, two_sided, given, spectra)?;
        Ok(place.unwrap())
    }

    // Becomes the surface of a part.
    #[tactic(auto, using(crate::proofs::layout::OnePart::long_part))]
    pub(crate) fn read_part(&mut self, p: &[u8])
        requires { is_part p.now ≡ true }
        ensures { self.new ≡ record_of (surface_in p.now) }
    {
        let n = layout::samples_of(p[1]);
        let given = bytes::double_at(p, 3);
        self.kind = p[0] as u64;
        self.two_sided = p[2] as u64;
        self.given = given;
        self.roughness = Vec2::splat(check::raised(given));
        self.entries = n;
        bytes::spectrum(&mut self.eta, p, 11, n);
        bytes::spectrum(&mut self.k, p, 11 + 8 * n, n);
        ones(&mut self.outer, n);
    }

    // Its kind; a number that is none reads as glass.
    #[tactic(auto, unfolding(crate::specs::Record::surface_of))]
    pub fn kind(&self) -> Kind
        ensures { result ≡ (surface_of self.now).kind }
    {
        Kind::of_code(self.kind)
    }

    // Whether it is two-sided.
    #[tactic(auto, unfolding(crate::specs::Record::surface_of))]
    pub fn is_two_sided(&self) -> bool
        ensures { result ≡ (surface_of self.now).two_sided }
    {
        self.two_sided != 0
    }

    // Its roughness as given, and none where the kind is none.
    #[tactic(auto, unfolding(crate::specs::Record::surface_of, optics::specs::Surface::roughness_of, optics::specs::Surface::kind_read))]
    pub(crate) fn given(&self) -> f64
        ensures { result ≡ (surface_of self.now).given }
    {
        if Kind::try_from(self.kind).is_err() {
            return float::nan();
        }
        self.given
    }

    #[tactic(auto, unfolding(crate::specs::Record::surface_of))]
    pub(crate) fn eta(&self) -> &[f64]
        ensures { result.now ≡ (surface_of self.now).eta }
    {
        entries_in(self.entries, &self.eta)
    }

    #[tactic(auto, unfolding(crate::specs::Record::surface_of))]
    pub(crate) fn k(&self) -> &[f64]
        ensures { result.now ≡ (surface_of self.now).k }
    {
        entries_in(self.entries, &self.k)
    }

    #[tactic(auto, unfolding(crate::specs::Record::offered))]
    fn outer(&self) -> &[f64]
        ensures { result.now ≡ (offered self.now).outer }
    {
        entries_in(self.entries, &self.outer)
    }

    // Whether the roughness as given is one, and the surface's is it raised.
    #[tactic(auto, unfolding(crate::specs::Surfaces::roughness_kept, crate::specs::Record::surface_of))]
    fn roughness_kept(&self) -> bool
        ensures { result ≡ roughness_kept (surface_of self.now) }
    {
        let given = self.given();
        let raised = check::raised(given);
        is_roughness_given(given) && self.roughness.x == raised && self.roughness.y == raised
    }

    // The surface of every call, with its spectra. Where the roughness isn't as it was given, it has one that no check
    // accepts.
    #[tactic(auto, unfolding(crate::specs::Surfaces::offered_on, crate::specs::Surfaces::surface_on, crate::specs::Record::surface_of, crate::specs::Record::offered))]
    pub fn lent(&self) -> Microsurface<'_>
        ensures { result ≡ offered_on (offered self.now) }
    {
        let roughness = if self.roughness_kept() {
            self.roughness
        } else {
            Vec2::splat(float::nan())
        };
        Microsurface {
            surface: Surface {
                kind: self.kind(),
                roughness,
            },
            spectra: Spectra::new(self.eta(), self.k(), self.outer()),
        }
    }

    // Whether air lies outside: metal has no outer spectrum, and glass's is 1.0 throughout.
    #[tactic(auto, unfolding(crate::specs::Surfaces::air_outside, crate::specs::Record::surface_of, crate::specs::Record::offered, optics::specs::Air::all_ones))]
    fn air_outside(&self) -> bool
        ensures { result ≡ air_outside (surface_of self.now).kind (offered self.now).outer }
    {
        match self.kind() {
            Kind::Metal => true,
            Kind::Glass => DenseSpectrum::new(self.outer()).all_within(1.0, 1.0),
        }
    }

    // What it is refused for where it is to be written.
    #[tactic(auto, unfolding(crate::specs::Surfaces::check_written, crate::specs::Record::offered, numbers::specs::Refusal::number))]
    pub fn check_written(&self) -> Check
        ensures { verdict result ≡ check_written (offered self.now) }
    {
        check_surface(&self.lent())?;
        refuse(Refusal::Outer, self.air_outside())
    }

    // How many bytes its part has.
    #[tactic(auto, unfolding(crate::specs::Layout::part_length), using(crate::proofs::record::Part::counted))]
    pub(crate) fn part_length(&self) -> usize
        requires { check_written (offered self.now) ≡ accepted }
        ensures { (result ≡ length (part_bytes (surface_of self.now))) × (result ≤ 7547) }
    {
        layout::part_length(self.eta().len())
    }

    // The bytes that its part begins with: kind, step and flag.
    #[tactic(auto, unfolding(crate::specs::Record::surface_of, crate::specs::Surfaces::part_bytes), using(crate::proofs::record::Part::code_small, crate::proofs::record::Part::flag_byte))]
    fn head(&self) -> [u8; 3]
        ensures { result ≡ take 3 (part_bytes (surface_of self.now)) }
    {
        [
            u64::from(self.kind()) as u8,
            layout::step_for(self.eta().len()),
            self.is_two_sided() as u8,
        ]
    }

    // Its part's bytes.
    #[tactic(auto, using(crate::proofs::record::Part::counted))]
    pub(crate) fn put_part(&self, part: &mut [u8])
        requires checked { check_written (offered self.now) ≡ accepted }
        requires room { length part.old ≡ length (part_bytes (surface_of self.now)) }
        ensures { part.new ≡ part_bytes (surface_of self.now) }
    {
        let eta = self.eta();
        bytes::put(part, 0, &self.head());
        bytes::put_double(part, 3, self.given());
        bytes::put_doubles(part, 11, eta);
        bytes::put_doubles(part, 11 + 8 * eta.len(), self.k());
    }
}
