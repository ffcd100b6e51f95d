// Surfaces as records for C, whose kind is its code. A number that is no kind's is refused as 1, by a
// roughness that no check accepts.
ghost use Rattle.std.specs.Prelude.{◌≡◌};
ghost use Rattle.optics.specs.Surface.{kind_of, roughness_of, medium};
ghost use Rattle.optics.specs.Check.{check_surface};
ghost use Rattle.counter.specs.Counter as Counter;
ghost use Rattle.numbers.specs.Refusal.{answer};
ghost use Rattle.rulvimba.specs.Surfaces.{surface_of, surface_record, surface_with, surface_result};
ghost use Rattle.rulvimba.specs.Results.{check_number};

use crate::records;
use crate::records::number_and;
use floats::float;
use numbers::refusal::Refusal;
use numbers::vec2::Vec2;
use optics::check;
use optics::microfacet::{Kind, Microsurface, Spectra, Surface, UnknownKind};

#[repr(C)]
#[derive(Clone, Copy)]
pub struct SurfaceRecord {
    pub kind: u64,
    pub roughness: Vec2,
}

#[repr(C)]
#[derive(Clone, Copy)]
pub struct SurfaceResult {
    pub number: u64,
    pub surface: SurfaceRecord,
}

// A kind that is neither metal nor glass gets a roughness that no check accepts. By hand, no error: a bounce that is
// refused answers its path too, and so works on a surface.
impl From<SurfaceRecord> for Surface {
    ghost from_gives = { λ r s. s ≡ surface_of r };

    #[tactic(auto, unfolding(crate::specs::Surfaces::surface_of, optics::specs::Surface::roughness_of, optics::specs::Surface::kind_read, optics::specs::Surface::kind_of))]
    fn from(record: SurfaceRecord) -> Surface {
        match Kind::try_from(record.kind) {
            Ok(kind) => Surface {
                kind,
                roughness: record.roughness,
            },
            Err(UnknownKind) => Surface {
                kind: Kind::Glass,
                roughness: Vec2::splat(float::nan()),
            },
        }
    }
}

impl From<Surface> for SurfaceRecord {
    ghost from_gives = { λ s r. r ≡ surface_record s };

    #[tactic(auto, unfolding(crate::specs::Surfaces::surface_record))]
    fn from(surface: Surface) -> SurfaceRecord {
        SurfaceRecord {
            kind: u64::from(surface.kind),
            roughness: surface.roughness,
        }
    }
}

// A surface that C hands over, with the spectra that it lends for it.
pub fn lent<'a>(
    surface: SurfaceRecord,
    eta: &'a [f64],
    k: &'a [f64],
    outer: &'a [f64],
) -> Microsurface<'a>
    ensures { result ≡ surface_with surface eta.now k.now outer.now }
{
    Microsurface {
        surface: Surface::from(surface),
        spectra: Spectra::new(eta, k, outer),
    }
}

const NO_SURFACE: SurfaceRecord = SurfaceRecord {
    kind: Kind::Metal as u64,
    roughness: Vec2::ZERO,
};

impl From<Result<Surface, Refusal>> for SurfaceResult {
    ghost from_gives = { λ a r. r ≡ surface_result (answer a) };

    #[tactic(auto, unfolding(crate::specs::Surfaces::surface_result))]
    fn from(a: Result<Surface, Refusal>) -> SurfaceResult {
        let (number, surface) = number_and(a.map(SurfaceRecord::from), NO_SURFACE);
        SurfaceResult { number, surface }
    }
}

#[tactic(auto, unfolding(optics::specs::Surface::roughness_of, optics::specs::Surface::kind_read, optics::specs::Surface::kind_of, numbers::specs::Refusal::number))]
fn made(kind: u64, roughness: f64, spectra: &Spectra<'_>) -> Result<Surface, Refusal>
    ensures { answer result ≡ Counter.make_surface (kind_of kind) (roughness_of kind roughness) spectra.now.eta spectra.now.k (medium spectra.now.outer) }
{
    match Kind::try_from(kind) {
        Ok(kind) => counter::make_surface(kind, roughness, spectra),
        Err(UnknownKind) => Err(Refusal::Roughness),
    }
}

// A surface from its kind, one roughness and its spectra.
pub fn rulvimba_make_surface(
    kind: u64,
    roughness: f64,
    eta: &[f64],
    k: &[f64],
    outer: &[f64],
) -> SurfaceResult
    ensures { result ≡ surface_result (Counter.make_surface (kind_of kind) (roughness_of kind roughness) eta.now k.now (medium outer.now)) }
{
    SurfaceResult::from(made(kind, roughness, &Spectra::new(eta, k, outer)))
}

// The number that the fields of a surface are refused with, or 0.
pub fn rulvimba_check_surface(surface: SurfaceRecord, eta: &[f64], k: &[f64], outer: &[f64]) -> u64
    ensures { result ≡ check_number (check_surface (surface_with surface eta.now k.now outer.now)) }
{
    records::number_of(check::check_surface(&lent(surface, eta, k, outer)))
}
