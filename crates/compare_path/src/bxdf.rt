// Mirror, bend, samplers and densities.
ghost use Rattle.std.specs.Prelude.{◌≡◌};
ghost use Rattle.optics.specs.Bxdf.{reflect, refract, conductor_sample, dielectric_sample};
ghost use Rattle.optics.specs.Density.{conductor_pdf, dielectric_pdf, pdf_of};
ghost use Rattle.numbers.specs.Refusal.{given};
ghost use Rattle.rulvimba.specs.Results.{direction_result};
ghost use Rattle.rulvimba.specs.Surfaces.{surface_of};
ghost use Rattle.compare_path.specs.Results.{scattered_result};

use crate::results::ScatteredResult;
use numbers::vec2::Vec2;
use numbers::vec3::Vec3;
use optics::bxdf;
use optics::bxdf::{conductor, dielectric};
use optics::microfacet::{DiskPoint, Ggx, OpticalConstants, Surface};
use rulvimba::records::DirectionResult;
use rulvimba::surfaces::SurfaceRecord;

#[unsafe(no_mangle)]
pub extern "C" fn optics_reflect(wo: Vec3, n: Vec3) -> DirectionResult
    ensures { result ≡ direction_result (given (reflect wo n)) }
{
    DirectionResult::from(Ok(bxdf::reflect(wo, n)))
}

#[unsafe(no_mangle)]
pub extern "C" fn optics_refract(eta: f64, wo: Vec3, n: Vec3) -> DirectionResult
    ensures { result ≡ direction_result (given (refract eta wo n)) }
{
    DirectionResult::from(Ok(bxdf::refract(eta, wo, n)))
}

#[unsafe(no_mangle)]
pub extern "C" fn optics_conductor_sample(
    a: Vec2,
    wo: Vec3,
    disk: f64,
    c: f64,
    s: f64,
) -> ScatteredResult
    ensures { result ≡ scattered_result (conductor_sample a wo disk c s) }
{
    let mfd = Ggx { roughness: a };
    ScatteredResult::from(conductor::sample(wo, mfd, DiskPoint { disk, c, s }))
}

#[unsafe(no_mangle)]
pub extern "C" fn optics_dielectric_sample(
    a: Vec2,
    eta: f64,
    k: f64,
    wo: Vec3,
    u: f64,
    disk: f64,
    c: f64,
    s: f64,
) -> ScatteredResult
    ensures { result ≡ scattered_result (dielectric_sample a eta k wo u disk c s) }
{
    let mfd = Ggx { roughness: a };
    let at = OpticalConstants { eta, k };
    ScatteredResult::from(dielectric::sample(wo, mfd, at, u, DiskPoint { disk, c, s }))
}

#[unsafe(no_mangle)]
pub extern "C" fn optics_conductor_pdf(a: Vec2, wo: Vec3, wi: Vec3) -> f64
    ensures { result ≡ conductor_pdf a wo wi }
{
    let mfd = Ggx { roughness: a };
    conductor::pdf(wo, wi, mfd)
}

#[unsafe(no_mangle)]
pub extern "C" fn optics_dielectric_pdf(
    a: Vec2,
    wo: Vec3,
    wi: Vec3,
    reflection: bool,
    eta: f64,
    k: f64,
) -> f64
    ensures { result ≡ dielectric_pdf a eta k reflection wo wi }
{
    let mfd = Ggx { roughness: a };
    dielectric::pdf(wo, wi, reflection, mfd, OpticalConstants { eta, k })
}

#[unsafe(no_mangle)]
pub extern "C" fn optics_pdf(
    surface: SurfaceRecord,
    wo: Vec3,
    wi: Vec3,
    reflection: bool,
    eta: f64,
    k: f64,
) -> f64
    ensures { result ≡ pdf_of (surface_of surface).kind (surface_of surface).roughness eta k reflection wo wi }
{
    let surface = Surface::from(surface);
    let at = OpticalConstants { eta, k };
    bxdf::pdf(
        surface.kind,
        Ggx::new(surface.roughness),
        wo,
        wi,
        reflection,
        at,
    )
}
