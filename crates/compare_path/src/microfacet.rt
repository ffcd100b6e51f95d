// Facets and Fresnel terms.
ghost use Rattle.std.specs.Prelude.{◌≡◌};
ghost use Rattle.optics.specs.Facets.{is_delta, lambda, chi_pass, g1, g, g_over_g1, d, sample_normal_pdf, f_schlick, disney_diffuse};
ghost use Rattle.optics.specs.Fresnel.{fr_real, fr_complex, f_at, f};
ghost use Rattle.optics.specs.Surface.{medium, constant_eta, eta_at, k_at, index_on, kind_of};
ghost use Rattle.optics.specs.Sampler.{sample_normal};

use numbers::dense_spectrum::DenseSpectrum;
use numbers::vec2::Vec2;
use numbers::vec3::Vec3;
use optics::color::Color;
use optics::microfacet;
use optics::microfacet::{DiskPoint, Ggx, Kind, Known, Spectra};

// Whether eta counts as constant, on glass.
#[tactic(auto, unfolding(optics::specs::Surface::constant_eta, optics::specs::Known::known_on_glass))]
#[unsafe(no_mangle)]
pub extern "C" fn optics_constant_eta(eta: &[f64], outer: &[f64]) -> bool
    ensures { result ≡ constant_eta eta.now (medium outer.now) }
{
    let known = Known::on_glass(&Spectra::new(eta, &[], outer));
    known.eta_constant
}

#[unsafe(no_mangle)]
pub extern "C" fn optics_eta_at(eta: &[f64], wl: f64) -> f64
    ensures { result ≡ eta_at eta.now wl }
{
    microfacet::eta_at(&DenseSpectrum::new(eta), wl)
}

#[unsafe(no_mangle)]
pub extern "C" fn optics_k_at(eta: &[f64], k: &[f64], wl: f64) -> f64
    ensures { result ≡ k_at eta.now k.now wl }
{
    microfacet::k_at(&DenseSpectrum::new(eta), &DenseSpectrum::new(k), wl)
}

// The index at one wavelength, on a kind by its code.
#[unsafe(no_mangle)]
pub extern "C" fn optics_index_on(kind: u64, eta: &[f64], k: &[f64], outer: &[f64], wl: f64) -> f64
    ensures { result ≡ index_on (kind_of kind) eta.now (medium outer.now) wl }
{
    microfacet::optical_constants(Kind::of_code(kind), &Spectra::new(eta, k, outer), wl).eta
}

#[unsafe(no_mangle)]
pub extern "C" fn optics_is_delta(a: Vec2) -> bool
    ensures { result ≡ is_delta a }
{
    let facets = Ggx { roughness: a };
    facets.is_delta()
}

#[unsafe(no_mangle)]
pub extern "C" fn optics_disney_diffuse(a: Vec2, wo: f64, wi: f64, wh: f64) -> f64
    ensures { result ≡ disney_diffuse a wo wi wh }
{
    let facets = Ggx { roughness: a };
    facets.disney_diffuse(wo, wi, wh)
}

#[unsafe(no_mangle)]
pub extern "C" fn optics_f_schlick(f0: f64, f90: f64, cosine: f64) -> f64
    ensures { result ≡ f_schlick f0 f90 cosine }
{
    microfacet::f_schlick(f0, f90, cosine)
}

#[unsafe(no_mangle)]
pub extern "C" fn optics_d(a: Vec2, wh: Vec3) -> f64
    ensures { result ≡ d a wh }
{
    let facets = Ggx { roughness: a };
    facets.d(wh)
}

#[unsafe(no_mangle)]
pub extern "C" fn optics_lambda(a: Vec2, w: Vec3) -> f64
    ensures { result ≡ lambda a w }
{
    let facets = Ggx { roughness: a };
    facets.lambda(w)
}

#[unsafe(no_mangle)]
pub extern "C" fn optics_chi_pass(wo: Vec3, wh: Vec3) -> bool
    ensures { result ≡ chi_pass wo wh }
{
    microfacet::chi_pass(wo, wh)
}

#[unsafe(no_mangle)]
pub extern "C" fn optics_g(a: Vec2, wo: Vec3, wi: Vec3, wh: Vec3) -> f64
    ensures { result ≡ g a wo wi wh }
{
    let facets = Ggx { roughness: a };
    facets.g(wo, wi, wh)
}

#[unsafe(no_mangle)]
pub extern "C" fn optics_g1(a: Vec2, wo: Vec3, wh: Vec3) -> f64
    ensures { result ≡ g1 a wo wh }
{
    let facets = Ggx { roughness: a };
    facets.g1(wo, wh)
}

#[unsafe(no_mangle)]
pub extern "C" fn optics_g_over_g1(a: Vec2, wo: Vec3, wi: Vec3, wh: Vec3) -> f64
    ensures { result ≡ g_over_g1 a wo wi wh }
{
    let facets = Ggx { roughness: a };
    facets.g_over_g1(wo, wi, wh)
}

#[unsafe(no_mangle)]
pub extern "C" fn optics_sample_normal_pdf(a: Vec2, wh: Vec3, wo: Vec3) -> f64
    ensures { result ≡ sample_normal_pdf a wh wo }
{
    let facets = Ggx { roughness: a };
    facets.sample_normal_pdf(wh, wo)
}

#[unsafe(no_mangle)]
pub extern "C" fn optics_sample_normal(a: Vec2, wo: Vec3, disk: f64, c: f64, s: f64) -> Vec3
    ensures { result ≡ sample_normal a wo disk c s }
{
    let facets = Ggx { roughness: a };
    facets.sample_normal(wo, DiskPoint { disk, c, s })
}

#[unsafe(no_mangle)]
pub extern "C" fn optics_fr_real(cosine: f64, eta: f64) -> f64
    ensures { result ≡ fr_real cosine eta }
{
    microfacet::fr_real(cosine, eta)
}

#[unsafe(no_mangle)]
pub extern "C" fn optics_fr_complex(cosine: f64, eta: f64, k: f64) -> f64
    ensures { result ≡ fr_complex cosine eta k }
{
    microfacet::fr_complex(cosine, eta, k)
}

#[unsafe(no_mangle)]
pub extern "C" fn optics_f_at(wo: Vec3, wh: Vec3, eta: f64, k: f64) -> f64
    ensures { result ≡ f_at wo wh eta k }
{
    microfacet::f_at(wo, wh, eta, k)
}

#[unsafe(no_mangle)]
pub extern "C" fn optics_f(
    kind: u64,
    eta: &[f64],
    k: &[f64],
    outer: &[f64],
    wo: Vec3,
    wh: Vec3,
    lambda: Color,
) -> Color
    ensures { result ≡ f (kind_of kind) eta.now k.now (medium outer.now) wo wh lambda }
{
    microfacet::f(
        Kind::of_code(kind),
        &Spectra::new(eta, k, outer),
        wo,
        wh,
        lambda,
    )
}
