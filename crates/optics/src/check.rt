// What document 01 asks of an argument, each with its refusal ("At the counter"): a surface, an index, wavelengths,
// a random number, a point of the circle.
ghost use Rattle.std.specs.Prelude.{◌≡◌};
ghost use Rattle.numbers.specs.Refusal.{verdict};
ghost use Rattle.numbers.specs.DenseSpectrum.{all_within};
ghost use Rattle.optics.specs.Surface.{medium, is_roughness, roughness_holds, eta_min, eta_max, eta_holds, is_eta, all_zero, k_entries_hold, k_holds, outer_holds, is_roughness_given, raised};
ghost use Rattle.optics.specs.Check.{check_spectra, check_surface, check_eta, check_lookups, check_random, is_circle_pair, check_circle_pair};

use crate::color::Color;
use crate::microfacet::{Kind, Microsurface, Spectra};
use floats::float;
use numbers::dense_spectrum;
use numbers::dense_spectrum::DenseSpectrum;
use numbers::refusal::{Check, Refusal, refuse};
use numbers::vec2::Vec2;

// The limits of a surface's fields.
const ROUGHNESS_MIN: f64 = 1e-5;

const ETA_MIN: f64 = 0.01;

const ETA_MAX: f64 = 100.0;

const K_MIN: f64 = 1e-6;

const K_MAX: f64 = 100.0;

// Whether a surface may be made of a roughness, which is then raised.
#[tactic(auto, unfolding(crate::specs::Surface::is_roughness_given))]
pub fn is_roughness_given(r: f64) -> bool
    ensures { result ≡ is_roughness_given r }
{
    float::within(0.0, 1.0, r)
}

// A roughness as it was given, raised to the least.
pub fn raised(r: f64) -> f64
    ensures { result ≡ raised r }
{
    float::max(r, ROUGHNESS_MIN)
}

fn is_roughness(a: f64) -> bool
    ensures { result ≡ is_roughness a }
{
    float::within(ROUGHNESS_MIN, 1.0, a)
}

#[tactic(auto, unfolding(crate::specs::Surface::roughness_holds))]
fn roughness_holds(a: Vec2) -> bool
    ensures { result ≡ roughness_holds a }
{
    is_roughness(a.x) & is_roughness(a.y)
}

fn is_eta(eta: f64) -> bool
    ensures { result ≡ is_eta eta }
{
    float::within(ETA_MIN, ETA_MAX, eta)
}

// Whether every entry lies within the limits of an index.
fn all_indices(spectrum: &DenseSpectrum<'_>) -> bool
    ensures { result ≡ all_within eta_min eta_max spectrum.now.values.now }
{
    spectrum.all_within(ETA_MIN, ETA_MAX)
}

#[tactic(auto, unfolding(crate::specs::Surface::eta_holds))]
fn eta_holds(eta: &DenseSpectrum<'_>) -> bool
    ensures { result ≡ eta_holds eta.now.values.now }
{
    eta.is_table() && all_indices(eta)
}

#[tactic(auto, unfolding(crate::specs::Surface::all_zero))]
fn all_zero(k: &DenseSpectrum<'_>) -> bool
    ensures { result ≡ all_zero k.now.values.now }
{
    k.all_within(0.0, 0.0)
}

#[tactic(auto, unfolding(crate::specs::Surface::k_entries_hold))]
fn k_entries_hold(kind: Kind, k: &DenseSpectrum<'_>) -> bool
    ensures { result ≡ k_entries_hold kind k.now.values.now }
{
    match kind {
        Kind::Metal => {
            // first what metal mostly has
            k.all_within(K_MIN, K_MAX) || all_zero(k)
        }
        Kind::Glass => all_zero(k),
    }
}

// A table of as many entries as eta has, all within their limits. Of what is no table no entry is read.
#[tactic(auto, unfolding(crate::specs::Surface::k_holds))]
fn k_holds(kind: Kind, eta: &DenseSpectrum<'_>, k: &DenseSpectrum<'_>) -> bool
    ensures { result ≡ k_holds kind eta.now.values.now k.now.values.now }
{
    k.is_table() && eta.one_spacing(k) && k_entries_hold(kind, k)
}

// On glass a table of as many entries as eta has, all within eta's limits; metal has no outer spectrum. Of what is no
// table no entry is read.
#[tactic(auto, unfolding(crate::specs::Surface::outer_holds))]
fn outer_holds(kind: Kind, eta: &DenseSpectrum<'_>, outer: &DenseSpectrum<'_>) -> bool
    ensures { result ≡ outer_holds kind eta.now.values.now (medium outer.now.values.now) }
{
    match kind {
        Kind::Metal => true,
        Kind::Glass => { outer.is_table() && eta.one_spacing(outer) && all_indices(outer) }
    }
}

// What a surface holds beside its roughness.
#[tactic(auto, unfolding(crate::specs::Check::check_spectra, numbers::specs::Refusal::number))]
pub fn check_spectra(kind: Kind, spectra: &Spectra<'_>) -> Check
    ensures { verdict result ≡ check_spectra kind spectra.now.eta spectra.now.k (medium spectra.now.outer) }
{
    refuse(Refusal::Eta, eta_holds(&spectra.eta))?;
    refuse(Refusal::K, k_holds(kind, &spectra.eta, &spectra.k))?;
    refuse(
        Refusal::Outer,
        outer_holds(kind, &spectra.eta, &spectra.outer),
    )
}

// The fields of a surface.
#[tactic(auto, unfolding(crate::specs::Check::check_surface, numbers::specs::Refusal::number))]
pub fn check_surface(m: &Microsurface<'_>) -> Check
    ensures { verdict result ≡ check_surface m.now }
{
    refuse(Refusal::Roughness, roughness_holds(m.surface.roughness))?;
    check_spectra(m.surface.kind, &m.spectra)
}

// The index of a lone bend.
#[tactic(auto, unfolding(crate::specs::Check::check_eta, numbers::specs::Refusal::number))]
pub fn check_eta(eta: f64) -> Check
    ensures { verdict result ≡ check_eta eta }
{
    refuse(Refusal::Eta, is_eta(eta))
}

// Wavelengths as in a lookup: 0 is accepted.
#[tactic(auto, unfolding(crate::specs::Check::check_lookups, numbers::specs::Refusal::number))]
pub fn check_lookups(lambda: Color) -> Check
    ensures { verdict result ≡ check_lookups lambda }
{
    refuse(
        Refusal::Wavelength,
        lambda.all(dense_spectrum::is_lookup_wavelength),
    )
}

// A random number: from 0 to below 1.
#[tactic(auto, unfolding(crate::specs::Check::check_random, crate::specs::Check::is_random, numbers::specs::Refusal::number))]
pub fn check_random(u: f64) -> Check
    ensures { verdict result ≡ check_random u }
{
    refuse(Refusal::RandomNumber, (0.0 <= u) & (u < 1.0))
}

fn is_circle_pair(c: f64, s: f64) -> bool
    ensures { result ≡ is_circle_pair c s }
{
    float::within(-1.0, 1.0, c)
        & float::within(-1.0, 1.0, s)
        & float::within(0.999999999999, 1.000000000001, c * c + s * s)
}

// The cosine and the sine of an angle.
#[tactic(auto, unfolding(crate::specs::Check::check_circle_pair, numbers::specs::Refusal::number))]
pub fn check_circle_pair(c: f64, s: f64) -> Check
    ensures { verdict result ≡ check_circle_pair c s }
{
    refuse(Refusal::CirclePair, is_circle_pair(c, s))
}
