// The weight of a bounce at each wavelength of the path: ours (document 01, "Bounce").
ghost use Rattle.std.specs.Prelude.{◌≡◌, cond};
ghost use Rattle.path.specs.Path.{each2};
ghost use Rattle.path.specs.Bounce.{metal_share, metal_filter, weight, weights_of};

use crate::wavelength::TERMINATED;
use optics::color::Color;

// The weights of light that is lost.
pub(crate) const LOST: Color = Color::ZERO;

// The share of light that metal reflects, from its Fresnel term `f`: rounding may take that above 1.
fn metal_share(f: f64) -> f64
    ensures { result ≡ metal_share f }
{
    if f.is_nan() {
        0.0
    } else if f <= 1.0 {
        f
    } else {
        1.0
    }
}

// The filter of light that metal reflects, whose Fresnel terms are `f`.
#[tactic(auto, unfolding(crate::specs::Bounce::metal_filter))]
pub(crate) fn metal_filter(ks: Color, f: Color) -> Color
    ensures { result ≡ each2 metal_filter ks f }
{
    ks.zip_with(f, |ks, f| ks * metal_share(f))
}

// The filter of light that glass reflects or passes: that of the branch.
pub(crate) fn glass_filter(reflection: bool, ks: Color, tf: Color) -> Color
    ensures { result ≡ each2 (cond reflection) ks tf }
{
    if reflection { ks } else { tf }
}

// The weight at one wavelength: an ended one weighs 0.
fn weight(wl: f64, filter: f64, q: f64) -> f64
    ensures { result ≡ weight wl filter q }
{
    if wl == TERMINATED { 0.0 } else { filter * q }
}

// The weights at four wavelengths, from the filter of the branch that was taken.
#[tactic(auto, unfolding(crate::specs::Bounce::weights_of))]
pub(crate) fn weights(lambda: Color, filter: Color, q: f64) -> Color
    ensures { result ≡ weights_of lambda filter q }
{
    lambda.zip_with(filter, move |wl, filter| weight(wl, filter, q))
}
