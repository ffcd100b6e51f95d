// A bounce, from a world direction to the powers that are left: lumo's `BSDF::sample`
// (src/tracer/bsdf.rs) with the density and the weights of what it sampled.
ghost use Rattle.std.specs.Prelude.{◌≡◌, cond};
ghost use Rattle.floats.specs.Float.{f0};
ghost use Rattle.optics.specs.Color.{color};
ghost use Rattle.numbers.specs.Refusal.{answer, given, ◌▷◌};
ghost use Rattle.numbers.specs.DenseSpectrum.{step_of};
ghost use Rattle.optics.specs.Known.{known_on_glass};
ghost use Rattle.optics.specs.Surface.{Outside, beside};
ghost use Rattle.optics.specs.declared.microfacet.Kind.TheVariants.{Metal, Glass};
ghost use Rattle.path.specs.Path.{path, weighed, terminate};
ghost use Rattle.path.specs.Bounce.{check_bounce};
ghost use Rattle.path.specs.Known.{found_on, entries};
ghost use Rattle.path.specs.Answer.{outcome, lost, density_of, on_surface, bounce};

use crate::facet::Facet;
use crate::prepared::{Found, Prepared};
use crate::records::{Bounce, Bounced, Light, Path, Shares};
use crate::{check, wavelength, weight};
use floats::float;
use numbers::onb::Onb;
use numbers::refusal::Refusal;
use optics::bxdf::{Sample, conductor, dielectric};
use optics::color::Color;
use optics::microfacet;
use optics::microfacet::{Ggx, Known, Microsurface, Snell};

// A bounce of `path` on a surface.
pub fn bounce(path: Path, m: &Microsurface<'_>, b: Bounce) -> Bounced
    ensures { outcome result ≡ bounce path m.now b }
{
    Prepared::new(m).bounce(path, b)
}

impl Prepared<'_, '_> {
    // A bounce on a surface that was prepared, so that many bounces prepare it once.
    pub(crate) fn bounce(&self, path: Path, b: Bounce) -> Bounced
        ensures { outcome result ≡ bounce path self.now.surface.now b }
    {
        match self.checked(path, b) {
            Err(why) => Bounced {
                path,
                light: Err(why),
            },
            Ok(Found::Metal { step }) => on_metal(step, path, self.surface, b),
            Ok(Found::Glass(known)) => on_glass(known, path, self.surface, b),
        }
    }

    // What is known of the surface, if the bounce is accepted.
    fn checked(&self, path: Path, b: Bounce) -> Result<Found, Refusal>
        ensures { answer result ≡ (check_bounce path self.now.surface.now b ▷ given (found_on self.now.surface.now.kind self.now.surface.now.eta self.now.surface.now.outside)) }
    {
        let found = self.found?;
        check::check_rest(path, b)?;
        Ok(found)
    }
}

// Metal reflects light, at its front alone, whatever lies outside.
fn on_metal(step: f64, path: Path, m: &Microsurface<'_>, b: Bounce) -> Bounced
    requires { (m.now.kind ≡ Metal) × (step ≡ step_of m.now.eta) }
    ensures { (outside : Outside) → outcome result ≡ on_surface path (beside outside m.now) b }
{
    if b.backface {
        return lost(path, None);
    }

    let uvw = Onb::new(b.normal);
    let wo = uvw.to_local(b.wo);
    let mfd = Ggx::new(m.surface.roughness);
    let wh = conductor::normal(wo, mfd, b.disk_point());
    // the roots of Λ(wo) wait for no other: they are worked while those of the normal are waited for
    let facet = Facet::on_metal(mfd, wo, wh);
    let Ok(Sample { wi, .. }) = conductor::sample_from(wo, mfd, wh) else {
        return lost(path, None);
    };

    let seen = facet.seen_on_metal(wi);
    let f = microfacet::f_on_metal(step, &m.spectra, wo, wh, path.lambda);
    let filter = weight::metal_filter(b.ks, f);
    Bounced {
        path: path.weighed(weight::weights(path.lambda, filter, seen.q)),
        light: Ok(Light::Sent {
            reflection: true,
            wi: uvw.to_world(wi),
            density: density_of(seen.pdf),
            shares: None,
        }),
    }
}

// Glass reflects light or passes it, by its Fresnel term at the leading wavelength.
fn on_glass(known: Known, path: Path, m: &Microsurface<'_>, b: Bounce) -> Bounced
    requires { (m.now.kind ≡ Glass) × (known ≡ known_on_glass m.now.eta (entries m.now.outside)) }
    ensures { outcome result ≡ on_surface path m.now b }
{
    // wavelengths end before anything reads them
    let left = Path {
        lambda: left_on_glass(known.eta_constant, path.lambda),
        ..path
    };

    let leading = wavelength::leading_sample(left.lambda);
    let at = known.reading.constants_at(&m.spectra, leading);

    let uvw = Onb::new(b.normal);
    let wo = uvw.to_local(b.wo);
    let mfd = Ggx::new(m.surface.roughness);
    let wh = dielectric::normal(wo, mfd, at.eta, b.disk_point());
    // the roots of Λ(wo) wait for no other: they are worked while those of the normal are waited for
    let facet = Facet::on_glass(mfd, at.eta, wo, wh);
    // the share that is reflected and the bend read the same root, that of Snell's law
    let snell = Snell::new(facet.wo_dot_wh, at.eta);
    let f = at.fresnel_from(snell);
    let shares = Some(Shares {
        reflected: f,
        passed: 1.0 - f,
    });
    let Ok(Sample { wi, reflection }) = dielectric::sample_from(snell, wo, wh, f, b.u) else {
        return lost(left, shares);
    };

    let seen = facet.seen_on_glass(at, wi, reflection);
    let filter = weight::glass_filter(reflection, b.ks, b.tf);
    Bounced {
        path: left.weighed(weight::weights(left.lambda, filter, seen.q)),
        light: Ok(Light::Sent {
            reflection,
            wi: uvw.to_world(wi),
            density: density_of(seen.pdf),
            shares,
        }),
    }
}

// The wavelengths that are left on glass: all but the leading one end where it disperses light, eta or what lies
// outside not being constant.
fn left_on_glass(constant: bool, lambda: Color) -> Color
    ensures { result ≡ cond «constant» lambda (terminate lambda) }
{
    if constant {
        lambda
    } else {
        wavelength::terminate(lambda)
    }
}

// No power is left of light that is lost.
#[tactic(auto, unfolding(crate::specs::Answer::outcome))]
fn lost(left: Path, shares: Option<Shares>) -> Bounced
    ensures { outcome result ≡ lost shares (path left.lambda (weighed left.power (color f0 f0 f0 f0))) }
{
    Bounced {
        path: left.weighed(weight::LOST),
        light: Ok(Light::Lost { shares }),
    }
}

// A density is given where it is finite.
#[tactic(auto, unfolding(crate::specs::Answer::density_of))]
fn density_of(density: f64) -> Option<f64>
    ensures { result ≡ density_of density }
{
    float::is_finite(density).then_some(density)
}
