// The four wavelengths of a path: lumo's src/tracer/color/wavelength.rs.
ghost use Rattle.std.specs.Prelude.{◌≡◌};
ghost use Rattle.path.specs.Path.{is_start, leading, terminate, is_path_lambda};

use numbers::dense_spectrum;
pub use numbers::dense_spectrum::TERMINATED;
use optics::color::Color;

// The wavelength of the leading sample, which is never ended.
#[tactic(auto, unfolding(crate::specs::Path::leading))]
pub fn leading_sample(lambda: Color) -> f64
    ensures { result ≡ leading lambda }
{
    lambda.s0
}

// Terminate all but the leading sample.
#[tactic(auto, unfolding(crate::specs::Path::terminate))]
pub fn terminate(lambda: Color) -> Color
    ensures { result ≡ terminate lambda }
{
    Color {
        s0: leading_sample(lambda),
        s1: TERMINATED,
        s2: TERMINATED,
        s3: TERMINATED,
    }
}

// Whether a path may start with the wavelengths.
#[tactic(auto, unfolding(crate::specs::Path::is_start))]
pub fn is_start(lambda: Color) -> bool
    ensures { result ≡ is_start lambda }
{
    lambda.all(dense_spectrum::is_wavelength)
}

// Whether a path may have come to the wavelengths: all but the leading one may be ended.
#[tactic(auto, unfolding(crate::specs::Path::is_path_lambda, crate::specs::Path::leading))]
pub fn is_path_lambda(lambda: Color) -> bool
    ensures { result ≡ is_path_lambda lambda }
{
    dense_spectrum::is_wavelength(leading_sample(lambda))
        & dense_spectrum::is_lookup_wavelength(lambda.s1)
        & dense_spectrum::is_lookup_wavelength(lambda.s2)
        & dense_spectrum::is_lookup_wavelength(lambda.s3)
}
