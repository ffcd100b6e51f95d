// Spectra at equal steps of wavelength.
ghost use Rattle.std.specs.Prelude.{◌≡◌};
ghost use Rattle.numbers.specs.DenseSpectrum.{all_finite, all_within, is_constant, is_lookup_wavelength, is_wavelength, sample_one};

use numbers::dense_spectrum;
use numbers::dense_spectrum::DenseSpectrum;

#[unsafe(no_mangle)]
pub extern "C" fn numbers_dense_spectrum_sample_one(values: &[f64], lambda: f64) -> f64
    ensures { result ≡ sample_one values.now lambda }
{
    DenseSpectrum::new(values).sample_one(lambda)
}

#[unsafe(no_mangle)]
pub extern "C" fn numbers_dense_spectrum_is_constant(values: &[f64]) -> bool
    ensures { result ≡ is_constant values.now }
{
    DenseSpectrum::new(values).is_constant()
}

#[unsafe(no_mangle)]
pub extern "C" fn numbers_dense_spectrum_all_within(values: &[f64], lo: f64, hi: f64) -> bool
    ensures { result ≡ all_within lo hi values.now }
{
    DenseSpectrum::new(values).all_within(lo, hi)
}

#[unsafe(no_mangle)]
pub extern "C" fn numbers_dense_spectrum_all_finite(values: &[f64]) -> bool
    ensures { result ≡ all_finite values.now }
{
    DenseSpectrum::new(values).all_finite()
}

#[unsafe(no_mangle)]
pub extern "C" fn numbers_dense_spectrum_is_wavelength(lambda: f64) -> bool
    ensures { result ≡ is_wavelength lambda }
{
    dense_spectrum::is_wavelength(lambda)
}

#[unsafe(no_mangle)]
pub extern "C" fn numbers_dense_spectrum_is_lookup_wavelength(lambda: f64) -> bool
    ensures { result ≡ is_lookup_wavelength lambda }
{
    dense_spectrum::is_lookup_wavelength(lambda)
}
