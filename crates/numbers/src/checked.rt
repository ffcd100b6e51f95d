// The functions of this crate that refuse, by document 01's numbers ("At the counter"): a lookup, a
// change of basis, an angle. Those that they stand over take any floats and refuse none.
ghost use Rattle.std.specs.Prelude.{◌≡◌};
ghost use Rattle.numbers.specs.SphericalUtils.{cos_phi, sin_phi, cos_theta, sin_theta, tan_theta, cos2_theta, sin2_theta, tan2_theta};
ghost use Rattle.numbers.specs.Onb.{basis};
ghost use Rattle.numbers.specs.Refusal.{verdict, answer};
ghost use Rattle.numbers.specs.Checked.{check_direction, table_holds, check_table, check_wavelength, check_lookup, of_direction, lookup, change_to_local, change_to_world, hemisphere};

use crate::dense_spectrum::DenseSpectrum;
use crate::onb::Onb;
use crate::refusal::{Check, Refusal, refuse};
use crate::vec3::Vec3;
use crate::{dense_spectrum, spherical_utils};

// ---- checks of one argument
#[tactic(auto, unfolding(crate::specs::Checked::check_direction, crate::specs::Refusal::number))]
pub fn check_direction(w: Vec3) -> Check
    ensures { verdict result ≡ check_direction w }
{
    refuse(Refusal::Direction, w.is_direction())
}

// The values of a lone lookup: any finite ones.
#[tactic(auto, unfolding(crate::specs::Checked::table_holds))]
fn table_holds(values: &DenseSpectrum<'_>) -> bool
    ensures { result ≡ table_holds values.now.values.now }
{
    values.is_table() && values.all_finite()
}

#[tactic(auto, unfolding(crate::specs::Checked::check_table, crate::specs::Refusal::number))]
fn check_table(values: &DenseSpectrum<'_>) -> Check
    ensures { verdict result ≡ check_table values.now.values.now }
{
    refuse(Refusal::Eta, table_holds(values))
}

// A wavelength that is not ended.
#[tactic(auto, unfolding(crate::specs::Checked::check_wavelength, crate::specs::Refusal::number))]
pub fn check_wavelength(lambda: f64) -> Check
    ensures { verdict result ≡ check_wavelength lambda }
{
    refuse(Refusal::Wavelength, dense_spectrum::is_wavelength(lambda))
}

// A wavelength as in a lookup: 0 is accepted.
#[tactic(auto, unfolding(crate::specs::Checked::check_lookup, crate::specs::Refusal::number))]
pub fn check_lookup(lambda: f64) -> Check
    ensures { verdict result ≡ check_lookup lambda }
{
    refuse(
        Refusal::Wavelength,
        dense_spectrum::is_lookup_wavelength(lambda),
    )
}

// ---- the calls
// A spectrum's value at a wavelength, of which 0 is one that was ended.
#[tactic(auto, unfolding(crate::specs::Checked::lookup))]
pub fn lookup(values: &DenseSpectrum<'_>, lambda: f64) -> Result<f64, Refusal>
    ensures { answer result ≡ lookup values.now.values.now lambda }
{
    check_table(values)?;
    check_lookup(lambda)?;
    Ok(values.sample_one(lambda))
}

// The basis around a normal.
pub fn onb(normal: Vec3) -> Result<Onb, Refusal>
    ensures { answer result ≡ of_direction basis normal }
{
    check_direction(normal)?;
    Ok(Onb::new(normal))
}

// A direction of the world in the basis around a normal.
#[tactic(auto, unfolding(crate::specs::Checked::change_to_local))]
pub fn to_local(v: Vec3, normal: Vec3) -> Result<Vec3, Refusal>
    ensures { answer result ≡ change_to_local v normal }
{
    check_direction(v)?;
    check_direction(normal)?;
    Ok(Onb::new(normal).to_local(v))
}

// A direction in the basis around a normal, in the world.
#[tactic(auto, unfolding(crate::specs::Checked::change_to_world))]
pub fn to_world(v: Vec3, normal: Vec3) -> Result<Vec3, Refusal>
    ensures { answer result ≡ change_to_world v normal }
{
    check_direction(v)?;
    check_direction(normal)?;
    Ok(Onb::new(normal).to_world(v))
}

#[tactic(auto, unfolding(crate::specs::Checked::hemisphere))]
pub fn same_hemisphere(v: Vec3, u: Vec3) -> Result<bool, Refusal>
    ensures { answer result ≡ hemisphere v u }
{
    check_direction(v)?;
    check_direction(u)?;
    Ok(spherical_utils::same_hemisphere(v, u))
}

// The angles. By hand: each is its check and its function, and one over closures would take as many lines.
pub fn cos_phi(w: Vec3) -> Result<f64, Refusal>
    ensures { answer result ≡ of_direction cos_phi w }
{
    check_direction(w)?;
    Ok(spherical_utils::cos_phi(w))
}

pub fn sin_phi(w: Vec3) -> Result<f64, Refusal>
    ensures { answer result ≡ of_direction sin_phi w }
{
    check_direction(w)?;
    Ok(spherical_utils::sin_phi(w))
}

pub fn cos_theta(w: Vec3) -> Result<f64, Refusal>
    ensures { answer result ≡ of_direction cos_theta w }
{
    check_direction(w)?;
    Ok(spherical_utils::cos_theta(w))
}

pub fn sin_theta(w: Vec3) -> Result<f64, Refusal>
    ensures { answer result ≡ of_direction sin_theta w }
{
    check_direction(w)?;
    Ok(spherical_utils::sin_theta(w))
}

pub fn tan_theta(w: Vec3) -> Result<f64, Refusal>
    ensures { answer result ≡ of_direction tan_theta w }
{
    check_direction(w)?;
    Ok(spherical_utils::tan_theta(w))
}

pub fn cos2_theta(w: Vec3) -> Result<f64, Refusal>
    ensures { answer result ≡ of_direction cos2_theta w }
{
    check_direction(w)?;
    Ok(spherical_utils::cos2_theta(w))
}

pub fn sin2_theta(w: Vec3) -> Result<f64, Refusal>
    ensures { answer result ≡ of_direction sin2_theta w }
{
    check_direction(w)?;
    Ok(spherical_utils::sin2_theta(w))
}

pub fn tan2_theta(w: Vec3) -> Result<f64, Refusal>
    ensures { answer result ≡ of_direction tan2_theta w }
{
    check_direction(w)?;
    Ok(spherical_utils::tan2_theta(w))
}
