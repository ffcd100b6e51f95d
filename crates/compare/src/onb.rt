// Orthonormal bases.
ghost use Rattle.std.specs.Prelude.{◌≡◌};
ghost use Rattle.numbers.specs.Onb.{basis, to_local, to_world};

use numbers::onb::Onb;
use numbers::vec3::Vec3;

#[unsafe(no_mangle)]
pub extern "C" fn numbers_onb_new(w: Vec3) -> Onb
    ensures { result ≡ basis w }
{
    Onb::new(w)
}

#[unsafe(no_mangle)]
pub extern "C" fn numbers_onb_to_world(lhs: Onb, v: Vec3) -> Vec3
    ensures { result ≡ to_world lhs v }
{
    lhs.to_world(v)
}

#[unsafe(no_mangle)]
pub extern "C" fn numbers_onb_to_local(lhs: Onb, v: Vec3) -> Vec3
    ensures { result ≡ to_local lhs v }
{
    lhs.to_local(v)
}
