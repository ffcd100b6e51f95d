// The square root, and its digits by themselves: through the root few values reach them.
ghost use Rattle.std.specs.Prelude.{◌≡◌};
ghost use Rattle.floats.specs.SquareRoot.{sqrt};

use floats::square_root;

#[unsafe(no_mangle)]
pub extern "C" fn numbers_sqrt(x: f64) -> f64
    ensures { result ≡ sqrt x }
{
    square_root::sqrt(x)
}

#[unsafe(no_mangle)]
pub extern "C" fn numbers_sqrt_by_digits(x: f64) -> f64
    ensures { result ≡ sqrt x }
{
    square_root::by_digits(x)
}
