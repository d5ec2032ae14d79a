// The functions of float32 for C, to test and to time them.
#![tactic(auto)]

ghost use Rattle.std.specs.Prelude.{◌≡◌};
ghost use Rattle.float32.specs.Libm.{fabs, fmax};
ghost use Rattle.float32.specs.Sqrt.{square_root};

#[unsafe(no_mangle)]
pub extern "C" fn float32_sqrtf(x: f32) -> f32
    ensures { result ≡ square_root x }
{
    float32::sqrtf(x)
}

#[unsafe(no_mangle)]
pub extern "C" fn float32_fabsf(x: f32) -> f32
    ensures { result ≡ fabs x }
{
    float32::fabsf(x)
}

#[unsafe(no_mangle)]
pub extern "C" fn float32_fmaxf(x: f32, y: f32) -> f32
    ensures { result ≡ fmax x y }
{
    float32::fmaxf(x, y)
}
