// The Fresnel reflectance of reflection.rs, at one cosine and at each of a list.
#![tactic(auto, unfolding(crate::specs::Fresnel::swapped, crate::specs::Fresnel::complement, crate::specs::Fresnel::snell, crate::specs::Fresnel::sin_theta_i, crate::specs::Fresnel::sin_theta_t, crate::specs::Fresnel::cos_theta_t, crate::specs::Fresnel::reflectance_at, crate::specs::Fresnel::reflected_at, crate::specs::Fresnel::reflected, crate::specs::Fresnel::fr_dielectric))]

ghost use Rattle.std.specs.Prelude.{◌≡◌, map, Float};
ghost use Rattle.scattering.specs.Fresnel as Fresnel;

use crate::clamp::clamp_t;
use crate::samples::N_SAMPLES;
use elementary::lists::{fill_by, map_into, zip_into};

// A boundary between two dielectrics, as a ray meets it: the cosine of its angle, which is not
// negative, and the indices of refraction on its side and on the other.
#[derive(Clone, Copy)]
pub struct Boundary {
    pub cos_theta_i: f32,
    pub eta_i: f32,
    pub eta_t: f32,
}

// The boundary by a cosine that is negative, or a zero, where the ray comes from the side of
// `eta_t`.
fn swapped(cos_theta_i: f32, eta_i: f32, eta_t: f32) -> Boundary
    ensures { result ≡ Fresnel.swapped cos_theta_i eta_i eta_t }
{
    let c = clamp_t(cos_theta_i, -1.0, 1.0);
    if c > 0.0 {
        Boundary {
            cos_theta_i: c,
            eta_i,
            eta_t,
        }
    } else {
        Boundary {
            cos_theta_i: elementary::abs(c),
            eta_i: eta_t,
            eta_t: eta_i,
        }
    }
}

// 1 - x^2, and +0 where that is not above zero.
fn complement(x: f32) -> f32
    ensures { result ≡ Fresnel.complement x }
{
    elementary::max0(1.0 - x * x)
}

// Snell's law.
fn snell(b: Boundary, sin_theta_i: f32) -> f32
    ensures { result ≡ Fresnel.snell b sin_theta_i }
{
    b.eta_i / b.eta_t * sin_theta_i
}

// What is reflected, where not all is.
fn reflectance_at(b: Boundary, cos_theta_t: f32) -> f32
    ensures { result ≡ Fresnel.reflectance_at b cos_theta_t }
{
    let c = b.cos_theta_i;
    let eta_i = b.eta_i;
    let eta_t = b.eta_t;
    let r_parl = (eta_t * c - eta_i * cos_theta_t) / (eta_t * c + eta_i * cos_theta_t);
    let r_perp = (eta_i * c - eta_t * cos_theta_t) / (eta_i * c + eta_t * cos_theta_t);
    (r_parl * r_parl + r_perp * r_perp) / 2.0
}

// What is reflected, by the sine and the cosine on the other side. Both cases are worked out and the
// test picks one, so that the compiler works at several at once.
fn reflected_at(b: Boundary, sin_theta_t: f32, cos_theta_t: f32) -> f32
    ensures { result ≡ Fresnel.reflected_at b sin_theta_t cos_theta_t }
{
    let part = reflectance_at(b, cos_theta_t);
    if sin_theta_t >= 1.0 { 1.0 } else { part }
}

// How much of the light is reflected at the boundary between two dielectrics. Of one cosine what is not
// asked for is not worked out.
pub fn fr_dielectric(cos_theta_i: f32, eta_i: f32, eta_t: f32) -> f32
    ensures { result ≡ Fresnel.fr_dielectric cos_theta_i eta_i eta_t }
{
    let b = swapped(cos_theta_i, eta_i, eta_t);
    let sine = snell(b, elementary::sqrt(complement(b.cos_theta_i)));
    if sine >= 1.0 {
        return 1.0;
    }
    reflectance_at(b, elementary::sqrt(complement(sine)))
}

// `fr_dielectric` at the cosine of each sample. The roots of a list are taken together, by the
// machine: with a call of `fr_dielectric` for each, `beam_diffusion_ss` takes 1.75 times as long over
// a row of radii.
pub fn fresnels(cosines: &[f32; N_SAMPLES], eta_i: f32, eta_t: f32, out: &mut [f32; N_SAMPLES])
    ensures { out.new ≡ map (λ (c : Float). Fresnel.fr_dielectric c eta_i eta_t) cosines.now }
{
    let mut sines = [0.0f32; N_SAMPLES];
    map_into(cosines, &mut sines, |c| {
        complement(swapped(c, eta_i, eta_t).cos_theta_i)
    });
    elementary::sqrt_each(&mut sines);
    let mut refracted = [0.0f32; N_SAMPLES];
    zip_into(cosines, &sines, &mut refracted, |c, sine| {
        complement(snell(swapped(c, eta_i, eta_t), sine))
    });
    elementary::sqrt_each(&mut refracted);
    fill_by(out, |k| {
        let b = swapped(cosines[k], eta_i, eta_t);
        reflected_at(b, snell(b, sines[k]), refracted[k])
    })
}
