// `beam_diffusion_ms` of bssrdf.rs: light that is scattered many times. As in `single`, each step of
// the formula is done for all samples before the next.
#![tactic(auto)]

ghost use Rattle.std.specs.Prelude.{◌≡◌};
ghost use Rattle.scattering.specs.Multiple as Multiple;

use crate::moments::{fresnel_moment1, fresnel_moment2};
use crate::samples::{N_SAMPLES, SAMPLES, SampleLogs, distances, exponentials};
use elementary::INV_4_PI;
use elementary::lists::{map_into, sum_by, zip_into};

// What does not depend on the sample: the radius, the reduced extinction coefficient and albedo, the
// diffusion coefficient, the effective transport coefficient, the extrapolation distance, and the
// two scale factors of the exitance.
#[derive(Clone, Copy)]
pub struct Dipole {
    pub r: f32,
    pub sigmap_t: f32,
    pub rhop: f32,
    pub d_g: f32,
    pub sigma_tr: f32,
    pub ze: f32,
    pub c_phi: f32,
    pub c_e: f32,
}

#[tactic(auto, unfolding(crate::specs::Multiple::dipole, crate::specs::Multiple::ms_term))]
impl Dipole {
    // By the arguments of `beam_diffusion_ms`.
    fn new(sigma_s: f32, sigma_a: f32, g: f32, eta: f32, r: f32) -> Dipole
        ensures { result ≡ Multiple.dipole sigma_s sigma_a g eta r }
    {
        let sigmap_s = sigma_s * (1.0 - g);
        let sigmap_t = sigma_a + sigmap_s;
        let d_g = (2.0 * sigma_a + sigmap_s) / (3.0 * sigmap_t * sigmap_t);
        let fm1 = fresnel_moment1(eta);
        let fm2 = fresnel_moment2(eta);
        Dipole {
            r,
            sigmap_t,
            rhop: sigmap_s / sigmap_t,
            d_g,
            sigma_tr: elementary::sqrt(sigma_a / d_g),
            ze: -2.0 * d_g * (1.0 + 3.0 * fm2) / (1.0 - 2.0 * fm1),
            c_phi: 0.25 * (1.0 - 2.0 * fm1),
            c_e: 0.5 * (1.0 - 3.0 * fm2),
        }
    }

    // What a sample adds, by its depths, distances and exponentials.
    fn term(self, zr: f32, zv: f32, dr: f32, dv: f32, er: f32, ev: f32, ek: f32) -> f32
        ensures { result ≡ Multiple.ms_term self zr zv dr dv er ev ek }
    {
        let sigma_tr = self.sigma_tr;
        let phi_d = INV_4_PI / self.d_g * (er / dr - ev / dv);
        let ed_n = INV_4_PI
            * (zr * (1.0 + sigma_tr * dr) * er / (dr * dr * dr)
                - zv * (1.0 + sigma_tr * dv) * ev / (dv * dv * dv));
        let e = phi_d * self.c_phi + ed_n * self.c_e;
        let kappa = 1.0 - ek;
        kappa * self.rhop * self.rhop * e
    }
}

// The same as `beam_diffusion_ms`, by its arguments, for a caller that has the logarithms.
pub fn beam_diffusion_ms_with(
    sigma_s: f32,
    sigma_a: f32,
    g: f32,
    eta: f32,
    r: f32,
    logs: &SampleLogs,
) -> f32
    ensures { result ≡ Multiple.beam_diffusion_ms sigma_s sigma_a g eta r }
{
    let p = Dipole::new(sigma_s, sigma_a, g, eta, r);
    let mut zr = [0.0f32; N_SAMPLES];
    map_into(&logs.values, &mut zr, |l| -l / p.sigmap_t);
    let mut zv = [0.0f32; N_SAMPLES];
    map_into(&zr, &mut zv, |z| -z + 2.0 * p.ze);
    let mut dr = [0.0f32; N_SAMPLES];
    distances(p.r, &zr, &mut dr);
    let mut dv = [0.0f32; N_SAMPLES];
    distances(p.r, &zv, &mut dv);
    let mut er = [0.0f32; N_SAMPLES];
    map_into(&dr, &mut er, |d| -p.sigma_tr * d);
    exponentials(&mut er);
    let mut ev = [0.0f32; N_SAMPLES];
    map_into(&dv, &mut ev, |d| -p.sigma_tr * d);
    exponentials(&mut ev);
    let mut ek = [0.0f32; N_SAMPLES];
    zip_into(&dr, &zr, &mut ek, |d, z| -2.0 * p.sigmap_t * (d + z));
    exponentials(&mut ek);
    sum_by(N_SAMPLES, |k| {
        p.term(zr[k], zv[k], dr[k], dv[k], er[k], ev[k], ek[k])
    }) / SAMPLES
}

// The light that leaves at the distance r from a beam after it is scattered many times, by the
// coefficients of scattering and absorption, the phase function's g and the index of refraction:
// the Rust's arguments.
pub fn beam_diffusion_ms(sigma_s: f32, sigma_a: f32, g: f32, eta: f32, r: f32) -> f32
    ensures { result ≡ Multiple.beam_diffusion_ms sigma_s sigma_a g eta r }
{
    beam_diffusion_ms_with(sigma_s, sigma_a, g, eta, r, &SampleLogs::new())
}
