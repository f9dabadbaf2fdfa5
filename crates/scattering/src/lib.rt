// How light scatters below a surface and leaves it: the Fresnel term of reflection.rs, the phase
// function of medium.rs, the moments and beam diffusion of bssrdf.rs, and the spectrum (specification,
// section 8). Each function that the Rust has too is total, and its contract is an equation with a
// definition of specs/.
#![tactic(auto)]

pub mod checks;
pub mod clamp;
pub mod exitance;
pub mod fresnel;
pub mod moments;
pub mod multiple;
pub mod phase;
pub mod samples;
pub mod single;
pub mod spectrum;

pub use clamp::clamp_t;
pub use exitance::sw;
pub use fresnel::fr_dielectric;
pub use moments::{fresnel_moment1, fresnel_moment2};
pub use multiple::{beam_diffusion_ms, beam_diffusion_ms_with};
pub use phase::phase_hg;
pub use samples::{N_SAMPLES, SampleLogs};
pub use single::{beam_diffusion_ss, beam_diffusion_ss_with};
pub use spectrum::{RGBEnum, Spectrum, UnknownChannel};
