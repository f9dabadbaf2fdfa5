// The moments of the Fresnel reflectance (bssrdf.rs), by polynomials.
#![tactic(auto, unfolding(crate::specs::Moments::fresnel_moment1, crate::specs::Moments::fresnel_moment2))]

ghost use Rattle.std.specs.Prelude.{◌≡◌};
ghost use Rattle.scattering.specs.Moments as Moments;

pub fn fresnel_moment1(eta: f32) -> f32
    ensures { result ≡ Moments.fresnel_moment1 eta }
{
    let eta2 = eta * eta;
    let eta3 = eta2 * eta;
    let eta4 = eta3 * eta;
    let eta5 = eta4 * eta;
    if eta < 1.0 {
        0.45966 - 1.73965 * eta + 3.37668 * eta2 - 3.904945 * eta3 + 2.49277 * eta4 - 0.68441 * eta5
    } else {
        -4.61686 + 11.1136 * eta - 10.4646 * eta2 + 5.11455 * eta3 - 1.27198 * eta4 + 0.12746 * eta5
    }
}

pub fn fresnel_moment2(eta: f32) -> f32
    ensures { result ≡ Moments.fresnel_moment2 eta }
{
    let eta2 = eta * eta;
    let eta3 = eta2 * eta;
    let eta4 = eta3 * eta;
    let eta5 = eta4 * eta;
    if eta < 1.0 {
        0.27614 - 0.87350 * eta + 1.12077 * eta2 - 0.65095 * eta3 + 0.07883 * eta4 + 0.04860 * eta5
    } else {
        let r_eta = 1.0 / eta;
        let r_eta2 = r_eta * r_eta;
        let r_eta3 = r_eta2 * r_eta;
        -547.033 + 45.3087 * r_eta3 - 218.725 * r_eta2 + 458.843 * r_eta + 404.557 * eta
            - 189.519 * eta2
            + 54.9327 * eta3
            - 9.00603 * eta4
            + 0.63942 * eta5
    }
}
