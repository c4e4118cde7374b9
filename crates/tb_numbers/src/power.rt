// Powers of ten.
ghost use Rattle.std.specs.Prelude.{◌≡◌, ◌^◌, ◌<◌, ◌≤◌};

// Ten to a small power.
#[tactic(auto, using(crate::proofs::Powers::ten_positive, crate::proofs::Powers::ten_at_most))]
pub(crate) fn power_of_ten(places: u8) -> u64
    requires { places ≤ 18 }
    ensures value { result ≡ 10 ^ places }
    ensures positive { 0 < result }
    ensures small { result ≤ 10 ^ 18 }
{
    10u64.pow(u32::from(places))
}
