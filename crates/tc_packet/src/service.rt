//! The streams of a channel: two services, each with 64 MAPs.

ghost use Rattle.std.specs.Prelude.{◌≡◌, ◌<◌};
ghost use Rattle.tc_packet.specs.Reassembly.{place_of};

/// The service by which a data field came: in a Type-AD frame or in a Type-BD frame.
#[derive(Clone, Copy, Debug, PartialEq, Eq)]
pub enum Service {
    Ad,
    Bd,
}

/// The largest number of octets in a run or a unit.
pub const LARGEST_UNIT: usize = 65_542;

/// The number of MAPs.
pub(crate) const MAPS: usize = 64;

/// The number of streams: two services of 64 MAPs.
pub(crate) const STREAMS: usize = 128;

/// Returns the place of a stream's open run. The places of AD come first, then those of BD. Each service's places are
/// in the order of the MAP ids.
pub(crate) fn place(service: Service, map: u8) -> usize
    requires { map < 64 }
    ensures value { result ≡ place_of service map }
    ensures within { result < STREAMS }
{
    match service {
        Service::Ad => map as usize,
        Service::Bd => 64 + map as usize,
    }
}
