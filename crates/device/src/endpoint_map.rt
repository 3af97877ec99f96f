// The endpoints of a record by place.
ghost use Rattle.std.specs.Prelude.{◌≡◌, ◌≤◌};
ghost use Rattle.record_endpoint.specs.Order.{PLACES};
ghost use Rattle.device.specs.Device.{endpoint_map_in};

use super::record::Device;
use record_endpoint::EndpointMap;

pub fn endpoint_map_in(d: &Device) -> EndpointMap
    requires { d.now.ep_count ≤ PLACES }
    ensures { result ≡ endpoint_map_in d.now }
{
    record_endpoint::endpoint_map_of(&d.eps[..d.ep_count], &d.ep_interfaces[..d.ep_count])
}
