//! Fields that are read without memory, alone and one behind the other.
ghost use Rattle.net_image.specs.Form.{Form};
ghost use Rattle.net_image.specs.Reading.{Gives};

use crate::fault::ImageFault;
use crate::read::{byte_at, gateway_at, name_at, prefix_at, route_at, subnet_at, table_at, u32_at};
use crate::read_link::{
    bond_options_at, bridge_options_at, flag_at, kind_at, mac_at, maybe_name_at, policy_at,
    port_options_at, proto_at, rate_at, u16_at, vlan_id_at,
};
use crate::read_net::{maybe_subnet_at, rule_at, target_at};
use net_model::{
    Addr, BondOpts, BridgeOpts, HashPolicy, Kind, LacpRate, Mac, Name, PortOpts, Prefix, Proto,
    Route, Rule, Subnet, TableId, Target, VlanId,
};

/// A field that takes no memory.
pub(crate) trait Field: Sized + Drop {
    ghost form: { Form Self };

    /// The field at the front of bytes, and the bytes behind it.
    fn field_at(bytes: &[u8]) -> Result<(Self, &[u8]), ImageFault>
        ensures { Gives (λ x. (x.0, x.1.now)) result (form.read bytes.now) };
}

// One behind the other.
impl<A: Field, B: Field> Field for (A, B) {
    ghost use Rattle.net_image.specs.Form.{◌⨾◌};

    ghost form = { A.form ⨾ B.form };

    fn field_at(bytes: &[u8]) -> Result<((A, B), &[u8]), ImageFault> {
        match A::field_at(bytes) {
            Ok((first, rest)) => match B::field_at(rest) {
                Ok((second, rest)) => Ok(((first, second), rest)),
                Err(fault) => Err(fault),
            },
            Err(fault) => Err(fault),
        }
    }
}

impl Field for u8 {
    ghost use Rattle.net_image.specs.Form.{byte};

    ghost form = { byte };

    fn field_at(bytes: &[u8]) -> Result<(u8, &[u8]), ImageFault> {
        byte_at(bytes)
    }
}

impl Field for u16 {
    ghost use Rattle.net_image.specs.Form.{number};

    ghost form = { number 2 };

    fn field_at(bytes: &[u8]) -> Result<(u16, &[u8]), ImageFault> {
        u16_at(bytes)
    }
}

impl Field for u32 {
    ghost use Rattle.net_image.specs.Form.{number};

    ghost form = { number 4 };

    fn field_at(bytes: &[u8]) -> Result<(u32, &[u8]), ImageFault> {
        u32_at(bytes)
    }
}

impl Field for bool {
    ghost use Rattle.net_image.specs.Fields.{flag};

    ghost form = { flag };

    fn field_at(bytes: &[u8]) -> Result<(bool, &[u8]), ImageFault> {
        flag_at(bytes)
    }
}

impl Field for TableId {
    ghost use Rattle.net_image.specs.Fields.{table};

    ghost form = { table };

    fn field_at(bytes: &[u8]) -> Result<(TableId, &[u8]), ImageFault> {
        table_at(bytes)
    }
}

impl Field for Name {
    ghost use Rattle.net_image.specs.Fields.{name};

    ghost form = { name };

    fn field_at(bytes: &[u8]) -> Result<(Name, &[u8]), ImageFault> {
        name_at(bytes)
    }
}

impl Field for Subnet {
    ghost use Rattle.net_image.specs.Fields.{subnet};

    ghost form = { subnet };

    fn field_at(bytes: &[u8]) -> Result<(Subnet, &[u8]), ImageFault> {
        subnet_at(bytes)
    }
}

impl Field for Option<Subnet> {
    ghost use Rattle.net_image.specs.Fields.{maybe_subnet};

    ghost form = { maybe_subnet };

    fn field_at(bytes: &[u8]) -> Result<(Option<Subnet>, &[u8]), ImageFault> {
        maybe_subnet_at(bytes)
    }
}

impl Field for Option<Addr> {
    ghost use Rattle.net_image.specs.Fields.{gateway};

    ghost form = { gateway };

    fn field_at(bytes: &[u8]) -> Result<(Option<Addr>, &[u8]), ImageFault> {
        gateway_at(bytes)
    }
}

impl Field for VlanId {
    ghost use Rattle.net_image.specs.Links.{vlan_id};

    ghost form = { vlan_id };

    fn field_at(bytes: &[u8]) -> Result<(VlanId, &[u8]), ImageFault> {
        vlan_id_at(bytes)
    }
}

impl Field for Proto {
    ghost use Rattle.net_image.specs.Links.{proto};

    ghost form = { proto };

    fn field_at(bytes: &[u8]) -> Result<(Proto, &[u8]), ImageFault> {
        proto_at(bytes)
    }
}

impl Field for LacpRate {
    ghost use Rattle.net_image.specs.Links.{rate};

    ghost form = { rate };

    fn field_at(bytes: &[u8]) -> Result<(LacpRate, &[u8]), ImageFault> {
        rate_at(bytes)
    }
}

impl Field for HashPolicy {
    ghost use Rattle.net_image.specs.Links.{policy};

    ghost form = { policy };

    fn field_at(bytes: &[u8]) -> Result<(HashPolicy, &[u8]), ImageFault> {
        policy_at(bytes)
    }
}

impl Field for Target {
    ghost use Rattle.net_image.specs.Image.{target};

    ghost form = { target };

    fn field_at(bytes: &[u8]) -> Result<(Target, &[u8]), ImageFault> {
        target_at(bytes)
    }
}

impl Field for Option<Name> {
    ghost use Rattle.net_image.specs.Fields.{maybe_name};

    ghost form = { maybe_name };

    fn field_at(bytes: &[u8]) -> Result<(Option<Name>, &[u8]), ImageFault> {
        maybe_name_at(bytes)
    }
}

impl Field for Mac {
    ghost use Rattle.net_image.specs.Fields.{mac};

    ghost form = { mac };

    fn field_at(bytes: &[u8]) -> Result<(Mac, &[u8]), ImageFault> {
        mac_at(bytes)
    }
}

impl Field for Kind {
    ghost use Rattle.net_image.specs.Links.{kind};

    ghost form = { kind };

    fn field_at(bytes: &[u8]) -> Result<(Kind, &[u8]), ImageFault> {
        kind_at(bytes)
    }
}

impl Field for BondOpts {
    ghost use Rattle.net_image.specs.Links.{bond_options};

    ghost form = { bond_options };

    fn field_at(bytes: &[u8]) -> Result<(BondOpts, &[u8]), ImageFault> {
        bond_options_at(bytes)
    }
}

impl Field for BridgeOpts {
    ghost use Rattle.net_image.specs.Links.{bridge_options};

    ghost form = { bridge_options };

    fn field_at(bytes: &[u8]) -> Result<(BridgeOpts, &[u8]), ImageFault> {
        bridge_options_at(bytes)
    }
}

impl Field for PortOpts {
    ghost use Rattle.net_image.specs.Links.{port_options};

    ghost form = { port_options };

    fn field_at(bytes: &[u8]) -> Result<(PortOpts, &[u8]), ImageFault> {
        port_options_at(bytes)
    }
}

impl Field for Prefix {
    ghost use Rattle.net_image.specs.Fields.{prefix};

    ghost form = { prefix };

    fn field_at(bytes: &[u8]) -> Result<(Prefix, &[u8]), ImageFault> {
        prefix_at(bytes)
    }
}

impl Field for Route {
    ghost use Rattle.net_image.specs.Image.{route};

    ghost form = { route };

    fn field_at(bytes: &[u8]) -> Result<(Route, &[u8]), ImageFault> {
        route_at(bytes)
    }
}

impl Field for Rule {
    ghost use Rattle.net_image.specs.Image.{rule};

    ghost form = { rule };

    fn field_at(bytes: &[u8]) -> Result<(Rule, &[u8]), ImageFault> {
        rule_at(bytes)
    }
}
