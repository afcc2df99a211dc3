// A network as the number of its first bits.
ghost use Rattle.std.specs.Prelude.{◌≡◌, ◌≤◌};
ghost use Rattle.acl_match.specs.Signs.{network_at};

/// A network: the length of its mask, and the number that the first bits spell.
#[derive(Clone, Copy, PartialEq, Eq, PartialOrd, Ord)]
pub struct Network {
    pub mask: u8,
    pub number: u64,
}

/// The network of an address under a mask.
#[tactic(auto, unfolding(crate::specs::Acl::network_number))]
pub fn network_of(address: [u8; 4], mask: u8) -> Network
    requires { mask ≤ 32 }
    ensures { result ≡ network_at address mask }
{
    let bits = u64::from(u32::from_be_bytes(address));
    Network {
        mask,
        number: bits >> (32 - mask),
    }
}
