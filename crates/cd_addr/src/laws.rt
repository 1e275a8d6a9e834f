ghost use Rattle.std.specs.Prelude.{◌≡◌, [], ◌∷◌, List, Ok};
ghost use Rattle.std.specs.List.{All};
ghost use Rattle.cd_outside.specs.declared.address.Address.{Address};
ghost use Rattle.cd_addr.specs.declared.limits.TheConstants.{MAX_PORT, MAX_RANGE_PORTS};
ghost use Rattle.cd_addr.specs.Addresses.{addresses, written};

use cd_text::Text;

/// The limits of addresses, as numbers.
pub fn limits_of_addresses()
    ensures port { MAX_PORT ≡ 65535 }
    ensures range { MAX_RANGE_PORTS ≡ 64 }
{}

/// What `write` gives of an address that `read` gave reads as just that address.
pub fn what_is_read_reads_back(text: &Text)
    ensures { (found : List Address) → addresses text.now ≡ Ok found → All (λ address. addresses (written address) ≡ Ok (address ∷ [])) found }
{
    let _ = text;
}
