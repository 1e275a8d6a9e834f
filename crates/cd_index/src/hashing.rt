ghost use Rattle.std.specs.Prelude.{◌≡◌, ◌<◌, ◌^◌};
ghost use Rattle.std.specs.Char.{to_ascii_lowercase};
ghost use Rattle.std.specs.Str.{str_to_ascii_lowercase};
ghost use Rattle.cd_index.specs.Hashing.{mixed, hash};

/// The hash of bytes with one more, in lower case.
pub(crate) fn mixed(hash: usize, byte: u8) -> usize
    requires { hash < 2 ^ 32 }
    ensures value { result ≡ mixed hash (to_ascii_lowercase byte) }
    ensures small { result < 2 ^ 32 }
{
    (hash * 31 + usize::from(byte.to_ascii_lowercase())) % 4_294_967_296
}

/// The hash of bytes in lower case.
#[tactic(auto, unfolding(crate::specs::Hashing::hash))]
pub(crate) fn hash(bytes: &[u8]) -> usize
    ensures { result ≡ hash (str_to_ascii_lowercase bytes.now) }
{
    let mut made = 0usize;
    for byte in bytes {
        made = mixed(made, *byte);
    }
    made
}
