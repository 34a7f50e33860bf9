// The check of a block file, for the C host: the static library liboctets.a (tools/programs).
#![tactic(auto)]

ghost use Rattle.std.specs.Prelude.{◌≡◌};
ghost use Rattle.octets.specs.Fletcher.{fletcher};

// Fletcher-32 of a string of bytes.
#[unsafe(no_mangle)]
pub extern "C" fn block_check(bytes: &[u8]) -> u32
    ensures { result ≡ fletcher bytes.now }
{
    octets::block_check(bytes)
}
