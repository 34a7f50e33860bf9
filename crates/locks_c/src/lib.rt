// Whether two holds conflict, for the C host: the static library liblocks.a (tools/programs).
#![tactic(auto)]

ghost use Rattle.std.specs.Prelude.{◌≡◌};
ghost use Rattle.locks.specs.Locks.{conflict_call};

// 0 no, 1 yes, 10 for what is no hold.
#[unsafe(no_mangle)]
pub extern "C" fn hold_conflict(
    mode: u32,
    low: u32,
    high: u32,
    mode2: u32,
    low2: u32,
    high2: u32,
) -> u32
    ensures { result ≡ conflict_call mode low high mode2 low2 high2 }
{
    locks::hold_conflict(mode, low, high, mode2, low2, high2)
}
