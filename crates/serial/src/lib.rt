// The depth of a thread, found while walking over the frames of a unit.

#![tactic(auto)]

ghost use Rattle.std.specs.Prelude.{◌≡◌, ◌<◌};
ghost use Rattle.serial.specs.Walk.{depth_by};

// The operations that change it.
const BEGIN: u32 = 5;

const END: u32 = 6;

// The depth of a thread after its frame with an operation. A word is not decoded for it.
pub fn depth_by(operation: u32, depth: u32) -> u32
    requires { depth < 4294967295 }
    ensures { result ≡ depth_by operation depth }
{
    match operation {
        BEGIN => depth + 1,
        END => depth.saturating_sub(1),
        _ => depth,
    }
}
