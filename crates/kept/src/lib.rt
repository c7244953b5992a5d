// The reply that the fields of a verdict line tell.

#![tactic(auto)]

ghost use Rattle.std.specs.Prelude.{◌≡◌};
ghost use Rattle.kept.specs.Kept.{kept_reply};

use frame::{Refusal, Thread};
use line::Fields;
use reply::{Kind, Reply, Violation};

// The reply of a line, or the number of a refusal that this check does not give.
pub fn reply_of(f: Fields) -> Result<Reply, u8>
    ensures { result ≡ kept_reply f }
{
    if f.kind == 0 {
        return Ok(Ok(Ok(())));
    }
    if let Ok(kind) = Kind::try_from(f.kind) {
        return Ok(Ok(Err(Violation {
            kind,
            frame: u32::from(f.frame),
            thread: Thread(f.thread),
            begin: f.begin.map(u32::from),
            commit: f.commit.map(u32::from),
            locks: f.locks,
        })));
    }
    let number = f.kind.checked_sub(128).ok_or(f.kind)?;
    let reason = Refusal::try_from(number).map_err(|_| number)?;
    Ok(Err(reason.at(u32::from(f.frame))))
}
