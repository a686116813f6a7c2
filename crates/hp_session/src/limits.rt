//! The limits of a script.

ghost use Rattle.std.specs.Prelude.{◌≡◌, ◌<◌, ◌≤◌, None, Some, IfOk, IfErr, OnOk, OnErr};
ghost use Rattle.hp_render.specs.declared.refusal.Refusal.TheVariants.{BadLimit};
ghost use Rattle.hp_session.specs.Refusals.{bad_limit};
ghost use Rattle.hp_session.specs.State.{AreLimits};
ghost use Rattle.hp_session.specs.Steps.{limits_after};

use hp_groebner::{Limits, MOST_DEGREE, MOST_PAIRS};
use hp_render::Refusal;
use hp_script::Command;

/// Sets the limit that the command names, if it names one. Refused, the limits stay as they were. Takes no memory.
pub(crate) fn set_limit(limits: &mut Limits, command: &Command) -> Result<(), Refusal>
    requires { AreLimits limits.old }
    ensures accepted { OnOk result (bad_limit command.now ≡ None) }
    ensures set { OnOk result (limits.new ≡ limits_after limits.old command.now) }
    ensures refused { IfErr result (λ r. bad_limit command.now ≡ Some r) }
    ensures kept { OnErr result (limits.new ≡ limits.old) }
    ensures limits { AreLimits limits.new }
{
    match command {
        Command::LimitPairs(n) => limits.pairs = limit(*n, MOST_PAIRS)?,
        Command::LimitDegree(n) => limits.degree = limit(*n, MOST_DEGREE)?,
        _ => {}
    }
    Ok(())
}

/// The number as a limit, of which this is the greatest.
fn limit(n: u64, most: u32) -> Result<u32, Refusal>
    ensures accepted { OnOk result (n ≤ most) }
    ensures value { IfOk result (λ limit. limit ≡ n) }
    ensures refused { IfErr result (λ r. r ≡ BadLimit) }
    ensures above { OnErr result (most < n) }
{
    if n > most as u64 {
        return Err(Refusal::BadLimit);
    }
    Ok(n as u32)
}
