//! Whether a machine's aggregated cluster roles have their unions.
ghost use Rattle.std.specs.Prelude.{◌≡◌, IfOk};
ghost use Rattle.kapi_core.specs.Machine.{Machine};
ghost use Rattle.kapi_core.specs.Refines.{Refines};
ghost use Rattle.kapi_loading.specs.Settled.{is_settled as is_settled_machine};

use kapi_core::Core;
use kapi_index::IndexedPolicy;
use kapi_text::Memory;

/// Whether no turn is due; a turn that is due is made.
pub fn is_settled(core: &mut Core<IndexedPolicy>) -> Result<bool, Memory>
    ensures { (m : Machine) → Refines core.old m → IfOk result (λ b. b ≡ is_settled_machine m) }
{
    let turned = core.turn()?;
    match turned {
        Some(_turned) => Ok(false),
        None => Ok(true),
    }
}
