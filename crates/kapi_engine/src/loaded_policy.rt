ghost use Rattle.kapi_text.specs.ResultIs.{ResultIs};
ghost use Rattle.kapi_loading.specs.Faults.{model_of_fault};
ghost use Rattle.kapi_engine.specs.LoadedPolicies.{loaded_of};

use kapi_index::IndexedPolicy;
use kapi_loading::{StartError, is_settled, load_policy};
use std::alloc::Global;

/// A policy that was loaded, and whether its aggregated cluster roles have their unions. Contracts see its roles and
/// bindings as `policy`.
#[derive(Drop)]
pub struct LoadedPolicy {
    pub policy: IndexedPolicy,
    pub settled: bool,
}

/// The policy of objects alone, a JSON object a line, a namespace before what lives in it; empty lines and those that begin
/// with `#` are skipped. A server that begins with these objects in place of its own, as with `--manifests`, decides
/// the same. The five opening objects of other servers count if they are among the lines.
///
/// # Errors
/// `Line` at the first line that is not loaded, `Memory` if an allocation fails.
pub fn load(alloc: Global, objects: &[u8]) -> Result<LoadedPolicy, StartError>
    ensures { ResultIs model_of_fault (λ e. e) result (loaded_of objects.now) }
{
    let mut core = load_policy(alloc, objects)?;
    if core.is_quiet() {
        let policy = core.into_policy();
        return Ok(LoadedPolicy {
            policy,
            settled: true,
        });
    }
    // The turn that is due is not part of what the objects make.
    let policy = core.policy().copy()?;
    let settled = is_settled(&mut core)?;
    Ok(LoadedPolicy { policy, settled })
}
