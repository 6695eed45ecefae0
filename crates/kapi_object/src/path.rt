ghost use Rattle.std.specs.Prelude.{◌≡◌, IfOk, string_bytes};
ghost use Rattle.kapi_object.specs.Typed as typed;

use kapi_text::Memory;
use std::alloc::Global;

/// The field of a member: `rules`, or `rules[0].verbs`.
pub fn member_path(alloc: Global, path: &str, key: &str) -> Result<String, Memory>
    ensures { IfOk result (λ s. string_bytes s ≡ typed.member_path path.now key.now) }
{
    if path.is_empty() {
        return String::from_str(alloc, key);
    }
    let mut field = String::from_str(alloc, path)?;
    field.push_str(".")?;
    field.push_str(key)?;
    Ok(field)
}

/// The field of an element: `rules[0]`.
pub fn item_path(alloc: Global, path: &str, index: usize) -> Result<String, Memory>
    ensures { IfOk result (λ s. string_bytes s ≡ typed.item_path path.now index) }
{
    let number = format!(in alloc; "{index}")?;
    let mut field = String::from_str(alloc, path)?;
    field.push_str("[")?;
    field.push_str(number.as_str())?;
    field.push_str("]")?;
    Ok(field)
}
