//! What a field selector selects (Kubernetes, 'Field Selectors').
ghost use Rattle.std.specs.Prelude.{◌≡◌, ◌==◌, ◌||◌};
ghost use Rattle.std.specs.List.{list_any};
ghost use Rattle.std.specs.Option.{option_copied};
ghost use Rattle.kapi_request_info.specs.Selector.{is_selectable as is_selectable_of, behind as behind_of, named as named_of, named_behind as named_behind_of, selected_name as selected_name_of};

use kapi_model::check_rbac_name;

/// The name that a field selector asks for: `metadata.name==NAME` or `metadata.name=NAME`, NAME a path segment without
/// a byte that selectors part or escape by; allocates nothing.
#[tactic(auto, unfolding(crate::specs::Selector::selected_name))]
pub fn selected_name(selector: &str) -> Option<&str>
    ensures { option_copied result ≡ selected_name_of selector.now }
{
    named_behind(selector, "metadata.name==").or(named_behind(selector, "metadata.name="))
}

fn named_behind<'a>(selector: &'a str, prefix: &str) -> Option<&'a str>
    ensures { option_copied result ≡ named_behind_of selector.now prefix.now }
{
    match behind(selector, prefix) {
        Some(name) => named(name),
        None => None,
    }
}

/// The text behind a prefix, where the text begins with it.
pub fn behind<'a>(text: &'a str, prefix: &str) -> Option<&'a str>
    ensures { option_copied result ≡ behind_of text.now prefix.now }
{
    text.strip_prefix(prefix)
}

fn named(name: &str) -> Option<&str>
    ensures { option_copied result ≡ named_of name.now }
{
    if is_selectable(name) {
        Some(name)
    } else {
        None
    }
}

fn is_selectable(name: &str) -> bool
    ensures { result ≡ is_selectable_of name.now }
{
    check_rbac_name(name) && !has_selector_byte(name.as_bytes())
}

fn has_selector_byte(name: &[u8]) -> bool
    ensures { result ≡ list_any (λ b. b == 44 || (b == 61 || (b == 33 || b == 92))) name.now }
{
    name.iter().any(|byte| *byte == b',' || (*byte == b'=' || (*byte == b'!' || *byte == b'\\')))
}
