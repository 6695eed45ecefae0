ghost use Rattle.std.specs.Prelude.{◌≡◌, ◌==◌, ◌||◌};
ghost use Rattle.std.specs.List.{list_all, list_any, slice_split};
ghost use Rattle.kapi_model.specs.Names.{is_dns_label, is_dns_subdomain, is_path_segment, is_label_key, is_label_value, is_name_for, is_name_on};
ghost use Rattle.kapi_model.specs.declared.row.Schema.TheVariants as Schemas;
ghost use Rattle.kapi_model.specs.Names as rule;

use crate::row::{ResourceRow, Schema};

/// The longest DNS label, label name and label value, in bytes (RFC 1123 section 2.1; Kubernetes, 'Labels and
/// Selectors').
const LABEL_LIMIT: usize = 63;

/// The longest DNS subdomain, in bytes (Kubernetes, 'Object Names and IDs').
const SUBDOMAIN_LIMIT: usize = 253;

/// The text begins and ends with an ASCII letter or digit.
fn is_enclosed(text: &[u8]) -> bool
    ensures { result ≡ rule.is_enclosed text.now }
{
    if text.is_empty() {
        return false;
    }
    text[0].is_ascii_alphanumeric() && text[text.len() - 1].is_ascii_alphanumeric()
}

fn is_dns_byte(byte: u8) -> bool
    ensures { result ≡ rule.is_dns_byte byte }
{
    byte.is_ascii_lowercase() || byte.is_ascii_digit() || byte == b'-'
}

fn is_name_byte(byte: u8) -> bool
    ensures { result ≡ rule.is_name_byte byte }
{
    byte.is_ascii_alphanumeric() || byte == b'-' || byte == b'_' || byte == b'.'
}

fn has_only_dns_bytes(text: &[u8]) -> bool
    ensures { result ≡ list_all rule.is_dns_byte text.now }
{
    text.iter().all(|byte| is_dns_byte(*byte))
}

fn has_only_name_bytes(text: &[u8]) -> bool
    ensures { result ≡ list_all rule.is_name_byte text.now }
{
    text.iter().all(|byte| is_name_byte(*byte))
}

fn has_slash_or_percent(text: &[u8]) -> bool
    ensures { result ≡ list_any (λ b. b == rule.slash || b == rule.percent) text.now }
{
    text.iter().any(|byte| *byte == b'/' || *byte == b'%')
}

/// A part of a DNS name between its dots, of any length.
#[tactic(auto, unfolding(crate::specs::Names::is_dns_part))]
fn is_dns_part(text: &str) -> bool
    ensures { result ≡ rule.is_dns_part text.now }
{
    is_enclosed(text.as_bytes()) && has_only_dns_bytes(text.as_bytes())
}

/// The name in a label's key, and a value that is not empty.
#[tactic(auto, unfolding(crate::specs::Names::is_label_name))]
fn is_label_name(text: &str) -> bool
    ensures { result ≡ rule.is_label_name text.now }
{
    text.len() <= LABEL_LIMIT
        && is_enclosed(text.as_bytes())
        && has_only_name_bytes(text.as_bytes())
}

/// Whether each part between the dots is a part of a DNS name.
fn has_dns_parts(text: &str) -> bool
    ensures { result ≡ list_all rule.is_dns_part (slice_split (λ b. b == rule.dot) text.now) }
{
    text.split('.').all(|part| is_dns_part(part))
}

/// Whether a text is a name of a namespace: a DNS label (RFC 1123).
#[tactic(auto, unfolding(crate::specs::Names::is_dns_label))]
pub fn check_namespace_name(name: &str) -> bool
    ensures { result ≡ is_dns_label name.now }
{
    name.len() <= LABEL_LIMIT && is_dns_part(name)
}

/// Whether a text is a name of an object: a DNS subdomain (Kubernetes, 'Object Names and IDs').
#[tactic(auto, unfolding(crate::specs::Names::is_dns_subdomain))]
pub fn check_object_name(name: &str) -> bool
    ensures { result ≡ is_dns_subdomain name.now }
{
    name.len() <= SUBDOMAIN_LIMIT && has_dns_parts(name)
}

/// Whether a text is a name of a role or a binding: a path segment (Kubernetes, 'Object Names and IDs').
#[tactic(auto, unfolding(crate::specs::Names::is_path_segment))]
pub fn check_rbac_name(name: &str) -> bool
    ensures { result ≡ is_path_segment name.now }
{
    !name.is_empty() && name != "." && name != ".." && !has_slash_or_percent(name.as_bytes())
}

/// Whether a text is a key of a label or an annotation: a name, after a DNS subdomain and `/` if there is a slash
/// (Kubernetes, 'Labels and Selectors').
#[tactic(auto, unfolding(crate::specs::Names::is_label_key))]
pub fn check_label_key(key: &str) -> bool
    ensures { result ≡ is_label_key key.now }
{
    match key.split_once('/') {
        Some((prefix, name)) => check_object_name(prefix) && is_label_name(name),
        None => is_label_name(key),
    }
}

/// Whether a text is a value of a label: empty, or a name as in a label's key (Kubernetes, 'Labels and Selectors').
#[tactic(auto, unfolding(crate::specs::Names::is_label_value))]
pub fn check_label_value(value: &str) -> bool
    ensures { result ≡ is_label_value value.now }
{
    value.is_empty() || is_label_name(value)
}

/// Whether a text is a name of an object of the resource type: of `namespaces` in the core group a DNS label, of roles
/// and bindings a path segment, else a DNS subdomain.
#[tactic(auto, unfolding(crate::specs::Names::is_name_on))]
pub fn check_name(row: &ResourceRow, name: &str) -> bool
    ensures { result ≡ is_name_on row.now name.now }
{
    match row.schema {
        Schema::Open => check_open_name(row, name),
        _typed => check_rbac_name(name),
    }
}

fn check_open_name(row: &ResourceRow, name: &str) -> bool
    ensures { result ≡ is_name_for Schemas.Open row.now name.now }
{
    if row.group.as_str().is_empty() && row.plural.as_str() == "namespaces" {
        check_namespace_name(name)
    } else {
        check_object_name(name)
    }
}
