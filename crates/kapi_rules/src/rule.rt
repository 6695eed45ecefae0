//! What a rule allows.
ghost use Rattle.std.specs.Prelude.{◌≡◌};
ghost use Rattle.kapi_rules.specs.Rules.{allows as rule_allows};

use crate::entries::{is_name_matched, some_resource_matches, some_url_matches, some_word_matches};
use crate::point::{Point, ResourcePoint, UrlPoint};
use kapi_model::PolicyRule;

/// Whether a rule allows a point (Kubernetes, 'Using RBAC Authorization').
pub fn allows(rule: &PolicyRule, point: &Point) -> bool
    ensures { result ≡ rule_allows rule.now point.now }
{
    match point {
        Point::Resource(point) => allows_on_resource(rule, point),
        Point::Url(point) => allows_on_url(rule, point),
    }
}

fn allows_on_resource(rule: &PolicyRule, point: &ResourcePoint) -> bool
    ensures { result ≡ rule_allows rule.now (Point.Resource point.now) }
{
    some_word_matches(rule.verbs.as_slice(), point.verb.as_str())
        && (some_word_matches(rule.api_groups.as_slice(), point.group.as_str())
            && (some_resource_matches(
                rule.resources.as_slice(),
                point.resource.as_str(),
                point.subresource.as_str(),
            ) && is_name_matched(rule.resource_names.as_slice(), point.name.as_str())))
}

fn allows_on_url(rule: &PolicyRule, point: &UrlPoint) -> bool
    ensures { result ≡ rule_allows rule.now (Point.Url point.now) }
{
    some_word_matches(rule.verbs.as_slice(), point.verb.as_str())
        && some_url_matches(rule.non_resource_urls.as_slice(), point.path.as_str())
}
