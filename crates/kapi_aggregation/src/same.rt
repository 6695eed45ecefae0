//! Equality of rules: entry by entry, in their order.
ghost use Rattle.std.specs.Prelude.{◌≡◌};
ghost use Rattle.kapi_aggregation.specs.Unions.{same_rule as same_rule_as, same_rules as same_rules_as, same_texts as same_texts_as};

use kapi_model::PolicyRule;
use kapi_text::Text;

/// Whether the texts are the same, in the same order.
fn same_texts(a: &[Text], b: &[Text]) -> bool
    ensures { result ≡ same_texts_as a.now b.now }
{
    a == b
}

/// Whether the rules have the same entries, in the same order.
pub fn same_rule(a: &PolicyRule, b: &PolicyRule) -> bool
    ensures { result ≡ same_rule_as a.now b.now }
{
    same_texts(a.verbs.as_slice(), b.verbs.as_slice())
        && (same_texts(a.api_groups.as_slice(), b.api_groups.as_slice())
            && (same_texts(a.resources.as_slice(), b.resources.as_slice())
                && (same_texts(a.resource_names.as_slice(), b.resource_names.as_slice())
                    && same_texts(
                        a.non_resource_urls.as_slice(),
                        b.non_resource_urls.as_slice(),
                    ))))
}

/// Whether the lists have the same rules, in the same order. Allocates nothing.
pub fn same_rules(a: &[PolicyRule], b: &[PolicyRule]) -> bool
    ensures { result ≡ same_rules_as a.now b.now }
{
    let mut left = a;
    let mut right = b;
    while let [x, xs @ ..] = left {
        let [y, ys @ ..] = right else {
            return false;
        };
        if !same_rule(x, y) {
            return false;
        }
        left = xs;
        right = ys;
    }
    right.is_empty()
}
