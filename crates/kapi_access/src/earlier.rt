//! Bindings that gave the same before.
ghost use Rattle.std.specs.Prelude.{◌≡◌};
ghost use Rattle.kapi_policy.specs.Views.{binding_of};
ghost use Rattle.kapi_access.specs.Earlier.{bindings_at, comes_before as is_before, first_gives_same as first_gives, from_place as from_place_of, gives_same as gives_as, same_subject as same_subject_as, same_subjects as same_subjects_as};

use crate::way::rules_by;
use kapi_aggregation::same_rules;
use kapi_model::Subject;
use kapi_policy::{Binding, Policy};

// ---- equality

fn same_subject(a: &Subject, b: &Subject) -> bool
    ensures { result ≡ same_subject_as a.now b.now }
{
    match (a, b) {
        (Subject::User(x), Subject::User(y)) => x == y,
        (Subject::Group(x), Subject::Group(y)) => x == y,
        (Subject::ServiceAccount(x), Subject::ServiceAccount(y)) => {
            x.namespace == y.namespace && x.name == y.name
        }
        _ => false,
    }
}

fn same_subjects(a: &[Subject], b: &[Subject]) -> bool
    ensures { result ≡ same_subjects_as a.now b.now }
{
    let mut left = a;
    let mut right = b;
    while let [x, xs @ ..] = left {
        let [y, ys @ ..] = right else {
            return false;
        };
        if !same_subject(x, y) {
            return false;
        }
        left = xs;
        right = ys;
    }
    right.is_empty()
}

fn gives_same<P: Policy, Q: Policy>(
    before: &P,
    earlier: &Binding<'_>,
    after: &Q,
    binding: &Binding<'_>,
) -> bool
    ensures { result ≡ gives_as (P.content before.now) (Q.content after.now) (binding_of earlier.now) (binding_of binding.now) }
{
    earlier.namespace == binding.namespace
        && (same_subjects(earlier.subjects, binding.subjects)
            && same_rules(rules_by(before, earlier), rules_by(after, binding)))
}

/// Whether the first of the bindings before gave the same to the same as the one after.
pub fn first_gives_same<P: Policy, Q: Policy>(
    before: &P,
    earlier: &[Binding<'_>],
    after: &Q,
    binding: &Binding<'_>,
) -> bool
    ensures { result ≡ first_gives (P.content before.now) (Q.content after.now) (bindings_at earlier.now) (binding_of binding.now) }
{
    match earlier {
        [first, ..] => gives_same(before, first, after, binding),
        [] => false,
    }
}

// ---- places

fn comes_before(a: &Binding<'_>, b: &Binding<'_>) -> bool
    ensures { result ≡ is_before (binding_of a.now) (binding_of b.now) }
{
    (a.namespace, a.name) < (b.namespace, b.name)
}

/// The suffix of the ordered bindings that begins at the place of `binding`.
pub fn from_place<'s, 'a>(earlier: &'s [Binding<'a>], binding: &Binding<'_>) -> &'s [Binding<'a>]
    ensures { bindings_at result.now ≡ from_place_of (binding_of binding.now) (bindings_at earlier.now) }
{
    let mut rest = earlier;
    while let [first, after @ ..] = rest {
        if !comes_before(first, binding) {
            return rest;
        }
        rest = after;
    }
    rest
}
