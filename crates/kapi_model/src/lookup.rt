//! Labels in which many keys are looked up.
ghost use Rattle.std.specs.Prelude.{◌≡◌, true, option_map};
ghost use Rattle.std.specs.Bool.{OnTrue};
ghost use Rattle.std.proofs.Props.{props};
ghost use Rattle.kapi_model.specs.Selector.{value_in, values_of};
ghost use Rattle.kapi_model.specs.Private.Lookup.{AreInOrder};

use crate::labels::Labels;
use crate::selector::Label;
use kapi_text::Text;

/// Labels, and whether they are known to be in the order of their keys, so that a key is found among many without a walk.
#[derive(Clone, Copy)]
pub(crate) struct Lookup<'a> {
    labels: Labels<'a>,
    in_order: bool,
    ghost ordered: { (in_order ≡ true) → AreInOrder labels.list.now } by { Prim.hlevel props },
}

/// Whether it is asked for, and each label's key comes before that of the next, by bytes.
fn are_in_order(labels: &[Label], is_asked: bool) -> bool
    ensures { OnTrue result (AreInOrder labels.now) }
{
    if !is_asked {
        return false;
    }
    labels.is_sorted_by(|label, next| label.key < next.key)
}

/// The value of the label of a key in labels that are in order, if there is one.
fn search<'a>(labels: &'a [Label], key: &Text) -> Option<&'a str>
    requires { AreInOrder labels.now }
    ensures { option_map (λ s. s.now) result ≡ value_in labels.now key.now }
{
    match labels.binary_search_by(|label| label.key.cmp(key)) {
        Ok(place) => Some(labels[place].value.as_str()),
        Err(_gap) => None,
    }
}

impl<'a> Lookup<'a> {
    ghost use Rattle.std.specs.Prelude.{◌≡◌, option_map};
    ghost use Rattle.kapi_model.specs.Selector.{values_of};

    /// The labels; for many look-ups they are seen once, so that each look-up is short if they are in order.
    pub(crate) fn of(labels: &Labels<'a>, are_many: bool) -> Lookup<'a>
        ensures { result.labels ≡ labels.now }
    {
        let in_order = are_in_order(labels.list, are_many);
        Lookup {
            labels: *labels,
            in_order,
        }
    }

    /// The value of the first label of a key, if there is one. Allocates nothing.
    pub(crate) fn get(&self, key: &Text) -> Option<&'a str>
        ensures { option_map (λ s. s.now) result ≡ values_of self.now.labels key.now }
    {
        if self.in_order {
            search(self.labels.list, key)
        } else {
            self.labels.get(key.as_str())
        }
    }
}
