ghost use Rattle.std.specs.Prelude.{◌≡◌};

use crate::selector::Label;

/// The labels of an object that are texts, borrowed from a list of them.
#[derive(Clone, Copy)]
pub struct Labels<'a> {
    pub(crate) list: &'a [Label],
}

impl<'a> Labels<'a> {
    ghost use Rattle.std.specs.Prelude.{◌≡◌, option_map};
    ghost use Rattle.kapi_model.specs.Selector.{value_in, values_of};

    /// The labels of a list.
    pub fn new(list: &'a [Label]) -> Labels<'a>
        ensures { values_of result ≡ value_in list.now }
    {
        Labels { list }
    }

    /// The value of the first label of a key, if there is one. Allocates nothing.
    pub fn get(&self, key: &str) -> Option<&'a str>
        ensures { option_map (λ s. s.now) result ≡ values_of self.now key.now }
    {
        for label in self.list {
            if label.key.as_str() == key {
                return Some(label.value.as_str());
            }
        }
        None
    }
}
