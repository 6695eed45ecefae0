ghost use Rattle.std.specs.Prelude.{◌≡◌, IfOk, string_bytes};

use crate::sequence::TryCopy;
use arrayvec::ArrayString;
use std::alloc::{AllocError, Global};
use std::cmp::Ordering;
use std::marker::Model;

/// A text that contracts see as its bytes: two texts are equal if their bytes are. A copy of at most 16 bytes lies in
/// the value itself, so it takes no allocation.
pub struct Text {
    kept: Kept,
}

// `Drop` is written out, so that a caller does not prove again how a text is dropped, wherever it lies.
impl Drop for Text {
    fn drop(self) {
        let Text { kept: _ } = self;
    }
}

/// Where the bytes of a text lie.
#[derive(Drop)]
enum Kept {
    Inside(ArrayString<16>),
    Outside(String),
}

impl Model for Text {
    ghost use Rattle.std.specs.Prelude.{List, ℕ};
    ghost use Rattle.kapi_text.specs.Kept.{kept_bytes};

    ghost Value = { List ℕ };

    ghost view = { λ t. kept_bytes t.kept };
}

impl Text {
    /// Takes a string over; allocates nothing.
    pub fn new(string: String) -> Text
        ensures { result ≡ string_bytes string }
    {
        Text {
            kept: Kept::Outside(string),
        }
    }

    /// An owned text with the same bytes; allocates nothing if there are at most 16.
    pub fn copy_of(alloc: Global, text: &str) -> Result<Text, AllocError>
        ensures { IfOk result (λ t. t ≡ text.now) }
    {
        let kept = match ArrayString::from(text) {
            Ok(inside) => Kept::Inside(inside),
            Err(_longer) => Kept::Outside(String::from_str(alloc, text)?),
        };
        Ok(Text { kept })
    }

    /// The text, borrowed.
    pub fn as_str(&self) -> &str
        ensures { result.now ≡ self.now }
    {
        match &self.kept {
            Kept::Inside(text) => text.as_str(),
            Kept::Outside(text) => text.as_str(),
        }
    }
}

impl TryCopy for Text {
    fn copy(&self, alloc: Global) -> Result<Text, AllocError> {
        Text::copy_of(alloc, self.as_str())
    }
}

impl PartialEq for Text {
    ghost use Rattle.std.proofs.Common.{rules};
    ghost use Rattle.std.specs.Str.{bytes_eq};

    ghost eq = { bytes_eq };

    ghost laws = { Prim.search rules };

    fn eq(&self, other: &Text) -> bool {
        self.as_str() == other.as_str()
    }
}

impl Eq for Text {
    ghost use Rattle.std.specs.Cmp.Lexicographic.{nat_list_eq_equiv};

    ghost laws = { nat_list_eq_equiv };
}

impl PartialOrd for Text {
    ghost use Rattle.std.specs.Prelude.{Some};
    ghost use Rattle.std.specs.Ordering.{nat_cmp};
    ghost use Rattle.std.specs.Cmp.Lexicographic.{slice_cmp, texts_po};

    ghost partial_cmp = { λ x y. Some (slice_cmp nat_cmp x y) };

    ghost laws = { texts_po };

    fn partial_cmp(&self, other: &Text) -> Option<Ordering> {
        Some(self.as_str().cmp(other.as_str()))
    }
}

impl Ord for Text {
    ghost use Rattle.std.specs.Prelude.{refl};
    ghost use Rattle.std.specs.Ordering.{nat_cmp};
    ghost use Rattle.std.specs.Cmp.Lexicographic.{slice_cmp, nat_list_cmp_total, texts_ties};

    ghost cmp = { slice_cmp nat_cmp };

    ghost total = { nat_list_cmp_total };

    ghost matches_partial_cmp = { λ x y. refl };

    ghost matches_eq = { texts_ties };

    fn cmp(&self, other: &Text) -> Ordering {
        self.as_str().cmp(other.as_str())
    }
}
