//! Copies of bytes, and items by their numbers.
ghost use Rattle.std.specs.Prelude.{◌≡◌, IfOk};
ghost use Rattle.std.specs.Option.{option_copied};
ghost use Rattle.kapi_lines.specs.Words as words;

use kapi_text::{Memory, Sequence};
use std::alloc::Global;

/// A copy of bytes.
pub fn copy_of(alloc: Global, bytes: &[u8]) -> Result<Sequence<u8>, Memory>
    ensures { IfOk result (λ s. s ≡ bytes.now) }
{
    let mut copy = Vec::new(alloc);
    copy.extend_from_slice(bytes)?;
    Ok(Sequence::new(copy))
}

/// The item of this number, from 1.
pub fn nth<T>(items: &[T], number: usize) -> Option<&T>
    ensures { option_copied result ≡ words.nth items.now number }
{
    if number == 0 {
        return None;
    }
    items.get(number - 1)
}
