//! An identity as a line of text has it.
ghost use Rattle.std.specs.Prelude.{◌≡◌, ◌==◌, length, map, not, true, IfOk, OnErr};
ghost use Rattle.std.specs.List.{list_all};
ghost use Rattle.std.specs.Option.{is_some};
ghost use Rattle.kapi_lines.specs.Identities.{identity_of, named_identity, names_in};

use crate::text::as_text;
use kapi_model::Identity;
use kapi_text::{Memory, Sequence, Text};
use std::alloc::Global;

/// The identity of `USER` or `USER,GROUP,..`; none, before any allocation, if a name is empty or no UTF-8.
#[tactic(auto, unfolding(crate::specs::Identities::named_identity))]
pub fn read_identity(alloc: Global, names: &[u8]) -> Result<Option<Identity>, Memory>
    ensures told { IfOk result (λ i. i ≡ named_identity names.now) }
    ensures known { OnErr result (is_some (named_identity names.now) ≡ true) }
{
    match as_text(names) {
        Some(names) if are_names(names) => Ok(Some(identity(alloc, names)?)),
        _ => Ok(None),
    }
}

fn are_names(names: &str) -> bool
    ensures { result ≡ list_all (λ name. not (length name == 0)) (names_in names.now) }
{
    names.split(',').all(|name| !name.is_empty())
}

fn identity(alloc: Global, names: &str) -> Result<Identity, Memory>
    ensures { IfOk result (λ i. i ≡ identity_of (names_in names.now)) }
{
    let names = split_names(alloc, names)?;
    match names.as_slice() {
        [] => Ok(Identity {
            user: Text::copy_of(alloc, "")?,
            groups: Sequence::new(Vec::new(alloc)),
        }),
        [user, groups @ ..] => Ok(Identity {
            user: Text::copy_of(alloc, user)?,
            groups: copies(alloc, groups)?,
        }),
    }
}

fn split_names(alloc: Global, names: &str) -> Result<Vec<&str>, Memory>
    ensures { IfOk result (λ v. map (λ s. s.now) v.items ≡ names_in names.now) }
{
    names.split(',').collect(alloc)
}

fn copies(alloc: Global, names: &[&str]) -> Result<Sequence<Text>, Memory>
    ensures { IfOk result (λ v. v ≡ map (λ s. s.now) names.now) }
{
    let mut texts = Vec::new(alloc);
    for name in names {
        texts.push(Text::copy_of(alloc, name)?)?;
    }
    Ok(Sequence::new(texts))
}
