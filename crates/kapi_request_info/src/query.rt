//! The pairs of a query (URL Standard section 5, 'application/x-www-form-urlencoded').
ghost use Rattle.std.specs.Prelude.{◌≡◌, IfOk, string_bytes};
ghost use Rattle.std.specs.Option.{option_copied};
ghost use Rattle.kapi_request_info.specs.Query.{query_pairs as query_pairs_of, query_value as query_value_of};

use kapi_text::{Memory, Sequence, Text, TryCopy};
use std::alloc::{AllocError, Global};

/// A key of a query and its value, both decoded; the value is empty if there is no `=`.
#[derive(Drop)]
pub struct QueryPair {
    pub key: Text,
    pub value: Text,
}

impl TryCopy for QueryPair {
    fn copy(&self, alloc: Global) -> Result<QueryPair, AllocError> {
        Ok(QueryPair {
            key: self.key.copy(alloc)?,
            value: self.value.copy(alloc)?,
        })
    }
}

/// The value of the first pair with that key; allocates nothing.
#[tactic(auto, unfolding(crate::specs::Query::query_value))]
pub fn query_value<'a>(query: &'a [QueryPair], key: &str) -> Option<&'a str>
    ensures { option_copied result ≡ query_value_of query.now key.now }
{
    for pair in query {
        if pair.key.as_str() == key {
            return Some(pair.value.as_str());
        }
    }
    None
}

/// The pairs of a query, decoded, in order.
pub fn query_pairs(alloc: Global, query: &[u8]) -> Result<Sequence<QueryPair>, Memory>
    ensures { IfOk result (λ s. s ≡ query_pairs_of query.now) }
{
    let mut pairs = Vec::new(alloc);
    for pair in form_urlencoded::parse(alloc, query).into_owned() {
        let (key, value) = pair?;
        pairs.push(pair_of(key, value))?;
    }
    Ok(Sequence::new(pairs))
}

fn pair_of(key: String, value: String) -> QueryPair
    ensures { result ≡ record { key = string_bytes key; value = string_bytes value } }
{
    QueryPair {
        key: Text::new(key),
        value: Text::new(value),
    }
}
