//! HTTP/1.1 messages (RFC 9110, RFC 9112): whole requests from bytes in any pieces, and replies as bytes.
#![tactic(auto)]

mod chunk_text;
mod chunks;
mod fields;
mod head;
mod inbox;
mod item;
mod laws;
mod message;
mod reply;
mod rules;
mod scan;

pub use chunk_text::{write_chunk, write_end};
pub use fields::{eq_ignore_ascii_case, trim_ows};
pub use inbox::{FeedError, Inbox};
pub use kapi_text::Memory;
pub use laws::{
    bodies_in_chunks_are_read, faults_are_decided_early, fronts_are_cut_alike,
    heads_are_those_of_the_grammar, heads_end_where_the_grammar_ends, items_stay,
    pieces_are_cut_alike, printed_chunks_are_read, printed_heads_are_read, requests_are_cut_apart,
    requests_are_those_of_the_grammar, texts_of_requests_are_cut, worked_texts,
};
pub use message::{Header, HttpFault, HttpRequest, Method, Reply, StatusCode};
pub use reply::write_reply;
