//! Status objects as JSON text (Kubernetes API conventions, 'Response Status Kind'). They are written member by member, in
//! the order of their keys: no tree is built.
ghost use Rattle.std.specs.Prelude.{◌≡◌, ◌++◌, Some, map as map_of, OnOk};
ghost use Rattle.std.specs.Option.{option_map};
ghost use Rattle.serde_json.specs.Data.{array};
ghost use Rattle.serde_json.specs.View.{items_of};
ghost use Rattle.kapi_http.specs.Message.{status_number};
ghost use Rattle.kapi_reply.specs.Private.Tokens as parts;
ghost use Rattle.kapi_reply.specs.Private.Tokens.{causes_tokens, data_tokens, deleted_tokens, details_tokens, head_tokens, metadata_tokens, subject_tokens, words_tokens};
ghost use Rattle.kapi_reply.specs.Status.{deleted_status, field_cause, missing, status_of};
ghost use Rattle.kapi_reply.specs.Views.{cause_data, failure_data, subject_data};

use crate::status::{Cause, Failure, Subject};
use crate::tokens::{write_number, write_some_text, write_text, write_token};
use json::{Token, Writer};
use kapi_http::StatusCode;
use kapi_text::Memory;

/// Writes the Status object of a failure and its subject.
pub(crate) fn write_status(
    out: &mut Writer,
    subject: Option<Subject<'_>>,
    failure: &Failure,
) -> Result<(), Memory>
    ensures tokens { OnOk result (out.new.tokens ≡ out.old.tokens ++ data_tokens (status_of (option_map subject_data subject.entry) (failure_data failure.now))) }
    ensures before { OnOk result (out.new.before ≡ out.old.before) }
{
    write_head(out, failure.code)?;
    write_details(out, subject, failure.causes.as_slice())?;
    write_words(out, failure.message.as_str(), failure.reason)
}

/// Writes the members before the details.
fn write_head(out: &mut Writer, code: StatusCode) -> Result<(), Memory>
    ensures tokens { OnOk result (out.new.tokens ≡ out.old.tokens ++ head_tokens (status_number code)) }
    ensures before { OnOk result (out.new.before ≡ out.old.before) }
{
    write_token(out, Token::BeginObject)?;
    write_text(out, "apiVersion", "v1")?;
    write_token(out, Token::Key("code"))?;
    write_number(out, code.number())
}

/// Writes the details, unless they are empty: the causes and the subject.
#[tactic(auto, unfolding(crate::specs::Private::Tokens::details_tokens))]
fn write_details(
    out: &mut Writer,
    subject: Option<Subject<'_>>,
    causes: &[Cause],
) -> Result<(), Memory>
    ensures tokens { OnOk result (out.new.tokens ≡ out.old.tokens
        ++ details_tokens (option_map subject_data subject.entry) (map_of cause_data causes.now)) }
    ensures before { OnOk result (out.new.before ≡ out.old.before) }
{
    if causes.is_empty() && is_nameless(subject) {
        return Ok(());
    }
    write_token(out, Token::Key("details"))?;
    write_token(out, Token::BeginObject)?;
    write_causes(out, causes)?;
    write_subject(out, subject)?;
    write_token(out, Token::EndObject)
}

/// Writes the members after the details, and ends the object.
fn write_words(out: &mut Writer, message: &str, reason: &str) -> Result<(), Memory>
    ensures tokens { OnOk result (out.new.tokens ≡ out.old.tokens ++ words_tokens message.now reason.now) }
    ensures before { OnOk result (out.new.before ≡ out.old.before) }
{
    write_text(out, "kind", "Status")?;
    write_text(out, "message", message)?;
    write_metadata(out)?;
    write_some_text(out, "reason", reason)?;
    write_text(out, "status", "Failure")?;
    write_token(out, Token::EndObject)
}

/// Writes the metadata of a Status object, which are empty.
fn write_metadata(out: &mut Writer) -> Result<(), Memory>
    ensures tokens { OnOk result (out.new.tokens ≡ out.old.tokens ++ metadata_tokens) }
    ensures before { OnOk result (out.new.before ≡ out.old.before) }
{
    write_token(out, Token::Key("metadata"))?;
    write_token(out, Token::BeginObject)?;
    write_token(out, Token::EndObject)
}

/// Writes the Status object of a deletion: its subject, and the uid of what was deleted.
pub(crate) fn write_deletion(
    out: &mut Writer,
    subject: Subject<'_>,
    uid: &str,
) -> Result<(), Memory>
    ensures tokens { OnOk result (out.new.tokens ≡ out.old.tokens ++ data_tokens (deleted_status (subject_data subject.entry) uid.now)) }
    ensures before { OnOk result (out.new.before ≡ out.old.before) }
{
    write_token(out, Token::BeginObject)?;
    write_text(out, "apiVersion", "v1")?;
    write_deleted(out, subject, uid)?;
    write_text(out, "kind", "Status")?;
    write_metadata(out)?;
    write_text(out, "status", "Success")?;
    write_token(out, Token::EndObject)
}

/// Writes the details of a deletion.
fn write_deleted(out: &mut Writer, subject: Subject<'_>, uid: &str) -> Result<(), Memory>
    ensures tokens { OnOk result (out.new.tokens ≡ out.old.tokens ++ deleted_tokens (subject_data subject.entry) uid.now) }
    ensures before { OnOk result (out.new.before ≡ out.old.before) }
{
    write_token(out, Token::Key("details"))?;
    write_token(out, Token::BeginObject)?;
    write_subject(out, Some(subject))?;
    write_text(out, "uid", uid)?;
    write_token(out, Token::EndObject)
}

/// Whether the details have no member for the subject.
#[tactic(auto, unfolding(crate::specs::Private::Tokens::is_nameless))]
fn is_nameless(subject: Option<Subject<'_>>) -> bool
    ensures { result ≡ parts.is_nameless (option_map subject_data subject.entry) }
{
    match subject {
        Some(subject) => {
            subject.group.is_empty() && (subject.resource.is_empty() && subject.name.is_empty())
        }
        None => true,
    }
}

/// Writes the members of the subject, each left out if it is empty.
#[tactic(auto, unfolding(crate::specs::Private::Tokens::subject_tokens))]
fn write_subject(out: &mut Writer, subject: Option<Subject<'_>>) -> Result<(), Memory>
    ensures tokens { OnOk result (out.new.tokens ≡ out.old.tokens ++ subject_tokens (option_map subject_data subject.entry)) }
    ensures before { OnOk result (out.new.before ≡ out.old.before) }
{
    match subject {
        Some(subject) => {
            write_some_text(out, "group", subject.group)?;
            write_some_text(out, "kind", subject.resource)?;
            write_some_text(out, "name", subject.name)
        }
        None => Ok(()),
    }
}

/// Writes the causes, if there are some.
#[tactic(auto, unfolding(crate::specs::Private::Tokens::causes_tokens))]
fn write_causes(out: &mut Writer, causes: &[Cause]) -> Result<(), Memory>
    ensures tokens { OnOk result (out.new.tokens ≡ out.old.tokens ++ causes_tokens (map_of cause_data causes.now)) }
    ensures before { OnOk result (out.new.before ≡ out.old.before) }
{
    if causes.is_empty() {
        return Ok(());
    }
    write_token(out, Token::Key("causes"))?;
    write_list(out, causes)
}

/// Writes the causes as a list.
fn write_list(out: &mut Writer, causes: &[Cause]) -> Result<(), Memory>
    ensures tokens { OnOk result (out.new.tokens ≡ out.old.tokens ++ data_tokens (array (items_of (map_of cause_data causes.now)))) }
    ensures before { OnOk result (out.new.before ≡ out.old.before) }
{
    write_token(out, Token::BeginArray)?;
    for cause in causes {
        write_cause(out, cause)?;
    }
    write_token(out, Token::EndArray)
}

/// Writes a cause.
fn write_cause(out: &mut Writer, cause: &Cause) -> Result<(), Memory>
    ensures tokens { OnOk result (out.new.tokens ≡ out.old.tokens ++ data_tokens (cause_data cause.now)) }
    ensures before { OnOk result (out.new.before ≡ out.old.before) }
{
    match cause {
        Cause::Missing(parts) => write_missing(out, parts.as_str()),
        Cause::Field(wrong) => write_field(out, wrong.field.as_str(), wrong.words),
    }
}

/// Writes the cause of a denial; the missing parts are given as the text of a JSON list.
fn write_missing(out: &mut Writer, parts: &str) -> Result<(), Memory>
    ensures tokens { OnOk result (out.new.tokens ≡ out.old.tokens ++ data_tokens (missing parts.now)) }
    ensures before { OnOk result (out.new.before ≡ out.old.before) }
{
    write_token(out, Token::BeginObject)?;
    write_text(out, "message", parts)?;
    write_text(out, "reason", "MissingPermission")?;
    write_token(out, Token::EndObject)
}

/// Writes the cause of a body's refusal: a field and the words for what is wrong with it.
fn write_field(out: &mut Writer, field: &str, words: &str) -> Result<(), Memory>
    ensures tokens { OnOk result (out.new.tokens ≡ out.old.tokens ++ data_tokens (field_cause field.now words.now)) }
    ensures before { OnOk result (out.new.before ≡ out.old.before) }
{
    write_token(out, Token::BeginObject)?;
    write_text(out, "field", field)?;
    write_text(out, "message", words)?;
    write_text(out, "reason", "FieldValueInvalid")?;
    write_token(out, Token::EndObject)
}
