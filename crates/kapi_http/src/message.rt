//! Requests, faults and replies, with their parts.
ghost use Rattle.std.specs.Prelude.{◌≡◌};
ghost use Rattle.kapi_http.specs.Message.{method_text, status_number, status_phrase};

use kapi_text::{Sequence, Text};

/// The methods that are served (RFC 9110 section 9.3, RFC 5789).
#[derive(Clone, Copy, PartialEq, Eq)]
pub enum Method {
    Get,
    Post,
    Put,
    Patch,
    Delete,
}

impl Method {
    /// The method as in a request line.
    pub fn as_str(self) -> &'static str
        ensures { result.now ≡ method_text self }
    {
        match self {
            Method::Get => "GET",
            Method::Post => "POST",
            Method::Put => "PUT",
            Method::Patch => "PATCH",
            Method::Delete => "DELETE",
        }
    }
}

/// The status codes that are answered (RFC 9110 section 15, RFC 6585 section 5).
#[derive(Clone, Copy, PartialEq, Eq)]
pub enum StatusCode {
    Ok,
    Created,
    BadRequest,
    Forbidden,
    NotFound,
    MethodNotAllowed,
    Conflict,
    Gone,
    ContentTooLarge,
    UnsupportedMediaType,
    ExpectationFailed,
    UnprocessableContent,
    RequestHeaderFieldsTooLarge,
    NotImplemented,
    ServiceUnavailable,
    GatewayTimeout,
    HttpVersionNotSupported,
}

impl StatusCode {
    /// The code's number, of three digits.
    pub fn number(self) -> u16
        ensures { result ≡ status_number self }
    {
        match self {
            StatusCode::Ok => 200,
            StatusCode::Created => 201,
            StatusCode::BadRequest => 400,
            StatusCode::Forbidden => 403,
            StatusCode::NotFound => 404,
            StatusCode::MethodNotAllowed => 405,
            StatusCode::Conflict => 409,
            StatusCode::Gone => 410,
            StatusCode::ContentTooLarge => 413,
            StatusCode::UnsupportedMediaType => 415,
            StatusCode::ExpectationFailed => 417,
            StatusCode::UnprocessableContent => 422,
            StatusCode::RequestHeaderFieldsTooLarge => 431,
            StatusCode::NotImplemented => 501,
            StatusCode::ServiceUnavailable => 503,
            StatusCode::GatewayTimeout => 504,
            StatusCode::HttpVersionNotSupported => 505,
        }
    }

    /// The code's reason phrase.
    pub fn phrase(self) -> &'static str
        ensures { result.now ≡ status_phrase self }
    {
        match self {
            StatusCode::Ok => "OK",
            StatusCode::Created => "Created",
            StatusCode::BadRequest => "Bad Request",
            StatusCode::Forbidden => "Forbidden",
            StatusCode::NotFound => "Not Found",
            StatusCode::MethodNotAllowed => "Method Not Allowed",
            StatusCode::Conflict => "Conflict",
            StatusCode::Gone => "Gone",
            StatusCode::ContentTooLarge => "Content Too Large",
            StatusCode::UnsupportedMediaType => "Unsupported Media Type",
            StatusCode::ExpectationFailed => "Expectation Failed",
            StatusCode::UnprocessableContent => "Unprocessable Content",
            StatusCode::RequestHeaderFieldsTooLarge => "Request Header Fields Too Large",
            StatusCode::NotImplemented => "Not Implemented",
            StatusCode::ServiceUnavailable => "Service Unavailable",
            StatusCode::GatewayTimeout => "Gateway Timeout",
            StatusCode::HttpVersionNotSupported => "HTTP Version Not Supported",
        }
    }
}

/// A header field: its name as sent, its value without white space at both ends.
#[derive(Drop)]
pub struct Header {
    pub name: Text,
    pub value: Sequence<u8>,
}

/// A whole request.
#[derive(Drop)]
pub struct HttpRequest {
    pub method: Method,
    /// The request target as sent.
    pub target: Text,
    /// The header fields in the order sent.
    pub headers: Sequence<Header>,
    pub body: Sequence<u8>,
    /// A Connection field asks to close after the reply.
    pub close: bool,
    /// The number of bytes of the request as sent, empty lines before it included.
    pub length: usize,
}

/// Why no request can be read; the connection closes after its reply.
#[derive(Drop)]
pub struct HttpFault {
    pub code: StatusCode,
    /// What is wrong if the code is 400 (`head`, `host`, `length` or `chunk`), the method if it is 405, else
    /// empty.
    pub word: Text,
    /// The request is a HEAD, so that its reply has no body.
    pub no_body: bool,
}

/// Why a request is refused.
#[derive(Clone, Copy, PartialEq, Eq)]
pub enum Refusal {
    /// The head or the number of its lines is above the limit.
    HeadTooLarge,
    /// The bytes are no request head.
    NoHead,
    /// The version is HTTP/1.0.
    Version,
    /// There is not exactly one Host field.
    Host,
    /// There is an Expect field.
    Expectation,
    /// The method is none that is served.
    Method,
    /// A Content-Length field is not digits alone, is not the only one, or comes with a Transfer-Encoding field.
    Length,
    /// There is a Transfer-Encoding field whose value is not `chunked`, or more than one.
    TransferEncoding,
    /// The bytes behind the head are no body in chunks.
    Chunk,
    /// The body is above the limit.
    BodyTooLarge,
}

/// A reply to be written.
#[derive(Drop)]
pub struct Reply {
    pub code: StatusCode,
    /// The body is plain text, and JSON if this is false.
    pub plain: bool,
    /// The methods of the Allow line; if there are none, there is no such line.
    pub allow: Sequence<Method>,
    /// A Transfer-Encoding line takes the place of Content-Length, and the body is written as it is.
    pub chunked: bool,
    /// The connection closes after the reply.
    pub close: bool,
    /// The body; if there is none, there is no Content-Length line either, as in a reply to HEAD.
    pub body: Option<Sequence<u8>>,
}
