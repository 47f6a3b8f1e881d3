ghost use Rattle.std.specs.Prelude.{◌≡◌};
ghost use Rattle.fare_http.specs.Answers.{allow_line, form_line, status_number, status_text};

use fare_ports::Bytes;

/// What a request is answered.
#[derive(Drop)]
pub struct Reply {
    /// How the request ended.
    pub status: Status,
    /// What its body is.
    pub form: Form,
    /// The method that is said to be allowed, if one is.
    pub allow: Allow,
    /// The body of the answer.
    pub body: Bytes,
}

/// How a request ended: the statuses that have a phrase.
#[derive(Clone, Copy, Debug, PartialEq, Eq)]
pub enum Status {
    /// 200
    Okay,
    /// 201
    Created,
    /// 400
    BadRequest,
    /// 404
    NotFound,
    /// 405
    MethodNotAllowed,
    /// 409
    Conflict,
    /// 413
    ContentTooLarge,
    /// 422
    UnprocessableContent,
    /// 500
    InternalServerError,
    /// 503
    ServiceUnavailable,
    /// 507
    InsufficientStorage,
}

impl Status {
    /// Its number.
    pub fn number(self) -> u16
        ensures { result ≡ status_number self }
    {
        match self {
            Status::Okay => 200,
            Status::Created => 201,
            Status::BadRequest => 400,
            Status::NotFound => 404,
            Status::MethodNotAllowed => 405,
            Status::Conflict => 409,
            Status::ContentTooLarge => 413,
            Status::UnprocessableContent => 422,
            Status::InternalServerError => 500,
            Status::ServiceUnavailable => 503,
            Status::InsufficientStorage => 507,
        }
    }

    /// The status, a space and its phrase.
    pub fn text(self) -> &'static [u8]
        ensures { result.now ≡ status_text self }
    {
        match self {
            Status::Okay => b"200 OK",
            Status::Created => b"201 Created",
            Status::BadRequest => b"400 Bad Request",
            Status::NotFound => b"404 Not Found",
            Status::MethodNotAllowed => b"405 Method Not Allowed",
            Status::Conflict => b"409 Conflict",
            Status::ContentTooLarge => b"413 Content Too Large",
            Status::UnprocessableContent => b"422 Unprocessable Content",
            Status::InternalServerError => b"500 Internal Server Error",
            Status::ServiceUnavailable => b"503 Service Unavailable",
            Status::InsufficientStorage => b"507 Insufficient Storage",
        }
    }
}

/// What the body of a reply is.
#[derive(Clone, Copy, Debug, PartialEq, Eq)]
pub enum Form {
    /// Plain text.
    Text,
    /// A JSON value.
    Json,
}

impl Form {
    /// The line of the answer's head that says it.
    pub fn line(self) -> &'static [u8]
        ensures { result.now ≡ form_line self }
    {
        match self {
            Form::Text => b"Content-Type: text/plain\r\n",
            Form::Json => b"Content-Type: application/json\r\n",
        }
    }
}

/// Which method a reply says is allowed.
#[derive(Clone, Copy, Debug, PartialEq, Eq)]
pub enum Allow {
    /// It says none.
    Unsaid,
    /// GET
    Get,
    /// POST
    Post,
}

impl Allow {
    /// The line of the answer's head that says it, if there is one.
    pub fn line(self) -> &'static [u8]
        ensures { result.now ≡ allow_line self }
    {
        match self {
            Allow::Unsaid => b"",
            Allow::Get => b"Allow: GET\r\n",
            Allow::Post => b"Allow: POST\r\n",
        }
    }
}
