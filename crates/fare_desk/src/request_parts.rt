use http::Method;

/// What a request says: the method by which it asks, the path, and the body.
#[derive(Clone, Copy)]
pub struct RequestParts<'r> {
    /// Its method.
    pub method: &'r Method,
    /// Its path.
    pub path: &'r str,
    /// Its body.
    pub body: &'r [u8],
}
