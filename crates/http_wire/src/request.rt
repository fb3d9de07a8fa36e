use plain_words::{Blob, Items};

/// A request as it was framed (RFC 9112), with the parts that the scheduler looks at.
#[derive(Debug, Drop)]
pub struct HttpRequest {
    /// The method, a token.
    pub method: Blob,
    /// The request target, UTF-8 that is not percent-decoded.
    pub target: Blob,
    /// The value of each X-Moment header, in their order.
    pub moments: Items<Blob>,
    /// The body, at most 262,144 bytes.
    pub body: Blob,
}
