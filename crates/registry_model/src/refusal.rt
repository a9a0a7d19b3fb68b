ghost use Rattle.std.specs.Prelude.{◌≡◌};
ghost use Rattle.registry_model.specs.Refusals.{status_of, error_body, code_word, message_of};

use crate::Status;

/// Why a request is refused; the reply carries a JSON error body (OCI Distribution Specification 1.1,
/// Error Codes; the messages are the profile's).
#[derive(Clone, Copy)]
pub enum Refusal {
    TokenRequired,
    NoEndpoint,
    InvalidName,
    MethodNotAllowed,
    AccessDenied,
    BlobUnknown,
    ManifestUnknown,
    UploadUnknown,
    InvalidDigest,
    DigestMismatch,
    ContentTooLarge,
    RangeLength,
    RangeOutOfOrder,
    InvalidRange,
    ManifestBlobUnknown,
    InvalidManifest,
    InvalidReference,
    QuotaExceeded,
    TooManyUploads,
    InvalidPageSize,
}

impl Refusal {
    /// The status of the reply.
    pub fn status(self) -> Status
        ensures { result ≡ status_of self }
    {
        match self {
            Refusal::TokenRequired => Status::Unauthorized,
            Refusal::NoEndpoint => Status::NotFound,
            Refusal::InvalidName => Status::BadRequest,
            Refusal::MethodNotAllowed => Status::MethodNotAllowed,
            Refusal::AccessDenied => Status::Forbidden,
            Refusal::BlobUnknown => Status::NotFound,
            Refusal::ManifestUnknown => Status::NotFound,
            Refusal::UploadUnknown => Status::NotFound,
            Refusal::InvalidDigest => Status::BadRequest,
            Refusal::DigestMismatch => Status::BadRequest,
            Refusal::ContentTooLarge => Status::PayloadTooLarge,
            Refusal::RangeLength => Status::BadRequest,
            Refusal::RangeOutOfOrder => Status::RangeNotSatisfiable,
            Refusal::InvalidRange => Status::BadRequest,
            Refusal::ManifestBlobUnknown => Status::NotFound,
            Refusal::InvalidManifest => Status::BadRequest,
            Refusal::InvalidReference => Status::BadRequest,
            Refusal::QuotaExceeded => Status::Forbidden,
            Refusal::TooManyUploads => Status::TooManyRequests,
            Refusal::InvalidPageSize => Status::BadRequest,
        }
    }

    /// The body of the reply.
    pub fn body(self) -> &'static str
        ensures { result.now ≡ error_body (code_word self) (message_of self) }
    {
        match self {
            Refusal::TokenRequired =>
                "{\"errors\":[{\"code\":\"UNAUTHORIZED\",\"message\":\"token required\"}]}",
            Refusal::NoEndpoint =>
                "{\"errors\":[{\"code\":\"UNSUPPORTED\",\"message\":\"no such endpoint\"}]}",
            Refusal::InvalidName =>
                "{\"errors\":[{\"code\":\"NAME_INVALID\",\"message\":\"invalid repository name\"}]}",
            Refusal::MethodNotAllowed =>
                "{\"errors\":[{\"code\":\"UNSUPPORTED\",\"message\":\"method not allowed\"}]}",
            Refusal::AccessDenied =>
                "{\"errors\":[{\"code\":\"DENIED\",\"message\":\"access denied\"}]}",
            Refusal::BlobUnknown =>
                "{\"errors\":[{\"code\":\"BLOB_UNKNOWN\",\"message\":\"blob unknown\"}]}",
            Refusal::ManifestUnknown =>
                "{\"errors\":[{\"code\":\"MANIFEST_UNKNOWN\",\"message\":\"manifest unknown\"}]}",
            Refusal::UploadUnknown =>
                "{\"errors\":[{\"code\":\"BLOB_UPLOAD_UNKNOWN\",\"message\":\"upload unknown\"}]}",
            Refusal::InvalidDigest =>
                "{\"errors\":[{\"code\":\"DIGEST_INVALID\",\"message\":\"invalid digest\"}]}",
            Refusal::DigestMismatch =>
                "{\"errors\":[{\"code\":\"DIGEST_INVALID\",\"message\":\"digest does not match\"}]}",
            Refusal::ContentTooLarge =>
                "{\"errors\":[{\"code\":\"SIZE_INVALID\",\"message\":\"content too large\"}]}",
            Refusal::RangeLength =>
                "{\"errors\":[{\"code\":\"SIZE_INVALID\",\"message\":\"range does not match body\"}]}",
            Refusal::RangeOutOfOrder =>
                "{\"errors\":[{\"code\":\"BLOB_UPLOAD_INVALID\",\"message\":\"range out of order\"}]}",
            Refusal::InvalidRange =>
                "{\"errors\":[{\"code\":\"BLOB_UPLOAD_INVALID\",\"message\":\"invalid content range\"}]}",
            Refusal::ManifestBlobUnknown =>
                "{\"errors\":[{\"code\":\"MANIFEST_BLOB_UNKNOWN\",\"message\":\"manifest blob unknown\"}]}",
            Refusal::InvalidManifest =>
                "{\"errors\":[{\"code\":\"MANIFEST_INVALID\",\"message\":\"invalid manifest\"}]}",
            Refusal::InvalidReference =>
                "{\"errors\":[{\"code\":\"MANIFEST_INVALID\",\"message\":\"invalid reference\"}]}",
            Refusal::QuotaExceeded =>
                "{\"errors\":[{\"code\":\"DENIED\",\"message\":\"quota exceeded\"}]}",
            Refusal::TooManyUploads =>
                "{\"errors\":[{\"code\":\"TOOMANYREQUESTS\",\"message\":\"too many uploads\"}]}",
            Refusal::InvalidPageSize =>
                "{\"errors\":[{\"code\":\"UNSUPPORTED\",\"message\":\"invalid page size\"}]}",
        }
    }
}
