/// What a grant allows on a repository (profile); each level allows what those before it do.
#[derive(Clone, Copy, Debug)]
pub enum Level {
    /// GET and HEAD of blobs, manifests, tags and referrers.
    Pull,
    /// Also POST, PATCH and PUT, and the status of an upload session.
    Push,
    /// Also DELETE.
    Delete,
}
