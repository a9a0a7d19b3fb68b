ghost use Rattle.std.specs.Prelude.{◌≡◌};
ghost use Rattle.registry_model.specs.Form.{form_of, form_at, form_behind, form_by, blob_form_by, last_segment, path_before, name_in};

/// The form of a request's path (OCI Distribution Specification 1.1, Endpoints), with the texts of
/// its name and of its digest, reference or session number as they stand there; each may be empty.
#[derive(Clone, Copy)]
pub enum Route<'a> {
    NoForm,
    Base,
    Blob { name: &'a str, digest: &'a str },
    Uploads { name: &'a str },
    Session { name: &'a str, reference: &'a str },
    Manifest { name: &'a str, reference: &'a str },
    Tags { name: &'a str },
    Referrers { name: &'a str, digest: &'a str },
}

/// What stands before the last slash, and what behind it.
fn split_last(path: &str) -> (&str, &str)
    ensures before { result.0.now ≡ path_before path.now }
    ensures last { result.1.now ≡ last_segment path.now }
{
    match path.rsplit_once('/') {
        Some((before, last)) => (before, last),
        None => ("", path),
    }
}

/// The name that a path's first segments make.
fn name_of(path: &str) -> &str
    ensures { result.now ≡ name_in path.now }
{
    match path.strip_prefix('/') {
        Some(name) => name,
        None => path,
    }
}

/// The form by the path's last three segments, and what stands before the last two of them.
fn route_by<'a>(
    third: &str,
    second: &str,
    last: &'a str,
    before_third: &'a str,
    before_second: &'a str,
) -> Route<'a>
    ensures { form_of result ≡ form_by (record {
      third = third.now;
      second = second.now;
      last = last.now;
      before_third = before_third.now;
      before_second = before_second.now;
    }) }
{
    if second == "tags" && last == "list" {
        return Route::Tags {
            name: name_of(before_second),
        };
    }
    if second == "manifests" {
        return Route::Manifest {
            name: name_of(before_second),
            reference: last,
        };
    }
    if second == "referrers" {
        return Route::Referrers {
            name: name_of(before_second),
            digest: last,
        };
    }
    blob_route_by(third, second, last, before_third, before_second)
}

/// The same of blobs and of their uploads.
fn blob_route_by<'a>(
    third: &str,
    second: &str,
    last: &'a str,
    before_third: &'a str,
    before_second: &'a str,
) -> Route<'a>
    ensures { form_of result ≡ blob_form_by (record {
      third = third.now;
      second = second.now;
      last = last.now;
      before_third = before_third.now;
      before_second = before_second.now;
    }) }
{
    if third == "blobs" && second == "uploads" {
        if last.is_empty() {
            return Route::Uploads {
                name: name_of(before_third),
            };
        }
        return Route::Session {
            name: name_of(before_third),
            reference: last,
        };
    }
    if second == "blobs" && last == "uploads" {
        return Route::Uploads {
            name: name_of(before_second),
        };
    }
    if second == "blobs" {
        return Route::Blob {
            name: name_of(before_second),
            digest: last,
        };
    }
    Route::NoForm
}

/// The form of what follows the version.
fn route_behind(path: &str) -> Route<'_>
    ensures { form_of result ≡ form_behind path.now }
{
    let (front, last) = split_last(path);
    let (before_second, second) = split_last(front);
    let (before_third, third) = split_last(before_second);
    route_by(third, second, last, before_third, before_second)
}

impl<'a> Route<'a> {
    /// The form of a path, percent-decoded; takes no memory.
    pub fn from_path(path: &'a str) -> Route<'a>
        ensures { form_of result ≡ form_at path.now }
    {
        let Some(path) = path.strip_prefix("/v2") else {
            return Route::NoForm;
        };
        if path.is_empty() || path == "/" {
            return Route::Base;
        }
        if !path.starts_with("/") {
            return Route::NoForm;
        }
        route_behind(path)
    }
}
