//! Where clients log in, and what tells that the service goes on. Neither looks at what the registry holds.
ghost use Rattle.std.specs.Prelude.{◌≡◌, ◌==◌, position, IfOk, IsOkAnd, MatchResult, None, string_bytes};
ghost use Rattle.std.specs.List.{after_first, list_all};
ghost use Rattle.registry_model.specs.declared.refusal.Refusal.TheVariants.{TokenRequired};
ghost use Rattle.registry_model.specs.Answer.{answer_of, challenge_text, refused};
ghost use Rattle.registry_model.specs.Ask.{ask_of, text_in};
ghost use Rattle.registry_model.specs.Login.{is_host_byte, is_host, scheme_text, challenge_at, challenge_by, text_of, token_in, is_colon, password_of, token_body, token_answer, login_refused, login_answer, health_answer};
ghost use Rattle.registry_model.specs.Judging.{read_alone, unnamed};

use crate::judging::not_allowed;
use base64::DecodeAllocError;
use base64::engine::general_purpose::STANDARD;
use oci_types::{Fault, NameFault, Token};
use registry_model::{Body, Challenge, Refusal, Reply, Request, Route, Scheme, Status, Verb};
use std::alloc::{AllocError, Global};
use std::str;

/// The most bytes of a host that is named in a challenge.
const LONGEST_HOST: usize = 255;

/// `[A-Za-z0-9.:_[]-]`
fn is_host_byte(byte: u8) -> bool
    ensures { result ≡ is_host_byte byte }
{
    byte.is_ascii_alphanumeric() || matches!(byte, b'.' | b':' | b'-' | b'_' | b'[' | b']')
}

fn are_host_bytes(text: &[u8]) -> bool
    ensures { result ≡ list_all is_host_byte text.now }
{
    text.iter().all(|byte| is_host_byte(*byte))
}

/// Whether a text may stand in a challenge as a host and a port.
fn is_host(text: &[u8]) -> bool
    ensures { result ≡ is_host text.now }
{
    1 <= text.len() && text.len() <= LONGEST_HOST && are_host_bytes(text)
}

/// The scheme, as it stands in a URL.
fn scheme_text(scheme: Scheme) -> &'static str
    ensures { result.now ≡ scheme_text scheme }
{
    match scheme {
        Scheme::Http => "http",
        Scheme::Https => "https",
    }
}

/// The challenge that names a place on a host.
fn challenge_at(alloc: Global, scheme: Scheme, host: &str) -> Result<String, AllocError>
    ensures { IfOk result (λ text. string_bytes text ≡ challenge_at scheme host.now) }
{
    let scheme = scheme_text(scheme);
    format!(in alloc; "Bearer realm=\"{scheme}://{host}/token\",service=\"firkhen\"")
}

/// The challenge, by where clients log in and by the request's host.
fn challenge(alloc: Global, login: Option<Scheme>, host: Option<&str>) -> Result<Challenge, Fault>
    ensures made { MatchResult result (λ made. challenge_text made ≡ challenge_by login (text_in host.entry))
        (λ fault. fault ≡ Fault.Memory) }
    ensures plain { login ≡ None → IsOkAnd result (λ made. challenge_text made ≡ challenge_by None None) }
{
    match (login, host) {
        (Some(scheme), Some(host)) if is_host(host.as_bytes()) => match challenge_at(
            alloc, scheme, host,
        ) {
            Ok(text) => Ok(Challenge::Made(text)),
            Err(_) => Err(Fault::Memory),
        },
        _ => Ok(Challenge::Constant("Bearer realm=\"registry\"")),
    }
}

/// The reply to a request without a known token (RFC 6750, section 3).
pub fn ask_for_token(alloc: Global, request: &Request) -> Result<Reply, Fault>
    ensures asks { MatchResult result (λ reply. answer_of reply ≡ (unnamed (ask_of request.now)).reply)
        (λ fault. fault ≡ Fault.Memory) }
    ensures plain { request.now.settings.login ≡ None
        → IsOkAnd result (λ reply. answer_of reply ≡ refused TokenRequired) }
{
    let challenge = challenge(alloc, request.settings.login, request.host)?;
    Ok(Reply::refusal(Refusal::TokenRequired).with_challenge(challenge))
}

/// The first place of a colon.
fn find_colon(bytes: &[u8]) -> Option<usize>
    ensures { result ≡ position (λ b. b == 58) bytes.now }
{
    bytes.iter().position(|byte| *byte == b':')
}

/// What stands behind the first colon; nothing where there is none.
fn after_colon(bytes: &[u8]) -> &[u8]
    ensures { result.now ≡ after_first is_colon bytes.now }
{
    match find_colon(bytes) {
        Some(at) => &bytes[at + 1..],
        None => b"",
    }
}

/// The bytes as text.
fn text_of(bytes: &[u8]) -> Option<&str>
    ensures { text_in result ≡ text_of bytes.now }
{
    match str::from_utf8(bytes) {
        Ok(text) => Some(text),
        Err(_) => None,
    }
}

/// The token that the text is, if it is one.
pub fn find_token(alloc: Global, text: Option<&str>) -> Result<Option<Token>, Fault>
    ensures none { text.entry ≡ None → result ≡ Ok None }
    ensures found { MatchResult result (λ token. token ≡ token_in (text_in text.entry))
        (λ fault. fault ≡ Fault.Memory) }
{
    let Some(text) = text else {
        return Ok(None);
    };
    match Token::parse(alloc, text) {
        Ok(token) => Ok(Some(token)),
        Err(NameFault::Memory) => Err(Fault::Memory),
        Err(_) => Ok(None),
    }
}

/// The token that is the password of credentials, which have the form of base64 (RFC 7617, section 2).
fn password_of(alloc: Global, basic: Option<&[u8]>) -> Result<Option<Token>, Fault>
    ensures { MatchResult result (λ token. token ≡ password_of (text_in basic.entry))
        (λ fault. fault ≡ Fault.Memory) }
{
    let Some(coded) = basic else {
        return Ok(None);
    };
    match STANDARD.decode(alloc, coded) {
        Ok(bytes) => find_token(alloc, text_of(after_colon(bytes.as_slice()))),
        Err(DecodeAllocError::OutOfMemory) => Err(Fault::Memory),
        Err(_) => Ok(None),
    }
}

/// The document that hands out a token.
fn token_body(alloc: Global, token: &str) -> Result<String, AllocError>
    ensures { IfOk result (λ text. string_bytes text ≡ token_body token.now) }
{
    format!(in alloc; "{{\"access_token\":\"{token}\",\"expires_in\":300,\"token\":\"{token}\"}}")
}

/// The reply that hands out a token.
fn token_reply(alloc: Global, token: &str) -> Result<Reply, Fault>
    ensures { MatchResult result (λ reply. answer_of reply ≡ token_answer token.now)
        (λ fault. fault ≡ Fault.Memory) }
{
    match token_body(alloc, token) {
        Ok(text) => Ok(
            Reply::bare(Status::OK)
                .with_content("application/json", Body::Owned(text.into_bytes()))
                .with_caching("no-store"),
        ),
        Err(_) => Err(Fault::Memory),
    }
}

/// The reply that asks for a name and a password (RFC 7617, section 2).
fn refused_login() -> Reply
    ensures { answer_of result ≡ login_refused }
{
    Reply::refusal(Refusal::TokenRequired).with_challenge(Challenge::Constant(
        "Basic realm=\"firkhen\"",
    ))
}

/// Changes credentials for the token that is their password.
fn exchange(alloc: Global, basic: Option<&[u8]>) -> Result<Reply, Fault>
    ensures { MatchResult result (λ reply. answer_of reply ≡ login_answer (text_in basic.entry))
        (λ fault. fault ≡ Fault.Memory) }
{
    match password_of(alloc, basic)? {
        Some(token) => token_reply(alloc, token.as_str()),
        None => Ok(refused_login()),
    }
}

/// The reply to a request where clients log in. Whether the token is known is not looked at.
pub fn log_in(alloc: Global, method: Verb, basic: Option<&[u8]>) -> Result<Reply, Fault>
    ensures { MatchResult result
        (λ reply. answer_of reply ≡ (read_alone method (login_answer (text_in basic.entry))).reply)
        (λ fault. fault ≡ Fault.Memory) }
{
    match method {
        Verb::Get | Verb::Head => exchange(alloc, basic),
        _ => Ok(not_allowed(&Route::Base)),
    }
}

/// The reply to a request that asks whether the service goes on; takes no memory.
pub fn tell_health(method: Verb) -> Reply
    ensures { answer_of result ≡ (read_alone method health_answer).reply }
{
    match method {
        Verb::Get | Verb::Head => Reply::bare(Status::OK).with_content(
            "text/plain",
            Body::Constant("ok\n"),
        ),
        _ => not_allowed(&Route::Base),
    }
}
