//! Which requests a version has, and which replies a request has.
ghost use Rattle.std.specs.Prelude.{◌≡◌};
ghost use Rattle.journal_text.specs.Grammar as grammar;

use crate::version::Version;
use best_monitor::{Reply, Request};
use pool_monitor::{DeskRequest, PoolRequest};

fn is_truth(reply: &Reply) -> bool
    ensures { result ≡ grammar.is_truth reply.now }
{
    match reply {
        Reply::Truth(_) => true,
        Reply::Number(_) => false,
        Reply::List(_) => false,
        Reply::Missing => false,
        Reply::Long(_) => false,
        Reply::Done => false,
    }
}

fn is_number(reply: &Reply) -> bool
    ensures { result ≡ grammar.is_number reply.now }
{
    match reply {
        Reply::Truth(_) => false,
        Reply::Number(_) => true,
        Reply::List(_) => false,
        Reply::Missing => false,
        Reply::Long(_) => false,
        Reply::Done => false,
    }
}

fn is_value(reply: &Reply) -> bool
    ensures { result ≡ grammar.is_value reply.now }
{
    match reply {
        Reply::Truth(_) => false,
        Reply::Number(_) => true,
        Reply::List(_) => false,
        Reply::Missing => true,
        Reply::Long(_) => false,
        Reply::Done => false,
    }
}

fn is_copy(reply: &Reply) -> bool
    ensures { result ≡ grammar.is_copy reply.now }
{
    match reply {
        Reply::Truth(_) => false,
        Reply::Number(_) => false,
        Reply::List(_) => true,
        Reply::Missing => true,
        Reply::Long(_) => true,
        Reply::Done => false,
    }
}

fn is_done(reply: &Reply) -> bool
    ensures { result ≡ grammar.is_done reply.now }
{
    match reply {
        Reply::Truth(_) => false,
        Reply::Number(_) => false,
        Reply::List(_) => false,
        Reply::Missing => false,
        Reply::Long(_) => false,
        Reply::Done => true,
    }
}

fn best_may_have(request: &Request, reply: &Reply) -> bool
    ensures { result ≡ grammar.best_may_have request.now reply.now }
{
    match request {
        Request::Report { .. } => is_truth(reply),
        Request::Value { .. } => is_value(reply),
        Request::Second { .. } => is_value(reply),
        Request::Has { .. } => is_truth(reply),
        Request::Copy { .. } => is_copy(reply),
        Request::Stop { .. } => is_done(reply),
        Request::Stopped { .. } => is_truth(reply),
    }
}

fn pool_may_have(request: &PoolRequest, reply: &Reply) -> bool
    ensures { result ≡ grammar.pool_may_have request.now reply.now }
{
    match request {
        PoolRequest::Add { .. } => is_truth(reply),
        PoolRequest::Size { .. } => is_number(reply),
        PoolRequest::Rank { .. } => is_value(reply),
        PoolRequest::Take { .. } => is_copy(reply),
    }
}

/// Whether the request has such a reply.
pub(crate) fn may_have(request: &DeskRequest, reply: &Reply) -> bool
    ensures { result ≡ grammar.may_have request.now reply.now }
{
    match request {
        DeskRequest::Best(request) => best_may_have(request, reply),
        DeskRequest::Pool(request) => pool_may_have(request, reply),
    }
}

fn has_best(version: &Version, request: &Request) -> bool
    ensures { result ≡ grammar.has_best version.now request.now }
{
    match request {
        Request::Report { second, .. } => version.has_seconds || second.unsigned_abs() == 0,
        Request::Value { .. } => true,
        Request::Second { .. } => version.has_seconds,
        Request::Has { .. } => true,
        Request::Copy { .. } => true,
        Request::Stop { .. } => true,
        Request::Stopped { .. } => true,
    }
}

/// Whether the version has the request.
pub(crate) fn has_request(version: &Version, request: &DeskRequest) -> bool
    ensures { result ≡ grammar.has_request version.now request.now }
{
    match request {
        DeskRequest::Best(request) => has_best(version, request),
        DeskRequest::Pool(_) => version.has_pools,
    }
}
