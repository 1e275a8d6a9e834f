ghost use Rattle.std.specs.Prelude.{◌≡◌, [], IfOk};
ghost use Rattle.std.specs.Option.{option_copied};
ghost use Rattle.std.specs.List.{list_any};
ghost use Rattle.cd_wire.specs.Framing.{is_closing, request_of};
ghost use Rattle.cd_wire.specs.Render.{is_head};

use crate::asking::read_path;
use crate::head::Head;
use crate::seen::Fields;
use crate::targets::{query_of, raw_path};
use cd_text::{NoMemory, Octets};
use std::alloc::Global;
use std::marker::Model;

/// A request, as it was read (RFC 9112, section 3). Its head is one block of bytes, in which its parts lie.
#[derive(Debug, Drop)]
pub struct Request {
    head: Head,
    // the path with its escapes read, where it has any
    path: Option<Octets>,
    close: bool,
    body: Octets,
}

impl Model for Request {
    ghost use Rattle.std.specs.Prelude.{◌≡◌, ◌||◌, ◌==◌};
    ghost use Rattle.std.specs.List.{list_any};
    ghost use Rattle.cd_wire.specs.Parts.{RequestParts};

    ghost Value = { RequestParts };

    ghost use Rattle.cd_wire.specs.Framing.{is_closing, request_of};
    ghost use Rattle.cd_wire.specs.Kept.{IsPath};
    ghost use Rattle.cd_wire.specs.Targets.{raw_path};

    ghost view = { λ request. request_of request.head request.body };

    ghost invariant = { λ request. IsPath request.path (raw_path request.head.target)
        × (request.close ≡ (request.head.minor == 0 || list_any is_closing request.head.fields)) };
}

/// The request that the head and the body are, where it is known whether a Connection field closes the connection.
pub(crate) fn request_of(
    alloc: Global,
    head: Head,
    closing: bool,
    body: Octets,
) -> Result<Request, NoMemory>
    requires { closing ≡ list_any is_closing head.fields }
    ensures { IfOk result (λ request. request ≡ request_of head body) }
{
    let path = read_path(alloc, raw_path(head.target()))?;
    let close = head.minor() == 0 || closing;
    Ok(Request {
        head,
        path,
        close,
        body,
    })
}

#[tactic(auto, unfolding(crate::specs::Framing::request_of))]
impl Request {
    /// A request without fields and without a body.
    pub fn plain(
        alloc: Global,
        method: &[u8],
        target: &[u8],
        minor: u8,
    ) -> Result<Request, NoMemory>
        ensures { IfOk result (λ request. request ≡ request_of (record {
          method = method.now;
          target = target.now;
          minor = minor;
          fields = [];
        }) []) }
    {
        request_of(
            alloc,
            Head::plain(alloc, method, target, minor)?,
            false,
            Octets::new(alloc),
        )
    }

    /// The same request with this body.
    pub(crate) fn with_body(self, body: Octets) -> Request
        ensures { result ≡ record self { body = body } }
    {
        let Request {
            head,
            path,
            close,
            body: _,
        } = self;
        Request {
            head,
            path,
            close,
            body,
        }
    }

    /// The method, such as `GET`. Case counts.
    pub fn method(&self) -> &[u8]
        ensures { result.now ≡ self.now.method }
    {
        self.head.method()
    }

    /// Whether the method is `HEAD`, whose answer has no body (RFC 9110, section 9.3.2).
    pub fn is_head(&self) -> bool
        ensures { result ≡ is_head self.now }
    {
        self.method() == b"HEAD".as_slice()
    }

    /// The target, as it stands in the head.
    pub fn target(&self) -> &[u8]
        ensures { result.now ≡ self.now.target }
    {
        self.head.target()
    }

    /// The path of the target, up to the first `?`, percent-decoded: any bytes, with dots and double slashes as sent. It is `/`
    /// where an absolute target has no path, and `*` for the target `*`.
    pub fn path(&self) -> &[u8]
        ensures { result.now ≡ self.now.path }
    {
        match &self.path {
            Some(path) => path.as_slice(),
            None => raw_path(self.head.target()),
        }
    }

    /// What follows the first `?` of the target, not decoded. `None` where there is no `?`, which is not the same as an empty query.
    pub fn query(&self) -> Option<&[u8]>
        ensures { option_copied result ≡ self.now.query }
    {
        query_of(self.head.target())
    }

    /// The host that is asked for, with its port where one is named: the authority of an absolute target, else the value of Host.
    /// It is empty where an HTTP/1.0 request has neither.
    pub fn host(&self) -> &[u8]
        ensures { result.now ≡ self.now.host }
    {
        self.head.host()
    }

    /// The minor version: 1 for HTTP/1.1, 0 for HTTP/1.0.
    pub fn minor(&self) -> u8
        ensures { result ≡ self.now.minor }
    {
        self.head.minor()
    }

    /// The fields of the head, in their order, with names in lower case and values without white space around them. Host is among
    /// them as sent, also where an absolute target has another host.
    pub fn fields(&self) -> Fields<'_>
        ensures { result ≡ self.now.fields }
    {
        self.head.fields()
    }

    /// The body, which is empty where there is none: at most `MAX_BODY_BYTES`. Of one in chunks it is their data (RFC 9112,
    /// section 7.1).
    pub fn body(&self) -> &[u8]
        ensures { result.now ≡ self.now.body }
    {
        self.body.as_slice()
    }

    /// Whether the client wants the connection closed after the answer: with HTTP/1.0, or by `close` in a Connection field
    /// (RFC 9112, section 9.6).
    pub fn close(&self) -> bool
        ensures { result ≡ self.now.close }
    {
        self.close
    }
}
