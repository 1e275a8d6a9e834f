ghost use Rattle.std.specs.Prelude.{◌≡◌};
ghost use Rattle.cd_wire.specs.Render.{IsRefusal, refusal_bytes};

/// The answer that refuses a request by its status alone, which is 400, 413, 501 or 503: no fields and no body, and the
/// connection is closed. It takes no memory.
pub fn refusal(status: u16) -> &'static [u8]
    requires { IsRefusal status }
    ensures { result.now ≡ refusal_bytes status }
{
    match status {
        400 => b"HTTP/1.1 400 Bad Request\r\nContent-Length: 0\r\nConnection: close\r\n\r\n",
        413 => b"HTTP/1.1 413 Payload Too Large\r\nContent-Length: 0\r\nConnection: close\r\n\r\n",
        501 => b"HTTP/1.1 501 Not Implemented\r\nContent-Length: 0\r\nConnection: close\r\n\r\n",
        503 => {
            b"HTTP/1.1 503 Service Unavailable\r\nContent-Length: 0\r\nConnection: close\r\n\r\n"
        }
        _ => unreachable!(),
    }
}
