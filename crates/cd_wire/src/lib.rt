//! The bytes of HTTP/1.1: requests from what a connection sends, and the bytes of what is answered.
//!
//! `Intake` takes the bytes of a connection in any pieces and gives its requests, one after another: what a call finds is
//! specs/Intake.antt. The requests of an input are a relation over all its bytes (specs/Requests.antt), where the grammar of
//! a head is `httparse`'s. `requests_are_unique`, `requests_exist`, `requests_stay` and `splits_stay` are its laws. A body has the
//! length that its head gives, or comes in chunks; no other coding is known. An unfinished body in chunks takes memory for its
//! data, and not for the lines of the chunks.
//!
//! `read_body` is the one reader of bodies. It also serves a caller that reads another kind of message, and keeps a `Body` itself:
//! `framing_by` says how one is delimited, `unread` begins it, and specs/Reading.antt says what is found in all of its bytes, of
//! which those that were read need not be kept. `Dropped` names these in clauses.
//!
//! A request keeps its head as one block of bytes. Contracts see the parts of it by their names, and `Request` lends them, its fields
//! as `Fields`, one by one. So most requests take two pieces of memory to read: the block, and the places of its fields.
//!
//! `render` gives exactly the bytes that specs/Render.antt defines for an answer, and `render_over` writes them over those of an
//! earlier one. The lines of the usual fields are ready there. `fields_go_by_name` says of the order of fields there what a reader
//! wants to know of it. `refusal` gives the fixed answers, which take no memory.
//!
//! Nothing here reads or writes: the caller brings the bytes and sends them. The fields of an answer are the caller's: those
//! that would frame the answer are left out in any case of their names, and values are cleaned of control bytes. That a name
//! has the form of one is left to the caller.
#![tactic(auto)]

mod answer;
mod asking;
mod bodies;
mod chunks;
mod dropped;
mod fault;
mod fields;
mod framing;
mod head;
mod held;
mod intake;
mod judging;
mod laws;
mod lent;
mod limits;
mod lines;
mod marks;
mod place;
mod refusals;
mod rendering;
mod request;
mod scanning;
mod seen;
mod taking;
mod targets;
mod texts;
mod usual;

pub use answer::Answer;
pub use bodies::{Body, BodyRead, read_body, unread};
pub use dropped::Dropped;
pub use fault::WireFault;
pub use fields::Field;
pub use framing::Framing;
pub use held::RequestFields;
pub use intake::{Intake, Look, Next};
pub use judging::framing_by;
pub use laws::{
    fields_go_by_name, limits_are, looks_are_kept, no_bytes_are_no_request, requests_are_unique,
    requests_exist, requests_stay, splits_stay,
};
pub use lent::{Lent, copy_fields};
pub use limits::{MAX_BODY_BYTES, MAX_CHUNK_LINE_BYTES, MAX_HEAD_BYTES, MAX_HEAD_FIELDS};
pub use lines::put_lines;
pub use refusals::refusal;
pub use rendering::{reason_of, render, render_over};
pub use request::Request;
pub use seen::Fields;
pub use targets::{before_question_mark, has_scheme, local_part, query_of};
pub use texts::{front_of, is_text, rest_from, trimmed};
