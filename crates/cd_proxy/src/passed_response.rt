ghost use Rattle.std.specs.Prelude.{◌≡◌, [], IfOk};
ghost use Rattle.cd_proxy.specs.declared.head.Head.{Head as HeadOf};
ghost use Rattle.cd_proxy.specs.Responses.{passed};

use crate::head::Head;
use crate::hops::passed_own;
use crate::own_field::{OwnField, lend};
use cd_text::{List, NoMemory, Octets};
use cd_wire::{Answer, Lent};
use std::alloc::Global;
use std::marker::Model;

/// What is passed on of a response. Contracts see the answer that it is.
#[derive(Debug, Drop)]
pub struct PassedResponse {
    status: u16,
    fields: List<OwnField>,
    body: Octets,
}

impl Model for PassedResponse {
    ghost use Rattle.std.specs.Prelude.{false};
    ghost use Rattle.cd_wire.specs.declared.answer.Answer.{Answer};

    ghost Value = { Answer };

    ghost view = { λ response. record { status = response.status; fields = response.fields; body = response.body; close = false } };
}

impl PassedResponse {
    /// What is passed on of a head, without a body.
    pub(crate) fn of_head(alloc: Global, head: Head) -> Result<PassedResponse, NoMemory>
        ensures { IfOk result (λ response. response ≡ passed head []) }
    {
        Ok(PassedResponse {
            status: head.status,
            fields: passed_own(alloc, head.fields)?,
            body: Octets::new(alloc),
        })
    }

    /// The same with this body.
    pub(crate) fn with_body(self, body: Octets) -> PassedResponse
        ensures { result ≡ record self { body = body } }
    {
        let PassedResponse {
            status,
            fields,
            body: _,
        } = self;
        PassedResponse {
            status,
            fields,
            body,
        }
    }

    /// The answer that it is, which it lends. It takes memory for the list of the fields alone.
    pub fn answer(&self, alloc: Global) -> Result<Answer<'_>, NoMemory>
        ensures { IfOk result (λ answer. answer ≡ self.now) }
    {
        Ok(Answer {
            status: self.status,
            fields: lend(alloc, self.fields.as_slice())?,
            body: Lent::shared(self.body.as_slice()),
            close: false,
        })
    }
}
